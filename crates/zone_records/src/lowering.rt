//! Names and data as a zone keeps them: without compression, names in lower case (RFC 4034 6.2).

ghost use Rattle.std.specs.Prelude.{◌≡◌, ◌++◌, map, length, option_map, IfOk, OnOk};
ghost use Rattle.std.specs.Char.{to_ascii_lowercase};
ghost use Rattle.std.specs.Int.{w16, w32, to_be_bytes};
ghost use Rattle.dns_base.specs.Data.{data_spelling};
ghost use Rattle.dns_base.specs.Forms.{second_spelling};
ghost use Rattle.dns_base.specs.RecordData.{data_view};
ghost use Rattle.dns_names.specs.Name.{spelling, lowered};
ghost use Rattle.zone_records.specs.Records.{lowered_data};

use crate::octets::OctetList;
use dns_base::{NoMemory, ParsedName, Record, RecordData};
use std::alloc::Global;

/// Appends octets in lower case.
fn put_lowered(octets: &mut Vec<u8>, label: &[u8]) -> Result<(), NoMemory>
    ensures { OnOk result (octets.new.items ≡ octets.old.items ++ map to_ascii_lowercase label.now) }
{
    for octet in label {
        octets.push(octet.to_ascii_lowercase())?;
    }
    Ok(())
}

/// Appends a name.
fn put_name(octets: &mut Vec<u8>, name: &ParsedName<'_>) -> Result<(), NoMemory>
    ensures { OnOk result (octets.new.items ≡ octets.old.items ++ spelling (lowered name.now)) }
{
    for label in name.labels() {
        octets.push(label.len() as u8)?;
        put_lowered(octets, label)?;
    }
    octets.push(0)?;
    Ok(())
}

/// Appends a second name, if there is one.
fn put_second(octets: &mut Vec<u8>, second: &Option<ParsedName<'_>>) -> Result<(), NoMemory>
    ensures { OnOk result (octets.new.items ≡ octets.old.items ++ second_spelling (option_map lowered second.now)) }
{
    match second {
        Some(name) => put_name(octets, name),
        None => Ok(()),
    }
}

/// Appends two octets, the highest first.
fn put_u16(octets: &mut Vec<u8>, n: u16) -> Result<(), NoMemory>
    ensures { OnOk result (octets.new.items ≡ octets.old.items ++ to_be_bytes w16 n) }
{
    octets.extend_from_slice(&n.to_be_bytes())?;
    Ok(())
}

/// Appends four octets, the highest first.
fn put_u32(octets: &mut Vec<u8>, n: u32) -> Result<(), NoMemory>
    ensures { OnOk result (octets.new.items ≡ octets.old.items ++ to_be_bytes w32 n) }
{
    octets.extend_from_slice(&n.to_be_bytes())?;
    Ok(())
}

fn put_octets(octets: &mut Vec<u8>, more: &[u8]) -> Result<(), NoMemory>
    ensures { OnOk result (octets.new.items ≡ octets.old.items ++ more.now) }
{
    octets.extend_from_slice(more)?;
    Ok(())
}

/// Appends data.
#[tactic(auto, unfolding(dns_base::specs::Data::data_spelling))]
fn put_data(octets: &mut Vec<u8>, rdata: &RecordData<'_>) -> Result<(), NoMemory>
    ensures { OnOk result (octets.new.items ≡ octets.old.items ++ data_spelling (lowered_data (data_view rdata.now))) }
{
    match rdata {
        RecordData::A(address) => put_octets(octets, address),
        RecordData::Aaaa(address) => put_octets(octets, address),
        RecordData::Ns(name)
        | RecordData::Md(name)
        | RecordData::Mf(name)
        | RecordData::Cname(name)
        | RecordData::Mb(name)
        | RecordData::Mg(name)
        | RecordData::Mr(name)
        | RecordData::Ptr(name)
        | RecordData::Dname(name) => put_name(octets, name),
        RecordData::Minfo(first, second) => {
            put_name(octets, first)?;
            put_name(octets, second)
        }
        RecordData::Mx(preference, exchange) => {
            put_u16(octets, *preference)?;
            put_name(octets, exchange)
        }
        RecordData::Soa {
            mname,
            rname,
            serial,
            refresh,
            retry,
            expire,
            minimum,
        } => {
            put_name(octets, mname)?;
            put_name(octets, rname)?;
            put_u32(octets, serial.0)?;
            put_u32(octets, refresh.0)?;
            put_u32(octets, retry.0)?;
            put_u32(octets, expire.0)?;
            put_u32(octets, minimum.0)
        }
        RecordData::Srv {
            priority,
            weight,
            port,
            target,
        } => {
            put_u16(octets, *priority)?;
            put_u16(octets, *weight)?;
            put_u16(octets, *port)?;
            put_name(octets, target)
        }
        RecordData::Named {
            before,
            first,
            second,
            behind,
        } => {
            put_octets(octets, before)?;
            put_name(octets, first)?;
            put_second(octets, second)?;
            put_octets(octets, behind)
        }
        RecordData::Txt(content) | RecordData::Opt(content) | RecordData::Other(content) => {
            put_octets(octets, content)
        }
    }
}

/// How many octets a name has without compression.
fn name_size(name: &ParsedName<'_>) -> usize {
    let mut count: usize = 1;
    for label in name.labels() {
        count = count.saturating_add(label.len()).saturating_add(1);
    }
    count
}

/// A name as a zone keeps it.
pub(crate) fn lowered_name(alloc: Global, name: &ParsedName<'_>) -> Result<OctetList, NoMemory>
    ensures { IfOk result (λ o. o ≡ spelling (lowered name.now)) }
{
    let mut octets = Vec::with_capacity(alloc, name_size(name))?;
    put_name(&mut octets, name)?;
    Ok(OctetList::from_vec(octets))
}

/// The data of a record as a zone keeps it.
pub(crate) fn lowered_octets(
    alloc: Global,
    source: &Record<'_>,
    content: &RecordData<'_>,
) -> Result<OctetList, NoMemory>
    ensures { IfOk result (λ o. o ≡ data_spelling (lowered_data (data_view content.now))) }
{
    let mut octets = Vec::with_capacity(alloc, source.raw_data().len())?;
    put_data(&mut octets, content)?;
    Ok(OctetList::from_vec(octets))
}
