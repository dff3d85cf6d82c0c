//! Names and data of records with their names spelled out.

ghost use Rattle.std.specs.Prelude.{◌≡◌, ◌+◌, ◌≤◌, ◌<◌, ◌^◌, ◌++◌, length, IfOk, OnOk, IsTrue};
ghost use Rattle.std.specs.Int.{w16, w32, to_be_bytes};
ghost use Rattle.dns_names.specs.Name.{spelling, octet_count, IsLegal};
ghost use Rattle.dns_base.specs.Data.{data_spelling, data_size};
ghost use Rattle.dns_base.specs.Forms.{second_size, second_spelling};
ghost use Rattle.dns_base.specs.Holding.{IsWritableData, IsLegalSecond};
ghost use Rattle.dns_base.specs.RecordData.{data_view};
ghost use Rattle.dns_base.specs.Compression.{Begins};

use crate::record_data::RecordData;
use dns_names::ParsedName;
use dns_values::NoMemory;
use std::alloc::Global;

/// How many octets a name has spelled out.
pub(crate) fn name_size(name: &ParsedName<'_>) -> usize
    ensures all { result ≡ octet_count name.now }
    ensures spelled { result ≡ length (spelling name.now) }
    ensures few { result ≤ 255 }
    ensures legal { IsLegal name.now }
{
    let mut count = 1;
    for label in name.labels() {
        count += 1 + label.len();
    }
    count
}

/// Appends a name.
#[tactic(auto, using(crate::proofs::Compressing::begins_on))]
fn put_name(octets: &mut Vec<u8>, name: &ParsedName<'_>) -> Result<(), NoMemory>
    ensures kept { Begins octets.old.items octets.new.items }
    ensures items { OnOk result (octets.new.items ≡ octets.old.items ++ spelling name.now) }
    ensures legal { IsLegal name.now }
{
    for label in name.labels() {
        put_octets(octets, &[label.len() as u8])?;
        put_octets(octets, label)?;
    }
    put_octets(octets, &[0])
}

/// Appends two octets, the highest first.
fn put_u16(octets: &mut Vec<u8>, n: u16) -> Result<(), NoMemory>
    ensures kept { Begins octets.old.items octets.new.items }
    ensures items { OnOk result (octets.new.items ≡ octets.old.items ++ to_be_bytes w16 n) }
    ensures range { n < 2 ^ 16 }
{
    octets.extend_from_slice(&n.to_be_bytes())?;
    Ok(())
}

/// Appends four octets, the highest first.
fn put_u32(octets: &mut Vec<u8>, n: u32) -> Result<(), NoMemory>
    ensures kept { Begins octets.old.items octets.new.items }
    ensures items { OnOk result (octets.new.items ≡ octets.old.items ++ to_be_bytes w32 n) }
    ensures range { n < 2 ^ 32 }
{
    octets.extend_from_slice(&n.to_be_bytes())?;
    Ok(())
}

fn put_octets(octets: &mut Vec<u8>, more: &[u8]) -> Result<(), NoMemory>
    ensures kept { Begins octets.old.items octets.new.items }
    ensures items { OnOk result (octets.new.items ≡ octets.old.items ++ more.now) }
{
    octets.extend_from_slice(more)?;
    Ok(())
}

fn put_address(octets: &mut Vec<u8>, address: [u8; 4]) -> Result<(), NoMemory>
    ensures kept { Begins octets.old.items octets.new.items }
    ensures items { OnOk result (octets.new.items ≡ octets.old.items ++ address) }
    ensures len { length address ≡ 4 }
{
    put_octets(octets, &address)
}

fn put_long_address(octets: &mut Vec<u8>, address: [u8; 16]) -> Result<(), NoMemory>
    ensures kept { Begins octets.old.items octets.new.items }
    ensures items { OnOk result (octets.new.items ≡ octets.old.items ++ address) }
    ensures len { length address ≡ 16 }
{
    put_octets(octets, &address)
}

fn octets_size(octets: &[u8]) -> usize
    ensures { result ≡ length octets.now }
{
    octets.len()
}

/// How many octets a second name has, if there is one.
fn second_size(second: &Option<ParsedName<'_>>) -> usize
    ensures all { result ≡ second_size second.now }
    ensures few { result ≤ 255 }
{
    match second {
        Some(name) => name_size(name),
        None => 0,
    }
}

/// How many octets data with names has.
pub(crate) fn named_size(
    before: &[u8],
    first: &ParsedName<'_>,
    second: &Option<ParsedName<'_>>,
    behind: &[u8],
) -> usize
    requires { length before.now + length behind.now < 2 ^ 63 }
    ensures { result ≡ length before.now + octet_count first.now + second_size second.now + length behind.now }
{
    before.len() + name_size(first) + second_size(second) + behind.len()
}

/// Appends a second name, if there is one.
fn put_second(octets: &mut Vec<u8>, second: &Option<ParsedName<'_>>) -> Result<(), NoMemory>
    ensures kept { Begins octets.old.items octets.new.items }
    ensures items { OnOk result (octets.new.items ≡ octets.old.items ++ second_spelling second.now) }
    ensures legal { OnOk result (IsLegalSecond second.now) }
{
    match second {
        Some(name) => put_name(octets, name),
        None => Ok(()),
    }
}

/// How many octets data has.
pub(crate) fn data_size(rdata: &RecordData<'_>) -> usize
    requires { data_size (data_view rdata.now) < 65536 }
    ensures { result ≡ data_size (data_view rdata.now) }
{
    match rdata {
        RecordData::A(address) => octets_size(address),
        RecordData::Aaaa(address) => octets_size(address),
        RecordData::Ns(name)
        | RecordData::Md(name)
        | RecordData::Mf(name)
        | RecordData::Cname(name)
        | RecordData::Mb(name)
        | RecordData::Mg(name)
        | RecordData::Mr(name)
        | RecordData::Ptr(name)
        | RecordData::Dname(name) => name_size(name),
        RecordData::Minfo(first, second) => name_size(first) + name_size(second),
        RecordData::Mx(_, exchange) => 2 + name_size(exchange),
        RecordData::Soa { mname, rname, .. } => name_size(mname) + name_size(rname) + 20,
        RecordData::Srv { target, .. } => 6 + name_size(target),
        RecordData::Named {
            before,
            first,
            second,
            behind,
        } => named_size(before, first, second, behind),
        RecordData::Txt(octets) | RecordData::Opt(octets) | RecordData::Other(octets) =>
            octets.len(),
    }
}

/// Appends data.
#[tactic(auto, unfolding(crate::specs::Data::data_spelling))]
pub(crate) fn put_data(octets: &mut Vec<u8>, rdata: &RecordData<'_>) -> Result<(), NoMemory>
    ensures kept { Begins octets.old.items octets.new.items }
    ensures items { OnOk result (octets.new.items ≡ octets.old.items ++ data_spelling (data_view rdata.now)) }
    ensures writable { OnOk result (IsWritableData (data_view rdata.now)) }
{
    match rdata {
        RecordData::A(address) => put_address(octets, *address),
        RecordData::Aaaa(address) => put_long_address(octets, *address),
        RecordData::Ns(name)
        | RecordData::Md(name)
        | RecordData::Mf(name)
        | RecordData::Cname(name)
        | RecordData::Mb(name)
        | RecordData::Mg(name)
        | RecordData::Mr(name)
        | RecordData::Ptr(name)
        | RecordData::Dname(name) => put_name(octets, name),
        RecordData::Minfo(first, second) => {
            put_name(octets, first)?;
            put_name(octets, second)
        }
        RecordData::Mx(preference, exchange) => {
            put_u16(octets, *preference)?;
            put_name(octets, exchange)
        }
        RecordData::Soa {
            mname,
            rname,
            serial,
            refresh,
            retry,
            expire,
            minimum,
        } => {
            put_name(octets, mname)?;
            put_name(octets, rname)?;
            put_u32(octets, serial.0)?;
            put_u32(octets, refresh.0)?;
            put_u32(octets, retry.0)?;
            put_u32(octets, expire.0)?;
            put_u32(octets, minimum.0)
        }
        RecordData::Srv {
            priority,
            weight,
            port,
            target,
        } => {
            put_u16(octets, *priority)?;
            put_u16(octets, *weight)?;
            put_u16(octets, *port)?;
            put_name(octets, target)
        }
        RecordData::Named {
            before,
            first,
            second,
            behind,
        } => {
            put_octets(octets, before)?;
            put_name(octets, first)?;
            put_second(octets, second)?;
            put_octets(octets, behind)
        }
        RecordData::Txt(content) | RecordData::Opt(content) | RecordData::Other(content) => {
            put_octets(octets, content)
        }
    }
}

impl<'a> RecordData<'a> {
    /// The octets of the data, with its names spelled out.
    pub fn to_octets(&self, alloc: Global) -> Result<Vec<u8>, NoMemory>
        ensures { IfOk result (λ v. v.items ≡ data_spelling (data_view self.now)) }
    {
        let mut octets = Vec::new(alloc);
        put_data(&mut octets, self)?;
        Ok(octets)
    }
}
