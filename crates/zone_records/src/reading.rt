//! A record of a message, as one of a transfer.

ghost use Rattle.std.specs.Prelude.{◌≡◌, None, Some, IfOk, if◌then◌else◌};
ghost use Rattle.dns_base.specs.RecordData.{data_view};
ghost use Rattle.zone_records.specs.Records.{entry_by, entry_of, is_meta, is_within, may_come, record_of, serial_of, soa_serial};

use crate::inside::is_within;
use crate::lowering::{lowered_name, lowered_octets};
use crate::record::ZoneRecord;
use dns_base::{Class, Name, NoMemory, Record, RecordData, Rtype, ToName, is_same_name};
use std::alloc::Global;
use zone_reading::Entry;

/// The serial in the data of an SOA.
fn soa_serial(content: &RecordData<'_>) -> Option<u32>
    ensures { result ≡ soa_serial (data_view content.now) }
{
    match content {
        RecordData::Soa { serial, .. } => Some(serial.0),
        _ => None,
    }
}

/// The serial of a record of the type SOA.
fn serial_of(source: &Record<'_>, content: &RecordData<'_>) -> Option<u32>
    ensures { result ≡ serial_of source.now (data_view content.now) }
{
    if source.rtype() != Rtype::SOA {
        return None;
    }
    soa_serial(content)
}

/// A record with this data, as a zone keeps it.
fn record_of(
    alloc: Global,
    source: &Record<'_>,
    content: &RecordData<'_>,
) -> Result<ZoneRecord, NoMemory>
    ensures { IfOk result (λ r. r ≡ record_of source.now (data_view content.now)) }
{
    let owner = lowered_name(alloc, &source.owner())?;
    let rdata = lowered_octets(alloc, source, content)?;
    Ok(ZoneRecord {
        owner,
        rtype: source.rtype(),
        class: source.class(),
        ttl: source.ttl(),
        rdata,
    })
}

/// Whether a type is one that no zone holds: 0, OPT, and those of questions and meta types (RFC 6895 3.1).
fn is_meta(rtype: Rtype) -> bool
    ensures { result ≡ is_meta rtype.0 }
{
    matches!(rtype.0, 0 | 41 | 128..=255)
}

/// Whether a zone of the class IN may hold a record.
fn may_come(source: &Record<'_>) -> bool
    ensures { result ≡ may_come source.now }
{
    source.class() == Class::IN && !is_meta(source.rtype())
}

/// A record that is no SOA, if it is in the zone.
fn other_of(
    alloc: Global,
    apex: &Name,
    source: &Record<'_>,
    content: &RecordData<'_>,
) -> Result<Option<ZoneRecord>, NoMemory>
    ensures { IfOk result (λ r. r ≡ (if is_within apex.now source.now.entry.owner then Some (record_of source.now (data_view content.now)) else None)) }
{
    if !is_within(apex, &source.owner()) {
        return Ok(None);
    }
    let content = record_of(alloc, source, content)?;
    Ok(Some(content))
}

/// A record with this data, of a transfer of the zone with this apex.
fn entry_with(
    alloc: Global,
    apex: &Name,
    source: &Record<'_>,
    content: &RecordData<'_>,
) -> Result<Option<Entry<ZoneRecord>>, NoMemory>
    ensures { IfOk result (λ e. e ≡ entry_by apex.now source.now (data_view content.now) (serial_of source.now (data_view content.now))) }
{
    match serial_of(source, content) {
        None => {
            let other = other_of(alloc, apex, source, content)?;
            Ok(Some(Entry::Other(other)))
        }
        Some(serial) => {
            if !is_same_name(&source.owner(), &apex.parsed()) {
                return Ok(None);
            }
            let content = record_of(alloc, source, content)?;
            Ok(Some(Entry::Soa { serial, content }))
        }
    }
}

/// A record of a transfer of the zone with this apex. None exactly where its data can't be read, where its class is not IN, where
/// its type is one that no zone holds, or where it is an SOA of another name. One whose owner is neither the apex nor below it
/// is left out.
pub fn entry_of(
    alloc: Global,
    apex: &Name,
    source: &Record<'_>,
) -> Result<Option<Entry<ZoneRecord>>, NoMemory>
    ensures { IfOk result (λ e. e ≡ entry_of apex.now source.now) }
{
    let Ok(content) = source.data() else {
        return Ok(None);
    };
    if !may_come(source) {
        return Ok(None);
    }
    entry_with(alloc, apex, source, &content)
}
