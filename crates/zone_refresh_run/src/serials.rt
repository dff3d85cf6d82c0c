//! The serial that a primary says.

ghost use Rattle.std.specs.Prelude.{◌≡◌, Some, option_map};
ghost use Rattle.dns_base.specs.Message.{answer_items};
ghost use Rattle.dns_base.specs.RecordData.{data_view};
ghost use Rattle.zone_refresh_run.specs.Serials as spec;

use dns_base::{
    Class, Message, Name, ParsedName, Rcode, Record, RecordData, RecordSection, Serial, ToName,
    is_same_name,
};
use resolv_lookup::QueryFault;

/// Why a primary gave no serial of a zone.
#[derive(Clone, Copy, Debug, PartialEq, Eq)]
pub enum NoSerial {
    /// It was not asked: no random words could be had, or memory ran out.
    NotAsked,
    /// It was asked, and no answer came.
    Failed(QueryFault),
    /// Its answer has this response code.
    Refused(Rcode),
    /// Its answer isn't authoritative.
    NotAuthoritative,
    /// Its answer has no SOA of the zone.
    NoSoa,
}

/// The serial in data, where it is that of an SOA.
fn serial_of(said: &RecordData<'_>) -> Option<Serial>
    ensures { option_map (λ s. s.0) result ≡ spec.serial_of (Some (data_view said.now)) }
{
    match said {
        RecordData::Soa { serial, .. } => Some(*serial),
        _ => None,
    }
}

/// The serial in a record, where it is the SOA of a zone.
fn serial_in(zone: &ParsedName<'_>, item: &Record<'_>) -> Option<Serial>
    ensures { option_map (λ s. s.0) result ≡ spec.serial_in zone.now item.now }
{
    if item.class() != Class::IN || !is_same_name(&item.owner(), zone) {
        return None;
    }
    match item.data() {
        Ok(said) => serial_of(&said),
        Err(_) => None,
    }
}

/// The serial in the first SOA of a zone, up to a record that can't be read.
fn first_serial(zone: &ParsedName<'_>, mut records: RecordSection<'_>) -> Option<Serial>
    ensures { option_map (λ s. s.0) result ≡ spec.first_serial zone.now records.entry }
{
    'records: while let Some(item) = records.next() {
        let Ok(record) = item else {
            return None;
        };
        if let Some(serial) = serial_in(zone, &record) {
            return Some(serial);
        }
    }
    None
}

/// The serial in the answer section of a message.
fn serial_among(zone: &Name, answer: &Message) -> Option<Serial>
    ensures { option_map (λ s. s.0) result ≡ spec.serial_among zone.now (answer_items answer.now) }
{
    match answer.answer() {
        Ok(records) => first_serial(&zone.parsed(), records),
        Err(_) => None,
    }
}

/// The serial that is said by an answer with this code, where its records have that one, if any.
fn said_by(code: Rcode, is_authoritative: bool, serial: Option<Serial>) -> Result<Serial, NoSerial>
    ensures { result ≡ spec.said_by code.0 is_authoritative (option_map (λ s. s.0) serial) }
{
    if code != Rcode::NOERROR {
        return Err(NoSerial::Refused(code));
    }
    if !is_authoritative {
        return Err(NoSerial::NotAuthoritative);
    }
    serial.ok_or(NoSerial::NoSoa)
}

/// The serial that an answer says a zone has. An error where the answer has a response code other than 0, isn't authoritative, or has no
/// SOA of the zone in its answer section.
pub fn serial_said(zone: &Name, answer: &Message) -> Result<Serial, NoSerial>
    ensures { result ≡ spec.serial_said zone.now answer.now }
{
    let header = answer.header();
    let serial = serial_among(zone, answer);
    said_by(header.rcode(), header.aa(), serial)
}
