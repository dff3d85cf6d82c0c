//! The request for a zone or its changes.

ghost use Rattle.std.specs.Prelude.{◌≡◌, ◌≢◌, IfOk, IfErr, OnOk, true, false, find};
ghost use Rattle.std.specs.Option.{option_copied};
ghost use Rattle.dns_base.specs.Draft.{counts_in, pushed_record};
ghost use Rattle.dns_base.specs.Message.{is_xfr};
ghost use Rattle.dns_base.specs.Sections.{HasNoneAfter};
ghost use Rattle.dns_values.specs.declared.numbers.Section.TheVariants.{Authority};
ghost use Rattle.client_request.specs.declared.error.Error.TheVariants as errors;
ghost use Rattle.zone_transfer.specs.Requesting as plain;

use client_request::{Error, RequestMessageMulti};
use dns_base::{Builder, Class, Header, Message, Name, NoMemory, RecordData, Rtype, Section};
use std::alloc::Global;
use zone_records::{XfrKind, Zone, ZoneRecord};

/// The longest data of a record, in octets (RFC 1035 3.2.1).
const LONGEST_DATA: usize = 65535;

/// Whether it is an SOA for which a message has room.
fn is_sent(item: &ZoneRecord) -> bool
    ensures { result ≡ plain.is_sent item.now }
{
    item.is_soa() && item.rdata.as_slice().len() <= LONGEST_DATA
}

/// The SOA among records, for which a message has room.
fn soa_of(records: &[ZoneRecord]) -> Option<&ZoneRecord>
    ensures { option_copied result ≡ find plain.is_sent records.now }
{
    records.iter().find(|item| is_sent(*item))
}

/// Adds the zone's SOA to the authority section, which says from which serial on changes are asked for (RFC 1995 3).
fn push_soa(builder: &mut Builder, apex: &Name, soa: &ZoneRecord) -> Result<(), NoMemory>
    requires order { HasNoneAfter Authority (counts_in builder.old) }
    requires sent { plain.is_sent soa.now ≡ true }
    ensures { OnOk result (builder.new ≡ pushed_record Authority (plain.soa_written apex.now soa.now) builder.old) }
{
    let content = RecordData::Other(soa.rdata.as_slice());
    let (class, ttl) = (soa.class, soa.ttl);
    match builder.push_record(Section::Authority, apex, class, ttl, Rtype::SOA, &content) {
        Ok(()) => Ok(()),
        Err(_) => Err(NoMemory),
    }
}

fn rtype_of(kind: XfrKind) -> Rtype
    ensures { result.0 ≡ plain.rtype_of kind }
{
    match kind {
        XfrKind::Axfr => Rtype::AXFR,
        XfrKind::Ixfr => Rtype::IXFR,
    }
}

/// The message that asks so far: the question alone. Its id is 0, which a stream replaces.
fn asked_draft(alloc: Global, apex: &Name, kind: XfrKind) -> Result<Builder, NoMemory>
    ensures made { IfOk result (λ b. b ≡ plain.asked_draft apex.now kind) }
    ensures order { IfOk result (λ b. HasNoneAfter Authority (counts_in b)) }
{
    let mut builder = Builder::new(alloc, None)?;
    builder.set_header(Header::from_octets([0, 0, 0, 0]));
    match builder.push_question(apex, rtype_of(kind), Class::IN) {
        Ok(()) => Ok(builder),
        Err(_) => Err(NoMemory),
    }
}

/// The message that asks for a zone, or for what changed since its serial.
fn message_of(alloc: Global, zone: &Zone, kind: XfrKind) -> Result<Message, NoMemory>
    ensures { IfOk result (λ m. m ≡ plain.message_of zone.now kind) }
{
    let mut builder = asked_draft(alloc, zone.apex(), kind)?;
    match kind {
        XfrKind::Axfr => {}
        XfrKind::Ixfr => match soa_of(zone.records()) {
            Some(soa) => push_soa(&mut builder, zone.apex(), soa)?,
            None => {}
        },
    }
    builder.finish()
}

/// The request for a zone, or for what changed since its serial.
pub(crate) fn request_of(
    alloc: Global,
    zone: &Zone,
    kind: XfrKind,
) -> Result<RequestMessageMulti, Error>
    ensures made { IfOk result (λ r. r ≡ plain.request_of zone.now kind) }
    ensures refused { IfErr result (λ e. e ≢ errors.NoMemory → (e ≡ errors.FormError) × (is_xfr (plain.message_of zone.now kind) ≡ false)) }
{
    let message = message_of(alloc, zone, kind)?;
    RequestMessageMulti::new(alloc, message)
}
