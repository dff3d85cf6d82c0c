//! The text of a zone.

ghost use Rattle.std.specs.Prelude.{◌≡◌, ◌++◌, ◌∷◌, [], IfErr, IfOk, OnOk};
ghost use Rattle.std.specs.String.{string_bytes};
ghost use Rattle.dns_values.specs.Source.{Rose};
ghost use Rattle.dns_values.specs.Sink.{IsFlushed};
ghost use Rattle.dns_values.specs.declared.sink.SinkFault.{SinkFault};
ghost use Rattle.zone_text.specs.Lines.{IsText, PutsLine, Writes, WritesFront, front_text, type_word};

use crate::digits::push_digits;
use crate::shown::{is_rare, shown_data};
use dns_base::{NoMemory, ParsedName, Rtype, Sink, SinkFault, write_all};
use dns_presentation::Absolute;
use std::alloc::Global;
use zone_records::ZoneRecord;

/// So many records are written at once.
const WRITTEN: usize = 1024;

/// The name of a type, or its number.
fn type_word(alloc: Global, rtype: Rtype) -> Result<String, NoMemory>
    ensures { IfOk result (λ s. string_bytes s ≡ type_word rtype.0) }
{
    if is_rare(rtype) {
        return Ok(format!(in alloc; "TYPE{}", rtype.0)?);
    }
    Ok(format!(in alloc; "{rtype}")?)
}

/// What stands before the data. An owner that is no name is left out; no message has one.
fn front_text(alloc: Global, item: &ZoneRecord) -> Result<String, NoMemory>
    ensures { IfOk result (λ s. string_bytes s ≡ front_text item.now) }
{
    let (ttl, class) = (item.ttl.0, item.class);
    let rtype = type_word(alloc, item.rtype)?;
    match ParsedName::parse(item.owner.as_slice(), 0) {
        Some((owner, _)) => {
            let owner = Absolute(&owner);
            Ok(format!(in alloc; "{owner} {ttl} {class} {rtype} ")?)
        }
        None => Ok(format!(in alloc; " {ttl} {class} {rtype} ")?),
    }
}

/// Adds the line of a record.
#[tactic(auto, using(crate::proofs::Written::line_put))]
fn push_line(alloc: Global, text: &mut Vec<u8>, item: &ZoneRecord) -> Result<(), NoMemory>
    ensures { OnOk result (PutsLine item.now text.old.items text.new.items) }
{
    let front = front_text(alloc, item)?;
    let shown = shown_data(alloc, item)?;
    text.extend_from_slice(front.as_bytes())?;
    text.extend_from_slice(shown.as_bytes())?;
    text.extend_from_slice(b" ; ")?;
    push_digits(text, item.rdata.as_slice())?;
    text.push(b'\n')?;
    Ok(())
}

/// The lines of records.
#[tactic(auto, using(crate::proofs::Written::none_written))]
fn text_of(alloc: Global, records: &[ZoneRecord]) -> Result<Vec<u8>, NoMemory>
    ensures { IfOk result (λ v. IsText records.now v.items) }
{
    let mut text = Vec::new(alloc);
    for item in records {
        push_line(alloc, &mut text, item)?;
    }
    Ok(text)
}

/// Writes the lines of records, so many at once, and hands them on.
///
/// `Failed` only where the sink's count of faults rose. After an error the first octets are written.
#[tactic(auto, using(crate::proofs::Written::none_yet, crate::proofs::Written::piece_more, crate::proofs::Written::all_written, crate::proofs::Written::front_so_far, crate::proofs::Written::front_in_piece, crate::proofs::Written::rose_later))]
pub fn write_text<K: Sink>(
    alloc: Global,
    sink: &mut K,
    records: &[ZoneRecord],
) -> Result<(), SinkFault>
    ensures whole { OnOk result (Writes records.now (K.held sink.old) (K.held sink.new)) }
    ensures begun { WritesFront records.now (K.held sink.old) (K.held sink.new) }
    ensures flushed { OnOk result (IsFlushed (K.held sink.new) (K.flushed sink.new)) }
    ensures failed { IfErr result (λ e. e ≡ SinkFault.Failed → Rose (K.faults sink.old) (K.faults sink.new)) }
{
    for piece in records.chunks(WRITTEN) {
        match text_of(alloc, piece) {
            Ok(text) => write_all(sink, text.as_slice())?,
            Err(NoMemory) => return Err(SinkFault::NoMemory),
        }
    }
    match sink.flush() {
        Ok(()) => Ok(()),
        Err(_) => Err(SinkFault::Failed),
    }
}
