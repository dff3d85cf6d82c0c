//! The data of a record in presentation form.

ghost use Rattle.std.specs.Prelude.{◌≡◌, ◌<◌, false, length, IfOk, IfSome};
ghost use Rattle.std.specs.String.{string_bytes};
ghost use Rattle.dns_base.specs.Message.{answer_items};
ghost use Rattle.dns_presentation.specs.Generic.{generic_text};
ghost use Rattle.dns_presentation.specs.Records.{known_text};
ghost use Rattle.zone_text.specs.Lines.{data_text, first_of, has_feed, in_line, is_rare, message_of, read_text};

use dns_base::{Message, NoMemory, Octets, Record, Rtype};
use dns_presentation::{Generic, ShownData};
use std::alloc::Global;
use zone_records::ZoneRecord;

/// The header of a message without a question, which has one answer.
const HEADER: [u8; 12] = [0, 0, 0, 0, 0, 0, 0, 1, 0, 0, 0, 0];

/// The message that has a record alone.
#[tactic(auto, using(crate::proofs::Lacking::long_enough), unfolding(crate::specs::Lines::message_of))]
fn message_of(alloc: Global, item: &ZoneRecord) -> Result<Message, NoMemory>
    requires { length item.now.rdata < 65536 }
    ensures { IfOk result (λ m. m ≡ message_of item.now) }
{
    let (owner, rdata) = (item.owner.as_slice(), item.rdata.as_slice());
    let mut octets = Vec::with_capacity(alloc, owner.len().saturating_add(rdata.len() + 22))?;
    octets.extend_from_slice(&HEADER)?;
    octets.extend_from_slice(owner)?;
    octets.extend_from_slice(&item.rtype.0.to_be_bytes())?;
    octets.extend_from_slice(&item.class.0.to_be_bytes())?;
    octets.extend_from_slice(&item.ttl.0.to_be_bytes())?;
    octets.extend_from_slice(&(rdata.len() as u16).to_be_bytes())?;
    octets.extend_from_slice(rdata)?;
    match Message::from_octets(Octets::from_vec(octets)?) {
        Ok(message) => Ok(message),
        Err(_) => unreachable!(),
    }
}

/// The data as octets that aren't looked into (RFC 3597 5).
fn generic_data(alloc: Global, item: &ZoneRecord) -> Result<String, NoMemory>
    ensures { IfOk result (λ s. string_bytes s ≡ generic_text item.now.rdata) }
{
    Ok(format!(in alloc; "{}", Generic(item.rdata.as_slice()))?)
}

/// Whether a type is one that not each name server reads.
pub(crate) fn is_rare(rtype: Rtype) -> bool
    ensures { result ≡ is_rare rtype.0 }
{
    matches!(rtype.0, 3 | 4 | 7..=11 | 19..=22 | 24 | 26 | 27 | 30)
}

/// The first record of the answer section.
#[tactic(auto, unfolding(crate::specs::Lines::first_of))]
fn first_of(message: &Message) -> Option<Record<'_>>
    ensures { result ≡ first_of (answer_items message.now) }
{
    let Ok(mut records) = message.answer() else {
        return None;
    };
    match records.next() {
        Some(Ok(known)) => Some(known),
        _ => None,
    }
}

/// The data of a record of a message, as it prints there.
fn known_text(alloc: Global, known: &Record<'_>) -> Result<String, NoMemory>
    ensures { IfOk result (λ s. IfSome (known_text known.now) (λ text. string_bytes s ≡ text)) }
{
    Ok(format!(in alloc; "{}", ShownData(known))?)
}

/// The data as a message prints it.
#[tactic(auto, using(crate::proofs::Printing::record_is_said, crate::proofs::Printing::octets_are_said))]
fn message_text(alloc: Global, item: &ZoneRecord) -> Result<String, NoMemory>
    requires { length item.now.rdata < 65536 }
    ensures { IfOk result (λ s. IfSome (read_text item.now.rdata (first_of (answer_items (message_of item.now)))) (λ text. string_bytes s ≡ text)) }
{
    let message = message_of(alloc, item)?;
    match first_of(&message) {
        Some(known) => known_text(alloc, &known),
        None => generic_data(alloc, item),
    }
}

/// The data in presentation form.
#[tactic(auto, using(crate::proofs::Printing::rare_is_said, crate::proofs::Printing::long_is_said, crate::proofs::Printing::message_is_said))]
fn data_text(alloc: Global, item: &ZoneRecord) -> Result<String, NoMemory>
    ensures { IfOk result (λ s. IfSome (data_text item.now) (λ text. string_bytes s ≡ text)) }
{
    if is_rare(item.rtype) {
        return generic_data(alloc, item);
    }
    if item.rdata.as_slice().len() > 65535 {
        return generic_data(alloc, item);
    }
    message_text(alloc, item)
}

fn has_feed(text: &[u8]) -> bool
    ensures { result ≡ has_feed text.now }
{
    text.contains(&b'\n')
}

/// The data as it stands on a line.
#[tactic(auto, using(crate::proofs::Lacking::generic_is_line, crate::proofs::Printing::feed_is_generic, crate::proofs::Printing::line_is_said))]
pub(crate) fn shown_data(alloc: Global, item: &ZoneRecord) -> Result<String, NoMemory>
    ensures shown { IfOk result (λ s. IfSome (data_text item.now) (λ text. string_bytes s ≡ in_line item.now.rdata text)) }
    ensures no_feed { IfOk result (λ s. has_feed (string_bytes s) ≡ false) }
{
    let text = data_text(alloc, item)?;
    if has_feed(text.as_bytes()) {
        return generic_data(alloc, item);
    }
    Ok(text)
}
