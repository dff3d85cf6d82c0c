//! Messages that are written.

ghost use Rattle.std.specs.Prelude.{◌≤◌, ◌<◌, length, IfSome};
ghost use Rattle.dns_base.specs.Draft.{counts_in};
ghost use Rattle.dns_base.specs.Sections.{HasNoneAfter};
ghost use Rattle.dns_values.specs.declared.numbers.Section.TheVariants.{Answer};

use crate::answer::line_of;
use crate::hex::Hex;
use dns_base::{Builder, Class, Header, Message, Name, RecordData, Rtype, Section, ToName, Ttl};
use std::alloc::Global;

/// What is printed of a message that is written.
pub fn text_of(alloc: Global, word: &str, rest: &str) -> Option<String> {
    match word {
        "write-query" => query(alloc, rest),
        "show-query" => shown(alloc, rest),
        "write-exchange" => exchange(alloc),
        "write-far" => far(alloc, rest),
        _ => None,
    }
}

fn name(alloc: Global, text: &str) -> Option<Name> {
    Name::from_text(alloc, text).ok()
}

/// The header of a query with an id, whose recursion is desired.
fn header(id: u16) -> Header {
    let mut header = Header::from_octets([0, 0, 0, 0]);
    header.set_id(id);
    header.set_rd(true);
    header
}

/// A builder with a question for an address, which may grow to 65535 octets.
fn asked(alloc: Global, text: &str) -> Option<Builder>
    ensures { IfSome result (λ b. HasNoneAfter Answer (counts_in b)) }
{
    let mut builder = Builder::new(alloc, Some(65535)).ok()?;
    let name = name(alloc, text)?;
    builder.push_question(&name, Rtype::A, Class::IN).ok()?;
    Some(builder)
}

/// A query for an address, by `ID NAME`.
fn query(alloc: Global, rest: &str) -> Option<String> {
    let (id, text) = rest.split_once(' ')?;
    let mut builder = asked(alloc, text)?;
    builder.set_header(header(id.parse::<u16>().ok()?));
    let message = builder.finish().ok()?;
    line_of(alloc, &Hex(message.as_slice()))
}

/// What a query and its question show to whoever looks for a mistake, by `NAME TYPE`.
fn shown(alloc: Global, rest: &str) -> Option<String> {
    let (text, rtype) = rest.split_once(' ')?;
    let rtype = Rtype::from_text(rtype).ok()?;
    let message = Message::query(alloc, &name(alloc, text)?, rtype).ok()?;
    let question = message.sole_question().ok()?;
    format!(in alloc; "{message:?}\n{question:?}\n").ok()
}

/// A message with the mail exchange of example.com in its answer.
fn with_exchange(alloc: Global) -> Option<Message> {
    let mut builder = asked(alloc, "example.com")?;
    let owner = name(alloc, "example.com")?;
    let Ok(exchange) = Name::from_text(alloc, "mail.EXAMPLE.com") else {
        return None;
    };
    let rdata = RecordData::Mx(10, exchange.parsed());
    builder
        .push_record(
            Section::Answer,
            &owner,
            Class::IN,
            Ttl(0),
            Rtype::MX,
            &rdata,
        )
        .ok()?;
    builder.finish().ok()
}

/// Such a message.
fn exchange(alloc: Global) -> Option<String> {
    let message = with_exchange(alloc)?;
    line_of(alloc, &Hex(message.as_slice()))
}

/// Appends a record of a type without names, with these octets.
fn push_octets(builder: &mut Builder, owner: &Name, octets: &[u8]) -> Option<()>
    requires order { HasNoneAfter Answer (counts_in builder.old) }
    requires short { length octets.now < 65536 }
    ensures { HasNoneAfter Answer (counts_in builder.new) }
{
    let rdata = RecordData::Other(octets);
    builder
        .push_record(
            Section::Answer,
            owner,
            Class::IN,
            Ttl(0),
            Rtype(65280),
            &rdata,
        )
        .ok()
}

/// A message with two records of far.example.org without data, the first of them at a place.
fn far_names(alloc: Global, place: usize) -> Option<Message>
    requires far { 40 ≤ place }
    requires near { place < 20000 }
{
    let mut builder = asked(alloc, "example.com")?;
    let zeros = vec![in alloc; 0; place - 40].ok()?;
    let far = name(alloc, "far.example.org")?;
    push_octets(&mut builder, &Name::root(alloc), &zeros)?;
    push_octets(&mut builder, &far, &[])?;
    push_octets(&mut builder, &far, &[])?;
    builder.finish().ok()
}

/// Such a message's count of octets, and those from the place on.
fn far(alloc: Global, place: &str) -> Option<String> {
    let place = place.parse::<usize>().ok()?;
    if place < 40 || 20000 <= place {
        return None;
    }
    let message = far_names(alloc, place)?;
    let count = message.as_slice().len();
    let back = Hex(message.as_slice().get(place..)?);
    format!(in alloc; "{count} {back}\n").ok()
}
