//! What is asked.

ghost use Rattle.std.specs.Prelude.{◌≡◌, ◌≤◌, IfOk};
ghost use Rattle.dns_lookup_pages.specs.Queries.{asked_header, bit, query_octets};

use dns_base::{Builder, Header, Message, NoMemory};
use dns_lookup_words::{Ask, Flags};
use std::alloc::Global;

/// A bit, where it is set.
fn bit(is_set: bool, value: u8) -> u8
    ensures value { result ≡ bit is_set value }
    ensures most { result ≤ value }
{
    if is_set { value } else { 0 }
}

/// The header of a request: its flags alone, with an id of 0, which a transport replaces.
fn asked_header(flags: Flags) -> Header
    ensures { result ≡ asked_header flags }
{
    let high = bit(flags.authoritative, 4) + bit(flags.truncated, 2) + bit(flags.recursion, 1);
    let available = bit(flags.available, 128) + bit(flags.reserved, 64);
    let low = available + bit(flags.authentic, 32) + bit(flags.unchecked, 16);
    Header::from_octets([0, 0, high, low])
}

/// The message of a request: its header, and one question (RFC 1035 4.1). It has no OPT record yet, which a transport adds.
#[tactic(auto, using(crate::proofs::Queries::asked_is))]
pub fn query_of(alloc: Global, ask: &Ask) -> Result<Message, NoMemory>
    ensures { IfOk result (λ m. m ≡ query_octets ask.now) }
{
    let mut builder = Builder::new(alloc, None)?;
    builder.set_header(asked_header(ask.manner.flags));
    // It has no limit, and no question yet.
    match builder.push_question(&ask.name, ask.rtype, ask.manner.class) {
        Ok(()) => builder.finish(),
        Err(_) => Err(NoMemory),
    }
}
