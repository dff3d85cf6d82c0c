//! What happened, in words.

ghost use Rattle.std.specs.Prelude.{◌≡◌, ◌++◌, OnOk};
ghost use Rattle.trace_audit_run.specs.missing_line.Words as plain;

use crate::missing_line::texts::{push_number, push_words};
use client_request::{Event, What};
use dns_base::NoMemory;
use std::alloc::Global;

/// What happened; where it happened at a place, the place's number belongs behind it.
fn words_of(what: &What) -> &'static str
    ensures { result.now ≡ plain.words_of what.now }
{
    match what {
        What::Ask { .. } => " a request was asked",
        What::Opened { .. } => " a socket was opened at place ",
        What::OpenFailed { .. } => " no socket could be opened at place ",
        What::SendFailed { .. } => " a datagram could not be sent at place ",
        What::ShortSend { .. } => " a datagram was sent in part at place ",
        What::Datagram { .. } => " a datagram came at place ",
        What::RecvFailed { .. } => " no datagram could be received at place ",
        What::Wrote { .. } => " octets were taken at place ",
        What::WriteFailed { .. } => " nothing could be written at place ",
        What::Bytes { .. } => " octets came at place ",
        What::ReadFailed { .. } => " nothing could be read at place ",
        What::Ended { .. } => " the stream ended at place ",
        What::Tick => " time went by",
    }
}

/// The place at which it happened.
pub(crate) fn place_of(what: &What) -> Option<u64>
    ensures { result ≡ plain.place_of what.now }
{
    match what {
        What::Opened { place }
        | What::OpenFailed { place, .. }
        | What::SendFailed { place, .. }
        | What::ShortSend { place }
        | What::Datagram { place, .. }
        | What::RecvFailed { place, .. }
        | What::Wrote { place, .. }
        | What::WriteFailed { place, .. }
        | What::Bytes { place, .. }
        | What::ReadFailed { place, .. }
        | What::Ended { place } => Some(*place),
        What::Ask { .. } | What::Tick => None,
    }
}

/// Adds what happened, and where.
fn push_what(alloc: Global, text: &mut Vec<u8>, what: &What) -> Result<(), NoMemory>
    ensures { OnOk result (text.new.items ≡ text.old.items ++ plain.what_words what.now) }
{
    match place_of(what) {
        None => push_words(text, words_of(what)),
        Some(place) => push_number(alloc, text, words_of(what), place),
    }
}

/// Adds when it happened, what, and where.
pub(crate) fn push_event(alloc: Global, text: &mut Vec<u8>, event: &Event) -> Result<(), NoMemory>
    ensures { OnOk result (text.new.items ≡ text.old.items ++ plain.event_words event.now) }
{
    push_number(alloc, text, "at ", event.moment.0)?;
    push_what(alloc, text, &event.what)
}
