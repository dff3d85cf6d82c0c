//! The lines of events.

ghost use Rattle.std.specs.Prelude.{◌≡◌, ◌++◌, OnOk};
ghost use Rattle.dns_script.specs.Lines.{event_line};
ghost use Rattle.dns_script.specs.TextLaws.{AreOctets, IsRequest, IsWhat};
ghost use Rattle.script_printing.specs.CanBeTold.{IsEvent};

use client_request::{Compose, Event, Outs, RequestMessage, Row, What};
use dns_base::NoMemory;
use dns_script::push_row;
use std::alloc::Global;
use std::mem;

/// Adds the line of a row's event.
///
/// `NoMemory` where memory runs out. What was added until then stays, and the row too.
pub fn push_event(alloc: Global, text: &mut Vec<u8>, row: &mut Row) -> Result<(), NoMemory>
    ensures line { OnOk result (text.new.items ≡ text.old.items ++ event_line row.old.event) }
    ensures row { row.new ≡ row.old }
{
    let outs = mem::replace(&mut row.outs, Outs::new(alloc));
    let pushed = push_row(text, row);
    row.outs = outs;
    pushed
}

/// Each octet is one.
#[tactic(auto, using(dns_script::proofs::InRange::octets_by_index))]
fn octets_are_in_range(octets: &[u8])
    ensures { AreOctets octets.now }
{
    let _octets = octets;
}

fn request_is_in_range(request: &RequestMessage)
    ensures { IsRequest request.now }
{
    request.is_of_octets();
    request.may_be_asked();
    let base = request.base();
    octets_are_in_range(base.as_slice());
    let header = request.header().to_octets();
    octets_are_in_range(&header);
    match request.recorded_opt() {
        None => {}
        Some(opt) => octets_are_in_range(opt.data()),
    }
}

fn what_is_in_range(what: &What)
    ensures { IsWhat what.now }
{
    match what {
        What::Ask { request } => request_is_in_range(request),
        What::Datagram { place, octets } | What::Bytes { place, octets } => {
            let _number = *place;
            octets_are_in_range(octets.as_slice());
        }
        What::Wrote { place, count } => {
            let _numbers = (*place, *count);
        }
        What::Opened { place }
        | What::OpenFailed { place, fault: _ }
        | What::SendFailed { place, fault: _ }
        | What::ShortSend { place }
        | What::RecvFailed { place, fault: _ }
        | What::WriteFailed { place, fault: _ }
        | What::ReadFailed { place, fault: _ }
        | What::Ended { place } => {
            let _number = *place;
        }
        What::Tick => {}
    }
}

/// The parts of an event have the ranges of their types.
pub fn event_is_in_range(event: &Event)
    ensures { IsEvent event.now }
{
    let _moment = event.moment.0;
    what_is_in_range(&event.what);
}
