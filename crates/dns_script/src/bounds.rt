//! The parts of a trace are in the ranges of their types.

ghost use Rattle.std.specs.Prelude.{◌<◌, ◌≤◌, ◌^◌, length, slice_index};
ghost use Rattle.std.specs.List.{AllByRecursion};
ghost use Rattle.dns_script.specs.TextLaws.{AreOctets, AreRows, IsOut, IsRequest, IsRow, IsWhat};

use client_request::{Compose, Out, RequestMessage, Row, Trace, What};

/// Each octet is one.
#[tactic(auto, using(crate::proofs::InRange::octets_by_index))]
fn octets_are_in_range(octets: &[u8])
    ensures { AreOctets octets.now }
{
    let _octets = octets;
}

fn request_is_in_range(request: &RequestMessage)
    ensures { IsRequest request.now }
{
    request.is_of_octets();
    request.may_be_asked();
    let base = request.base();
    octets_are_in_range(base.as_slice());
    let header = request.header().to_octets();
    octets_are_in_range(&header);
    match request.recorded_opt() {
        None => {}
        Some(opt) => octets_are_in_range(opt.data()),
    }
}

fn out_is_in_range(out: &Out)
    ensures { IsOut out.now }
{
    match out {
        Out::Start {
            request,
            server,
            via: _,
        } => {
            let _numbers = (*request, *server);
        }
        Out::OpenDgram { place, server } => {
            let _numbers = (*place, *server);
        }
        Out::OpenStream { place, server } => {
            let _numbers = (*place, *server);
        }
        Out::Send {
            place,
            request,
            id,
            octets,
        } => {
            let _numbers = (*place, *request, *id);
            octets_are_in_range(octets.as_slice());
        }
        Out::Write {
            place,
            request,
            id,
            octets,
        } => {
            let _numbers = (*place, *request, *id);
            octets_are_in_range(octets.as_slice());
        }
        Out::Resume { place, octets } => {
            let _number = *place;
            octets_are_in_range(octets.as_slice());
        }
        Out::Close { place } => {
            let _number = *place;
        }
        Out::Stale { request } => {
            let _number = *request;
        }
        Out::Reply { request, result } => {
            let _number = *request;
            match result {
                Ok(message) => octets_are_in_range(message.as_slice()),
                Err(_) => {}
            }
        }
    }
}

fn what_is_in_range(what: &What)
    ensures { IsWhat what.now }
{
    match what {
        What::Ask { request } => request_is_in_range(request),
        What::Opened { place } => {
            let _number = *place;
        }
        What::OpenFailed { place, fault: _ } => {
            let _number = *place;
        }
        What::SendFailed { place, fault: _ } => {
            let _number = *place;
        }
        What::ShortSend { place } => {
            let _number = *place;
        }
        What::Datagram { place, octets } => {
            let _number = *place;
            octets_are_in_range(octets.as_slice());
        }
        What::RecvFailed { place, fault: _ } => {
            let _number = *place;
        }
        What::Wrote { place, count } => {
            let _numbers = (*place, *count);
        }
        What::WriteFailed { place, fault: _ } => {
            let _number = *place;
        }
        What::Bytes { place, octets } => {
            let _number = *place;
            octets_are_in_range(octets.as_slice());
        }
        What::ReadFailed { place, fault: _ } => {
            let _number = *place;
        }
        What::Ended { place } => {
            let _number = *place;
        }
        What::Tick => {}
    }
}

#[tactic(auto, using(crate::proofs::InRange::all_taken, crate::proofs::InRange::one_more))]
fn outs_are_in_range(outs: &[Out])
    ensures { AllByRecursion IsOut outs.now }
{
    for out in outs {
        out_is_in_range(out);
    }
}

fn row_is_in_range(row: &Row)
    ensures { IsRow row.now }
{
    let _moment = row.event.moment.0;
    what_is_in_range(&row.event.what);
    outs_are_in_range(row.outs.as_slice());
}

/// The rows of a trace are such as are read.
#[tactic(auto, using(crate::proofs::InRange::all_taken, crate::proofs::InRange::one_more))]
pub(crate) fn trace_is_in_range(t: &Trace)
    ensures { AreRows t.now.rows }
{
    for row in t.rows.as_slice() {
        row_is_in_range(row);
    }
}
