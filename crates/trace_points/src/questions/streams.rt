//! Whether what is written to a stream is right where it is put.

ghost use Rattle.std.specs.Prelude.{◌≡◌, IfOk};
ghost use Rattle.trace_points.specs.questions.Streams as plain;

use crate::questions::configured::TraceConf;
use crate::questions::outs::{alive_server, is_carried};
use client_request::Via;
use dns_base::{NoMemory, Octets};
use trace_tables::Books;
use trace_tables::frames::{Ledger, is_free};

/// Whether what is kept of a write tells that it may be.
fn is_write_right(
    conf: &TraceConf,
    past: &Books,
    here: &Ledger,
    request: u64,
    place: u64,
    id: u16,
    octets: &Octets,
) -> Result<bool, NoMemory>
    ensures { IfOk result (λ b. b ≡ plain.write_seen conf.now past.now here.now request place id octets.now) }
{
    let Some(server) = alive_server(here.books.places.get(place), Via::Stream) else {
        return Ok(false);
    };
    if past.requests.is_replied(request)
        || !here.books.requests.is_started(request, server, Via::Stream)
        || !is_free(&here.waiting, place, id)
    {
        return Ok(false);
    }
    is_carried(conf, &here.books, Via::Stream, octets, request, id)
}

/// Whether a request may be written at a place: `past` is what was known before the row, and `here` what is known where it is
/// written.
pub fn may_write(
    conf: &TraceConf,
    past: &Books,
    here: &Ledger,
    request: u64,
    place: u64,
    id: u16,
    octets: &Octets,
) -> Result<bool, NoMemory>
    ensures { IfOk result (plain.TellsWrite conf.now past.now here.now request place id octets.now) }
{
    is_write_right(conf, past, here, request, place, id, octets)
}
