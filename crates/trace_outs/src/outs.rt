//! Whether an out is right where it is put.

ghost use Rattle.std.specs.Prelude.{◌≡◌, ◌&&◌, IfOk};
ghost use Rattle.client_request.specs.declared.event.Out.TheVariants as outs;
ghost use Rattle.trace_outs.specs.reasons.Point.{has_server_seen};
ghost use Rattle.trace_outs.specs.Outs as plain;

use crate::loads::{Held, Loads, may_open_stream};
use crate::reasons::{Point, may_close, may_start};
use client_request::{Out, Via};
use dns_base::{NoMemory, Octets};
use std::alloc::Global;
use trace_points::questions::{may_send, may_write};

/// Whether a place is unopened, and of a server.
fn may_open(point: &Point<'_>, place: u64, server: u32) -> bool
    ensures { result ≡ plain.may_open_seen place server point.now }
{
    (server as usize) < point.servers.len() && !point.here.books.places.contains_key(place)
}

fn both(a: bool, b: bool) -> bool
    ensures { result ≡ (a && b) }
{
    a && b
}

/// The same where there is a server.
fn with_server(point: &Point<'_>, may: bool) -> bool
    ensures { result ≡ (has_server_seen point.now && may) }
{
    point.has_server() && may
}

fn is_start_right(
    point: &Point<'_>,
    loads: &Loads,
    held: &Held,
    request: u64,
    server: u32,
    via: Via,
) -> bool
    ensures { plain.TellsOut point.now loads.now held.now (outs.Start request server via) result }
{
    may_start(point, request, server, via)
}

fn is_dgram_right(point: &Point<'_>, loads: &Loads, held: &Held, place: u64, server: u32) -> bool
    ensures { plain.TellsOut point.now loads.now held.now (outs.OpenDgram place server) result }
{
    may_open(point, place, server)
}

fn is_stream_right(point: &Point<'_>, loads: &Loads, held: &Held, place: u64, server: u32) -> bool
    ensures { plain.TellsOut point.now loads.now held.now (outs.OpenStream place server) result }
{
    let is_free = may_open(point, place, server);
    let may = may_open_stream(&point.here.books.places, loads, held, server);
    both(is_free, may)
}

fn is_send_right(
    point: &Point<'_>,
    loads: &Loads,
    held: &Held,
    place: u64,
    request: u64,
    id: u16,
    octets: &Octets,
) -> Result<bool, NoMemory>
    ensures { IfOk result (plain.TellsOut point.now loads.now held.now (outs.Send place request id octets.now)) }
{
    let past = &point.past.books;
    let here = &point.here.books;
    let may = may_send(point.conf, past, here, request, place, id, octets)?;
    Ok(with_server(point, may))
}

fn is_write_right(
    point: &Point<'_>,
    loads: &Loads,
    held: &Held,
    place: u64,
    request: u64,
    id: u16,
    octets: &Octets,
) -> Result<bool, NoMemory>
    ensures { IfOk result (plain.TellsOut point.now loads.now held.now (outs.Write place request id octets.now)) }
{
    let past = &point.past.books;
    let may = may_write(point.conf, past, point.here, request, place, id, octets)?;
    Ok(with_server(point, may))
}

fn is_resume_right(
    point: &Point<'_>,
    loads: &Loads,
    held: &Held,
    place: u64,
    octets: &Octets,
) -> bool
    ensures { plain.TellsOut point.now loads.now held.now (outs.Resume place octets.now) result }
{
    point.has_server()
}

fn is_close_right(
    alloc: Global,
    point: &Point<'_>,
    loads: &Loads,
    held: &Held,
    place: u64,
) -> Result<bool, NoMemory>
    ensures { IfOk result (plain.TellsOut point.now loads.now held.now (outs.Close place)) }
{
    may_close(alloc, point, place)
}

fn is_mark_right(point: &Point<'_>, loads: &Loads, held: &Held, request: u64) -> bool
    ensures { plain.TellsOut point.now loads.now held.now (outs.Stale request) result }
{
    point.has_server()
}

/// Whether an out is right where it is put, by what is known there. Of a reply nothing is asked, and of a mark that there is a
/// server.
pub fn is_out_right(
    alloc: Global,
    point: &Point<'_>,
    loads: &Loads,
    held: &Held,
    out: &Out,
) -> Result<bool, NoMemory>
    ensures { IfOk result (plain.TellsOut point.now loads.now held.now out.now) }
{
    match out {
        Out::Start {
            request,
            server,
            via,
        } => Ok(is_start_right(point, loads, held, *request, *server, *via)),
        Out::OpenDgram { place, server } => {
            Ok(is_dgram_right(point, loads, held, *place, *server))
        }
        Out::OpenStream { place, server } => {
            Ok(is_stream_right(point, loads, held, *place, *server))
        }
        Out::Send {
            place,
            request,
            id,
            octets,
        } => is_send_right(point, loads, held, *place, *request, *id, octets),
        Out::Write {
            place,
            request,
            id,
            octets,
        } => is_write_right(point, loads, held, *place, *request, *id, octets),
        Out::Resume { place, octets } => Ok(is_resume_right(point, loads, held, *place, octets)),
        Out::Close { place } => is_close_right(alloc, point, loads, held, *place),
        Out::Stale { request } => Ok(is_mark_right(point, loads, held, *request)),
        Out::Reply { .. } => Ok(true),
    }
}
