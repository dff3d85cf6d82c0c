//! Whether a request may be handed to a server.

ghost use Rattle.std.specs.Prelude.{◌≡◌, slice_get};
ghost use Rattle.trace_outs.specs.reasons.Starting as plain;

use crate::reasons::point::Point;
use client_request::Via;
use trace_points::exchanges::Coming;
use trace_points::questions::ServerUse;

/// Whether a server is used by datagrams.
fn is_by_datagrams(servers: &[ServerUse], server: u32) -> bool
    ensures { result ≡ plain.by_datagrams (slice_get servers.now server) }
{
    match servers.get(server as usize) {
        Some(ServerUse::Datagrams) => true,
        _ => false,
    }
}

/// Whether a server is used by streams alone.
fn is_by_streams(servers: &[ServerUse], server: u32) -> bool
    ensures { result ≡ plain.by_streams (slice_get servers.now server) }
{
    match servers.get(server as usize) {
        Some(ServerUse::Streams) => true,
        _ => false,
    }
}

/// Whether a message is a truncated datagram of a server that answers a request.
fn is_cut_answer(request: u64, server: u32, coming: &Coming) -> bool
    ensures { result ≡ plain.is_cut_answer request server coming.now }
{
    coming.request == request
        && matches!(coming.via, Via::Dgram)
        && coming.server == server
        && coming.agrees
        && coming.message.header().tc()
}

/// Whether one of these is.
fn some_cut_answer(request: u64, server: u32, comings: &[Coming]) -> bool
    ensures { result ≡ plain.some_cut_answer request server comings.now }
{
    for coming in comings {
        if is_cut_answer(request, server, coming) {
            return true;
        }
    }
    false
}

/// Whether a server is used so, or is after a truncated answer.
fn is_used_for(
    servers: &[ServerUse],
    comings: &[Coming],
    request: u64,
    server: u32,
    via: Via,
) -> bool
    ensures { result ≡ plain.is_used_for request server via servers.now comings.now }
{
    match via {
        Via::Dgram => is_by_datagrams(servers, server),
        Via::Stream => {
            is_by_streams(servers, server)
                || is_by_datagrams(servers, server) && some_cut_answer(request, server, comings)
        }
    }
}

fn starts(point: &Point<'_>, request: u64, server: u32, via: Via) -> bool
    ensures { result ≡ plain.start_seen request server via point.now }
{
    let requests = &point.here.books.requests;
    requests.askings.contains_key(request)
        && !requests.is_started(request, server, via)
        && is_used_for(point.servers, point.comings, request, server, via)
}

/// Whether a request may be handed to a server so: it was asked and not handed there so, and the server is used so, or by
/// datagrams of which one answers the request in this row and is truncated.
pub fn may_start(point: &Point<'_>, request: u64, server: u32, via: Via) -> bool
    ensures value { result ≡ plain.start_seen request server via point.now }
    ensures told { plain.TellsStart request server via point.now result }
{
    starts(point, request, server, via)
}
