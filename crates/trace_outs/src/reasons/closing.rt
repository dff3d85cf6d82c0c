//! Whether a place may be closed.

ghost use Rattle.std.specs.Prelude.{◌≡◌, ◌||◌, IfOk};
ghost use Rattle.trace_tables.specs.writes.Writing.{unwritten_seen};
ghost use Rattle.right_trace.specs.Requests as heads;
ghost use Rattle.trace_outs.specs.reasons.Closing as plain;

use crate::reasons::point::Point;
use client_request::{Out, Via, What};
use dns_base::{NoMemory, Octets};
use std::alloc::Global;
use trace_points::due::{is_idle_timer_due, is_read_timer_due};
use trace_points::exchanges::Coming;
use trace_tables::frames::Brought;
use trace_tables::{Newest, Requests, Sent};

/// Whether an event tells that a place is broken.
pub fn is_told(number: u64, what: &What) -> bool
    ensures { result ≡ plain.told_seen number what.now }
{
    match what {
        What::SendFailed { place, .. }
        | What::ShortSend { place }
        | What::RecvFailed { place, .. }
        | What::WriteFailed { place, .. }
        | What::ReadFailed { place, .. }
        | What::Ended { place } => *place == number,
        What::Wrote { place, count } => *count == 0 && *place == number,
        _ => false,
    }
}

/// Whether a datagram at a place answers a request.
fn is_answer_at(place: u64, request: u64, coming: &Coming) -> bool
    ensures { result ≡ plain.is_answer_at place request coming.now }
{
    coming.place == place
        && coming.request == request
        && matches!(coming.via, Via::Dgram)
        && coming.agrees
}

/// Whether one of these does.
fn some_answer_at(place: u64, request: u64, comings: &[Coming]) -> bool
    ensures { result ≡ plain.some_answer_at place request comings.now }
{
    for coming in comings {
        if is_answer_at(place, request, coming) {
            return true;
        }
    }
    false
}

/// Whether an out is the reply to a request.
fn is_reply(request: u64, out: &Out) -> bool
    ensures { result ≡ heads.is_reply request out.now }
{
    match out {
        Out::Reply { request: other, .. } => *other == request,
        _ => false,
    }
}

/// Whether one of these is.
fn some_reply(request: u64, outs: &[Out]) -> bool
    ensures { result ≡ plain.some_reply request outs.now }
{
    for out in outs {
        if is_reply(request, out) {
            return true;
        }
    }
    false
}

/// Whether an out is the first reply to a request that a server has by datagrams.
fn is_reply_there(server: u32, past: &Requests, here: &Requests, out: &Out) -> bool
    ensures { result ≡ plain.is_reply_there server past.now here.now out.now }
{
    match out {
        Out::Reply { request, .. } => {
            !past.is_replied(*request) && here.is_started(*request, server, Via::Dgram)
        }
        _ => false,
    }
}

/// Whether one of these is.
fn some_reply_there(server: u32, past: &Requests, here: &Requests, outs: &[Out]) -> bool
    ensures { result ≡ plain.some_reply_there server past.now here.now outs.now }
{
    for out in outs {
        if is_reply_there(server, past, here, out) {
            return true;
        }
    }
    false
}

/// Whether a frame among these has no whole header.
fn has_bad(frames: &[Octets]) -> bool
    ensures { result ≡ plain.bad_in frames.now }
{
    for frame in frames {
        if frame.as_slice().len() < 12 {
            return true;
        }
    }
    false
}

/// The same of those that the newest row brought to a place.
fn has_bad_at(brought: &Option<Brought>, place: u64) -> bool
    ensures { result ≡ plain.bad_at place brought.now }
{
    match brought {
        None => false,
        Some(brought) => brought.place == place && has_bad(brought.frames.as_slice()),
    }
}

/// Whether a place at which a request was sent last, at a moment, may be closed for it.
fn sent_closes(point: &Point<'_>, place: u64, request: u64, moment: u64) -> bool
    ensures { result ≡ plain.sent_closes point.now.conf.now place point.now request moment }
{
    let now = point.here.books.requests.clock;
    some_answer_at(place, request, point.comings)
        || u128::from(moment) + point.conf.read_timeout().as_micros() <= u128::from(now)
        || !point.past.books.requests.is_replied(request)
            && some_reply(request, point.row.outs.as_slice())
}

/// Whether a place at which nothing was sent may be closed for a request that its server has.
fn unsent_closes(point: &Point<'_>, server: u32) -> bool
    ensures { result ≡ plain.unsent_closes server point.now }
{
    point.timers.invalid.is_at(Via::Dgram, server)
        || some_reply_there(
            server,
            &point.past.books.requests,
            &point.here.books.requests,
            point.row.outs.as_slice(),
        )
}

/// The one or the other, by what was sent.
fn by_sends(point: &Point<'_>, place: u64, server: u32, sends: &Newest<Sent>) -> bool
    ensures { result ≡ plain.by_sends point.now.conf.now place server point.now sends.now }
{
    match sends.into_iter().next() {
        None => unsent_closes(point, server),
        Some(sent) => sent_closes(point, place, sent.request, sent.moment),
    }
}

/// Whether a datagram place of a server may be closed.
fn dgram_closes(point: &Point<'_>, place: u64, server: u32) -> bool
    ensures { result ≡ plain.dgram_closes point.now.conf.now place server point.now }
{
    if is_told(place, &point.row.event.what) {
        return true;
    }
    match point.here.books.sends.sent.get(place) {
        None => unsent_closes(point, server),
        Some(sends) => by_sends(point, place, server, sends),
    }
}

/// Whether a stream place may be closed for another reason than its idle timer.
fn stream_closes(point: &Point<'_>, place: u64) -> bool
    ensures { result ≡ plain.stream_closes point.now.conf.now place point.now }
{
    is_told(place, &point.row.event.what)
        || has_bad_at(&point.here.frames.brought, place)
        || is_read_timer_due(
            point.conf,
            point.past,
            point.past_timers,
            place,
            point.here.books.requests.clock,
        )
}

/// The same, with an answer for its idle timer.
fn stream_closes_or(point: &Point<'_>, place: u64, is_idle: bool) -> bool
    ensures { result ≡ (plain.stream_closes point.now.conf.now place point.now || is_idle) }
{
    stream_closes(point, place) || is_idle
}

/// Whether a stream place may be closed: an event tells that it is broken, a frame without a whole header came there, or one of
/// its timers is due.
pub fn may_close_stream(alloc: Global, point: &Point<'_>, place: u64) -> Result<bool, NoMemory>
    ensures { IfOk result (plain.TellsStreamClose place point.now) }
{
    let is_idle = is_idle_timer_due(point.conf, alloc, point.here, point.timers, place)?;
    Ok(stream_closes_or(point, place, is_idle))
}

/// Whether something is unwritten at a place, or was before the row.
fn is_amid_writing(point: &Point<'_>, place: u64) -> bool
    ensures { result ≡ (unwritten_seen place point.now.past_timers.now.writing || unwritten_seen place point.now.timers.now.writing) }
{
    point.past_timers.writing.is_unwritten(place) || point.timers.writing.is_unwritten(place)
}

/// Whether a connection ends badly, with an answer for its idle timer.
fn is_bad_end(point: &Point<'_>, place: u64, is_idle: bool) -> bool
    ensures { result ≡ plain.bad_end point.now.conf.now place point.now is_idle }
{
    stream_closes(point, place) || is_idle && is_amid_writing(point, place)
}

/// Whether a connection that is closed ends badly: but for an idle timer that finds all written, each reason to close a stream
/// place is bad.
pub fn ends_badly(alloc: Global, point: &Point<'_>, place: u64) -> Result<bool, NoMemory>
    ensures { IfOk result (plain.TellsBadEnd place point.now) }
{
    let is_idle = is_idle_timer_due(point.conf, alloc, point.here, point.timers, place)?;
    Ok(is_bad_end(point, place, is_idle))
}

/// Whether there is a reason to close a place.
fn has_reason(alloc: Global, point: &Point<'_>, number: u64) -> Result<bool, NoMemory>
    ensures { IfOk result (plain.TellsReason number point.now) }
{
    let Some(place) = point.here.books.places.get(number) else {
        return Ok(false);
    };
    match place.via {
        Via::Dgram => Ok(dgram_closes(point, number, place.server)),
        Via::Stream => may_close_stream(alloc, point, number),
    }
}

/// Whether a place may be closed where there is a reason or not.
fn may_close_for(point: &Point<'_>, place: u64, reason: bool) -> bool
    ensures { result ≡ plain.may_close place point.now reason }
{
    point.has_server() && reason && point.made.was_live(&point.past.books.places, place)
}

/// Whether a place may be closed: it was live, the row's event not counted, and there is a reason.
pub fn may_close(alloc: Global, point: &Point<'_>, place: u64) -> Result<bool, NoMemory>
    ensures { IfOk result (plain.TellsClose place point.now) }
{
    let reason = has_reason(alloc, point, place)?;
    Ok(may_close_for(point, place, reason))
}
