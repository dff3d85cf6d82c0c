//! Calls of the transport, each with its replies, and the deadlines of requests.

ghost use Rattle.std.specs.Prelude.{◌≡◌, ◌+◌, OnOk, IfErr, IsErrOf, true};
ghost use Rattle.client_request.specs.Response.{IsRefusal};
ghost use Rattle.client_request.specs.declared.error.Error.TheVariants.{Failed, NumbersUsed};
ghost use Rattle.client_request.specs.Cx.{heard, view_of, LendsTheSame};
ghost use Rattle.client_steps.specs.Client as plain;
ghost use Rattle.client_steps.specs.Machines.{machine_of, ClientHolds};

use crate::asked::{Asked, Waiting, reply_all};
use crate::stale::ServesStale;
use client_request::{
    Compose, Cx, Error, Event, GetResponse, Moment, Out, RequestMessage, SendRequest, Signal,
    TimerId, What, Words,
};
use dns_base::Duration;
use std::alloc::Global;

/// The transport hears something, and its results are put out as replies.
fn hear<L: ServesStale, W: Words>(
    layer: &mut L,
    asked: &mut Asked<L::Response>,
    cx: &mut Cx<'_, W>,
    signal: Signal<'_>,
) -> Result<(), Error>
    ensures holds { ClientHolds W.stream cx.old cx.new result (plain.hears (machine_of L.transport L.Response.ticket_of L.stale) (heard signal.entry)) L.holds_failed (layer.old, asked.old) (layer.new, asked.new) }
{
    layer.step(cx, signal)?;
    reply_all(asked, cx)?;
    Ok(())
}

/// Puts out the reply to a request whose deadline passed: what stands in for its result, marked, or that it timed out.
fn reply_late<L: ServesStale, W: Words>(
    layer: &mut L,
    cx: &mut Cx<'_, W>,
    number: u64,
    response: &L::Response,
) -> Result<(), Error>
    ensures lends { LendsTheSame cx.old cx.new }
    ensures ok { OnOk result (view_of W.stream cx.new ≡ plain.late_reply number (L.stale response.now layer.old (view_of W.stream cx.old)) (view_of W.stream cx.old)) }
    ensures same { OnOk result (layer.new ≡ layer.old) }
    ensures refused { IfErr result IsRefusal }
    ensures numbers { IsErrOf result NumbersUsed → ⊥ }
    ensures failed_only { IsErrOf result Failed → L.holds_failed layer.old ≡ true }
{
    let result = match layer.stand_in(cx, response)? {
        None => Err(Error::TimedOut),
        Some(message) => {
            cx.outs.push(Out::Stale { request: number })?;
            Ok(message)
        }
    };
    cx.outs.push(Out::Reply {
        request: number,
        result,
    })?;
    Ok(())
}

/// A request whose deadline passed gets its reply, and is given up.
fn time_out<L: ServesStale, W: Words>(
    layer: &mut L,
    asked: &mut Asked<L::Response>,
    cx: &mut Cx<'_, W>,
    waiting: Option<Waiting<L::Response>>,
) -> Result<(), Error>
    ensures holds { ClientHolds W.stream cx.old cx.new result (λ c. plain.times_out (machine_of L.transport L.Response.ticket_of L.stale) c waiting) L.holds_failed (layer.old, asked.old) (layer.new, asked.new) }
{
    let Some(waiting) = waiting else {
        return Ok(());
    };
    let Waiting {
        number,
        timer: _,
        response,
    } = waiting;
    reply_late(layer, cx, number, &response)?;
    layer.cancel(cx, response)
}

/// A timer fires: it is the deadline of a request, or the transport's.
fn fire<L: ServesStale, W: Words>(
    layer: &mut L,
    asked: &mut Asked<L::Response>,
    cx: &mut Cx<'_, W>,
    timer: TimerId,
) -> Result<(), Error>
    ensures holds { ClientHolds W.stream cx.old cx.new result (plain.fire (machine_of L.transport L.Response.ticket_of L.stale) timer.0) L.holds_failed (layer.old, asked.old) (layer.new, asked.new) }
{
    match asked.take_late(timer.0) {
        Some(waiting) => time_out(layer, asked, cx, waiting),
        None => hear(layer, asked, cx, Signal::Due(timer)),
    }
}

/// Timers fire until none is due, also where one that fires sets another that is due at once. Each has a number of
/// its own, so the numbers run out before this goes on forever.
fn fire_all<L: ServesStale, W: Words>(
    layer: &mut L,
    asked: &mut Asked<L::Response>,
    cx: &mut Cx<'_, W>,
) -> Result<(), Error>
    ensures holds { ClientHolds W.stream cx.old cx.new result (plain.fires_all (machine_of L.transport L.Response.ticket_of L.stale)) L.holds_failed (layer.old, asked.old) (layer.new, asked.new) }
{
    let mut count: u64 = 0;
    while count < u64::MAX {
        let Some(timer) = cx.timers.fire(cx.now) else {
            return Ok(());
        };
        fire(layer, asked, cx, timer)?;
        count += 1;
    }
    Err(Error::NumbersUsed)
}

/// The transport is told what happened.
fn tell<L: ServesStale, W: Words>(
    layer: &mut L,
    asked: &mut Asked<L::Response>,
    cx: &mut Cx<'_, W>,
    what: &What,
) -> Result<(), Error>
    ensures holds { ClientHolds W.stream cx.old cx.new result (plain.tells (machine_of L.transport L.Response.ticket_of L.stale) what.now) L.holds_failed (layer.old, asked.old) (layer.new, asked.new) }
{
    cx.more = false;
    hear(layer, asked, cx, Signal::Told(what))
}

/// The transport takes the next frame of a place.
fn take_frame<L: ServesStale, W: Words>(
    layer: &mut L,
    asked: &mut Asked<L::Response>,
    cx: &mut Cx<'_, W>,
    place: u64,
) -> Result<(), Error>
    ensures holds { ClientHolds W.stream cx.old cx.new result (plain.next_frame (machine_of L.transport L.Response.ticket_of L.stale) place) L.holds_failed (layer.old, asked.old) (layer.new, asked.new) }
{
    cx.more = false;
    hear(layer, asked, cx, Signal::More { place })
}

/// The frames that stand at a place are taken one by one, at most so many. Timers that are due fire before
/// each.
fn take_frames<L: ServesStale, W: Words>(
    layer: &mut L,
    asked: &mut Asked<L::Response>,
    cx: &mut Cx<'_, W>,
    place: u64,
    most: usize,
) -> Result<(), Error>
    ensures holds { ClientHolds W.stream cx.old cx.new result (plain.more_frames (machine_of L.transport L.Response.ticket_of L.stale) place most) L.holds_failed (layer.old, asked.old) (layer.new, asked.new) }
{
    let mut left = most;
    while left > 0 {
        if !cx.more {
            return Ok(());
        }
        fire_all(layer, asked, cx)?;
        take_frame(layer, asked, cx, place)?;
        left -= 1;
    }
    Ok(())
}

/// A request is asked: it gets the next number and a deadline, and goes to the transport.
fn ask<L: ServesStale, W: Words>(
    layer: &mut L,
    asked: &mut Asked<L::Response>,
    cx: &mut Cx<'_, W>,
    timeout: Duration,
    request: RequestMessage,
) -> Result<(), Error>
    ensures holds { ClientHolds W.stream cx.old cx.new result (plain.asks_request (machine_of L.transport L.Response.ticket_of L.stale) timeout request) L.holds_failed (layer.old, asked.old) (layer.new, asked.new) }
{
    let number = asked.next();
    if number == u64::MAX {
        return Err(Error::NumbersUsed);
    }
    cx.request = number;
    let timer = cx.timers.set(deadline(cx.now, timeout))?;
    let response = layer.send_request(cx, request)?;
    let ticket = response.ticket();
    let waiting = Waiting {
        number,
        timer: timer.0,
        response,
    };
    asked.wait(ticket, waiting)?;
    reply_all(asked, cx)?;
    Ok(())
}

/// When a request that is asked now is to have its reply, in microseconds.
fn deadline(now: Moment, timeout: Duration) -> u128
    ensures { result ≡ now.0 + timeout }
{
    u128::from(now.0) + timeout.as_micros()
}

/// What an event does.
fn happen<L: ServesStale, W: Words>(
    layer: &mut L,
    asked: &mut Asked<L::Response>,
    cx: &mut Cx<'_, W>,
    alloc: Global,
    timeout: Duration,
    what: &What,
) -> Result<(), Error>
    ensures holds { ClientHolds W.stream cx.old cx.new result (plain.happens (machine_of L.transport L.Response.ticket_of L.stale) timeout what.now) L.holds_failed (layer.old, asked.old) (layer.new, asked.new) }
{
    match what {
        What::Ask { request } => {
            let request = request.try_clone(alloc)?;
            ask(layer, asked, cx, timeout, request)
        }
        What::Bytes { place, octets } => {
            tell(layer, asked, cx, what)?;
            take_frames(layer, asked, cx, *place, octets.as_slice().len())
        }
        What::Tick => Ok(()),
        _ => tell(layer, asked, cx, what),
    }
}

/// Timers that are due fire, then an event happens, and timers that are due fire again.
pub fn take_in<L: ServesStale, W: Words>(
    layer: &mut L,
    asked: &mut Asked<L::Response>,
    cx: &mut Cx<'_, W>,
    alloc: Global,
    timeout: Duration,
    event: &Event,
) -> Result<(), Error>
    ensures holds { ClientHolds W.stream cx.old cx.new result (plain.client_step (machine_of L.transport L.Response.ticket_of L.stale) timeout event.now) L.holds_failed (layer.old, asked.old) (layer.new, asked.new) }
{
    cx.now = cx.now.max(event.moment);
    fire_all(layer, asked, cx)?;
    happen(layer, asked, cx, alloc, timeout, &event.what)?;
    fire_all(layer, asked, cx)
}
