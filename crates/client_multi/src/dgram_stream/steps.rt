//! What each call of a fallback does.

ghost use Rattle.std.specs.Prelude.{◌≡◌, OnOk, IfOk};
ghost use Rattle.client_request.specs.Cx.{heard};
ghost use Rattle.client_multi.specs.Fallback as plain;
ghost use Rattle.client_multi.specs.Fallback.{Relays};

use crate::dgram_stream::job::Job;
use crate::dgram_stream::tables::{Boards, Parts, Tables};
use client_request::{
    Board, ComposeRequest, Cx, Error, GetResponse, Out, Part, Posted, SendRequest, Signal, Via,
    Words, cancel_below, send_below, step_below,
};
use dns_base::NoMemory;
use std::alloc::Global;

/// Whether what came is a message that has not all that there is.
fn is_truncated(part: &Part) -> bool
    ensures { result ≡ plain.is_truncated part.now }
{
    match part {
        Ok(Some(message)) => message.header().tc(),
        Ok(None) | Err(_) => false,
    }
}

/// A request whose datagram was truncated goes to the stream.
fn follow<Req: ComposeRequest, D: SendRequest<Req>, S: SendRequest<Req>, W: Words>(
    parts: &mut Parts<Req, D, S>,
    server: u32,
    from_stream: &mut Board,
    cx: &mut Cx<'_, W>,
    ticket: u64,
    number: u64,
    request: Req,
) -> Result<(), Error>
    ensures relays { Relays D.holds_failed S.holds_failed W.stream cx.old cx.new result (plain.follows server S.transport ticket number request parts.old from_stream.old) (parts.new, from_stream.new) parts.old parts.new }
{
    cx.outs.push(Out::Start {
        request: number,
        server,
        via: Via::Stream,
    })?;
    cx.request = number;
    let response = send_below(&mut parts.stream, from_stream, cx, request)?;
    let lower = response.ticket();
    parts.tables.admit(ticket, Job::Stream { lower, response })
}

/// What the datagrams posted is a result; a request whose datagram was truncated goes to the stream.
fn settle<Req: ComposeRequest, D: SendRequest<Req>, S: SendRequest<Req>, W: Words>(
    parts: &mut Parts<Req, D, S>,
    server: u32,
    from_stream: &mut Board,
    cx: &mut Cx<'_, W>,
    posted: Posted,
) -> Result<(), Error>
    ensures relays { Relays D.holds_failed S.holds_failed W.stream cx.old cx.new result (plain.settles server S.transport posted parts.old from_stream.old) (parts.new, from_stream.new) parts.old parts.new }
{
    let Posted {
        ticket: lower,
        part,
        ..
    } = posted;
    let Some((ticket, job)) = parts.tables.take_below(lower) else {
        return Ok(());
    };
    match job {
        Job::Dgram {
            number,
            request,
            ..
        } if is_truncated(&part) => {
            follow(parts, server, from_stream, cx, ticket, number, request)
        }
        _ => {
            cx.board.put(ticket, part)?;
            Ok(())
        }
    }
}

/// Each part that the datagrams posted is settled, in order.
fn settle_all<Req: ComposeRequest, D: SendRequest<Req>, S: SendRequest<Req>, W: Words>(
    parts: &mut Parts<Req, D, S>,
    server: u32,
    from_dgram: &mut Board,
    from_stream: &mut Board,
    cx: &mut Cx<'_, W>,
) -> Result<(), Error>
    ensures relays { Relays D.holds_failed S.holds_failed W.stream cx.old cx.new result (plain.settles_all server S.transport from_dgram.old parts.old from_stream.old) (parts.new, from_stream.new) parts.old parts.new }
{
    while let Some(posted) = from_dgram.take_first() {
        settle(parts, server, from_stream, cx, posted)?;
    }
    Ok(())
}

/// What the stream posted is a result.
fn give<Req: Drop, P: Drop, Q: Drop>(
    tables: &mut Tables<Req, P, Q>,
    board: &mut Board,
    posted: Posted,
) -> Result<(), NoMemory>
    ensures { OnOk result ((tables.new, board.new) ≡ plain.gives posted tables.old board.old) }
{
    let Posted {
        ticket: lower,
        part,
        ..
    } = posted;
    match tables.take_below(lower) {
        None => Ok(()),
        Some((ticket, _)) => board.put(ticket, part),
    }
}

/// Each part that the stream posted is a result, in order.
fn give_all<Req: Drop, P: Drop, Q: Drop>(
    tables: &mut Tables<Req, P, Q>,
    board: &mut Board,
    from_stream: &mut Board,
) -> Result<(), NoMemory>
    ensures { OnOk result ((tables.new, board.new) ≡ plain.gives_all from_stream.old tables.old board.old) }
{
    while let Some(posted) = from_stream.take_first() {
        give(tables, board, posted)?;
    }
    Ok(())
}

/// What was posted below is settled: that of the datagrams first.
fn collect<Req: ComposeRequest, D: SendRequest<Req>, S: SendRequest<Req>, W: Words>(
    parts: &mut Parts<Req, D, S>,
    boards: &mut Boards,
    server: u32,
    cx: &mut Cx<'_, W>,
) -> Result<(), Error>
    ensures relays { Relays D.holds_failed S.holds_failed W.stream cx.old cx.new result (plain.collects server S.transport boards.old.from_dgram boards.old.from_stream parts.old) parts.new parts.old parts.new }
{
    settle_all(
        parts,
        server,
        &mut boards.from_dgram,
        &mut boards.from_stream,
        cx,
    )?;
    give_all(&mut parts.tables, cx.board, &mut boards.from_stream)?;
    Ok(())
}

/// Takes a request on: it goes to the datagrams.
pub(crate) fn take_on<Req: ComposeRequest, D: SendRequest<Req>, S: SendRequest<Req>, W: Words>(
    parts: &mut Parts<Req, D, S>,
    boards: &mut Boards,
    server: u32,
    alloc: Global,
    cx: &mut Cx<'_, W>,
    request: Req,
) -> Result<u64, Error>
    ensures relays { Relays D.holds_failed S.holds_failed W.stream cx.old cx.new result (plain.takes server D.transport S.transport request parts.old) parts.new parts.old parts.new }
    ensures ticket { IfOk result (λ ticket. ticket ≡ cx.old.ticket) }
{
    let number = cx.request;
    let ticket = cx.draw_ticket()?;
    let copy = request.try_clone(alloc)?;
    boards.clear();
    let response = send_below(&mut parts.dgram, &mut boards.from_dgram, cx, copy)?;
    let lower = response.ticket();
    let job = Job::Dgram {
        lower,
        number,
        request,
        response,
    };
    parts.tables.admit(ticket, job)?;
    collect(parts, boards, server, cx)?;
    Ok(ticket)
}

/// Both transports hear what happened, the datagrams first. Only one of them has the place or the timer.
pub(crate) fn hear<Req: ComposeRequest, D: SendRequest<Req>, S: SendRequest<Req>, W: Words>(
    parts: &mut Parts<Req, D, S>,
    boards: &mut Boards,
    server: u32,
    cx: &mut Cx<'_, W>,
    signal: Signal<'_>,
) -> Result<(), Error>
    ensures relays { Relays D.holds_failed S.holds_failed W.stream cx.old cx.new result (plain.hears server D.transport S.transport (heard signal.entry) parts.old) parts.new parts.old parts.new }
{
    boards.clear();
    step_below(&mut parts.dgram, &mut boards.from_dgram, cx, signal)?;
    step_below(&mut parts.stream, &mut boards.from_stream, cx, signal)?;
    collect(parts, boards, server, cx)
}

/// Gives a request up, where it waits.
pub(crate) fn give_up<Req: ComposeRequest, D: SendRequest<Req>, S: SendRequest<Req>, W: Words>(
    parts: &mut Parts<Req, D, S>,
    boards: &mut Boards,
    server: u32,
    cx: &mut Cx<'_, W>,
    ticket: u64,
) -> Result<(), Error>
    ensures relays { Relays D.holds_failed S.holds_failed W.stream cx.old cx.new result (plain.drops server D.transport S.transport ticket parts.old) parts.new parts.old parts.new }
{
    boards.clear();
    let Some(job) = parts.tables.take_job(ticket) else {
        return Ok(());
    };
    match job {
        Job::Dgram {
            lower: _lower,
            number: _number,
            request: _request,
            response,
        } => cancel_below(&mut parts.dgram, &mut boards.from_dgram, cx, response)?,
        Job::Stream {
            lower: _lower,
            response,
        } => cancel_below(&mut parts.stream, &mut boards.from_stream, cx, response)?,
    }
    collect(parts, boards, server, cx)
}
