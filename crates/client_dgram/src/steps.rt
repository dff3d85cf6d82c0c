//! What happens to the requests and to their places.

ghost use Rattle.std.specs.Prelude.{◌≡◌, ◌+◌, ◌-◌, ◌<◌, Some, None, Err, IfOk};
ghost use Rattle.client_request.specs.Calls.{Follows};
ghost use Rattle.client_request.specs.Cx.{view_of, heard};
ghost use Rattle.client_dgram.specs.Plain as plain;

use crate::job::{Job, Stage};
use crate::tables::{Tables, answer_in, forget_sent, number_at, stage_at};
use client_request::{
    ComposeRequest, Cx, Error, Fault, Out, Part, QueryError, Signal, TimerId, What, Words,
};
use client_settings::dgram::Config;
use dns_base::Octets;

/// The next try of a job opens a place.
fn open_next<Req: ComposeRequest, W: Words>(
    tables: &mut Tables<Req>,
    server: u32,
    cx: &mut Cx<'_, W>,
    ticket: u64,
    job: Job<Req>,
) -> Result<(), Error>
    ensures follows { Follows W.stream cx.old cx.new result (plain.tries server ticket job tables.old) tables.new }
{
    let place = cx.draw_place()?;
    let job = Job {
        number: job.number,
        request: job.request,
        left: job.left,
        stage: Stage::Opening { place },
    };
    tables.jobs.insert(ticket, job)?;
    tables.places.insert(place, ticket)?;
    cx.outs.push(Out::OpenDgram { place, server })?;
    Ok(())
}

/// A slot that is free is given on to the request that waits longest.
fn give_slot_on<Req: ComposeRequest, W: Words>(
    tables: &mut Tables<Req>,
    server: u32,
    cx: &mut Cx<'_, W>,
) -> Result<(), Error>
    ensures follows { Follows W.stream cx.old cx.new result (plain.gives_on server tables.old) tables.new }
{
    match tables.queue.pop_first() {
        None => {
            tables.used = tables.used.saturating_sub(1);
            Ok(())
        }
        Some(ticket) => match tables.jobs.remove(ticket) {
            None => Ok(()),
            Some(job) => open_next(tables, server, cx, ticket, job),
        },
    }
}

/// The result of a job, which is in no table any more. Its slot is given on.
fn finish<Req: ComposeRequest, W: Words>(
    tables: &mut Tables<Req>,
    server: u32,
    cx: &mut Cx<'_, W>,
    ticket: u64,
    part: Part,
) -> Result<(), Error>
    ensures follows { Follows W.stream cx.old cx.new result (plain.finishes server ticket part tables.old) tables.new }
{
    cx.board.put(ticket, part)?;
    give_slot_on(tables, server, cx)
}

/// Takes a request on: it gets a slot, or waits for one.
pub(crate) fn take_on<Req: ComposeRequest, W: Words>(
    tables: &mut Tables<Req>,
    server: u32,
    config: &Config,
    cx: &mut Cx<'_, W>,
    request: Req,
) -> Result<u64, Error>
    ensures follows { Follows W.stream cx.old cx.new result (plain.takes Req.requests server config.now request tables.old) tables.new }
    ensures ticket { IfOk result (λ ticket. ticket ≡ cx.old.ticket) }
{
    let ticket = cx.draw_ticket()?;
    let job = Job {
        number: cx.request,
        request,
        left: config.max_retries(),
        stage: Stage::Queued,
    };
    if tables.used < config.max_parallel() {
        tables.used += 1;
        open_next(tables, server, cx, ticket, job)?;
        return Ok(ticket);
    }
    tables.jobs.insert(ticket, job)?;
    tables.queue.insert(ticket)?;
    Ok(ticket)
}

/// Sends a job's request at its place, which is open, under an id.
fn send<Req: ComposeRequest, W: Words>(
    tables: &mut Tables<Req>,
    server: u32,
    config: &Config,
    cx: &mut Cx<'_, W>,
    place: u64,
    ticket: u64,
    id: u16,
    job: Job<Req>,
) -> Result<(), Error>
    ensures follows { Follows W.stream cx.old cx.new result (plain.sends Req.requests server config.now place ticket id job job.request tables.old) tables.new }
{
    let message = match job.request.to_message() {
        Ok(message) => message,
        Err(Error::NoMemory) => return Err(Error::NoMemory),
        Err(error) => {
            let _ = tables.places.remove(place);
            cx.outs.push(Out::Close { place })?;
            return finish(tables, server, cx, ticket, Err(error));
        }
    };
    let octets = message.into_octets();
    let due = u128::from(cx.now.0) + config.read_timeout().as_micros();
    let timer = cx.timers.set(due)?;
    tables.timers.insert(timer.0, ticket)?;
    let Job {
        number,
        request,
        left,
        stage: _,
    } = job;
    let job = Job {
        number,
        request,
        left,
        stage: Stage::Sent {
            place,
            timer: timer.0,
        },
    };
    tables.jobs.insert(ticket, job)?;
    cx.outs.push(Out::Send {
        place,
        request: number,
        id,
        octets,
    })?;
    Ok(())
}

/// A place is open: the request that waits for it is sent there.
fn opened<Req: ComposeRequest, W: Words>(
    tables: &mut Tables<Req>,
    server: u32,
    config: &Config,
    cx: &mut Cx<'_, W>,
    place: u64,
) -> Result<(), Error>
    ensures follows { Follows W.stream cx.old cx.new result (plain.opens Req.requests server config.now place tables.old) tables.new }
{
    let Some(ticket) = number_at(&tables.places, place) else {
        return Ok(());
    };
    let Some(Stage::Opening { .. }) = stage_at(&tables.jobs, ticket) else {
        return Ok(());
    };
    let Some(mut job) = tables.jobs.remove(ticket) else {
        return Ok(());
    };
    let id = (cx.words.next() % 65536) as u16;
    job.request.set_id(id);
    if let Some(size) = config.udp_payload_size() {
        job.request.set_udp_payload_size(size);
    }
    send(tables, server, config, cx, place, ticket, id, job)
}

/// A place could not be opened.
fn open_failed<Req: ComposeRequest, W: Words>(
    tables: &mut Tables<Req>,
    server: u32,
    cx: &mut Cx<'_, W>,
    place: u64,
    error: Error,
) -> Result<(), Error>
    ensures follows { Follows W.stream cx.old cx.new result (plain.open_fails server error place tables.old) tables.new }
{
    let Some(ticket) = number_at(&tables.places, place) else {
        return Ok(());
    };
    let Some(Stage::Opening { .. }) = stage_at(&tables.jobs, ticket) else {
        return Ok(());
    };
    let _ = tables.jobs.remove(ticket);
    let _ = tables.places.remove(place);
    finish(tables, server, cx, ticket, Err(error))
}

/// What came where a request was sent is its result: the place is closed.
fn close_and_finish<Req: ComposeRequest, W: Words>(
    tables: &mut Tables<Req>,
    server: u32,
    cx: &mut Cx<'_, W>,
    place: u64,
    ticket: u64,
    timer: u64,
    part: Part,
) -> Result<(), Error>
    ensures follows { Follows W.stream cx.old cx.new result (λ v. plain.finishes server ticket part (plain.leaves place ticket timer tables.old) (plain.closes place timer v)) tables.new }
{
    forget_sent(tables, place, ticket, timer);
    cx.outs.push(Out::Close { place })?;
    cx.timers.cancel(TimerId(timer));
    finish(tables, server, cx, ticket, part)
}

/// A fault came to pass at a place where a request was sent.
fn end_by_fault<Req: ComposeRequest, W: Words>(
    tables: &mut Tables<Req>,
    server: u32,
    cx: &mut Cx<'_, W>,
    place: u64,
    error: Error,
) -> Result<(), Error>
    ensures follows { Follows W.stream cx.old cx.new result (plain.breaks server error place tables.old) tables.new }
{
    let Some(ticket) = number_at(&tables.places, place) else {
        return Ok(());
    };
    let Some(Stage::Sent { timer, .. }) = stage_at(&tables.jobs, ticket) else {
        return Ok(());
    };
    close_and_finish(tables, server, cx, place, ticket, timer, Err(error))
}

/// A datagram came at a place.
fn received<Req: ComposeRequest, W: Words>(
    tables: &mut Tables<Req>,
    server: u32,
    config: &Config,
    cx: &mut Cx<'_, W>,
    place: u64,
    octets: &Octets,
) -> Result<(), Error>
    ensures follows { Follows W.stream cx.old cx.new result (plain.comes Req.requests server config.now octets.now place tables.old) tables.new }
{
    let Some(ticket) = number_at(&tables.places, place) else {
        return Ok(());
    };
    let Some(Stage::Sent { timer, .. }) = stage_at(&tables.jobs, ticket) else {
        return Ok(());
    };
    let len = octets.as_slice().len().min(config.recv_size());
    let octets = octets.truncated(len)?;
    let Some(message) = answer_in(&tables.jobs, ticket, octets) else {
        return Ok(());
    };
    close_and_finish(tables, server, cx, place, ticket, timer, Ok(Some(message)))
}

/// The read timer of a try fired: its place is closed, and the next one opens, if any may follow.
fn time_out<Req: ComposeRequest, W: Words>(
    tables: &mut Tables<Req>,
    server: u32,
    cx: &mut Cx<'_, W>,
    timer: u64,
) -> Result<(), Error>
    ensures follows { Follows W.stream cx.old cx.new result (plain.late server timer tables.old) tables.new }
{
    let Some(ticket) = tables.timers.remove(timer) else {
        return Ok(());
    };
    let Some(Stage::Sent { place, .. }) = stage_at(&tables.jobs, ticket) else {
        return Ok(());
    };
    let Some(mut job) = tables.jobs.remove(ticket) else {
        return Ok(());
    };
    let _ = tables.places.remove(place);
    cx.outs.push(Out::Close { place })?;
    if job.left == 0 {
        return finish(
            tables,
            server,
            cx,
            ticket,
            Err(Error::Dgram(QueryError::Timeout)),
        );
    }
    job.left -= 1;
    open_next(tables, server, cx, ticket, job)
}

/// What a signal does.
pub(crate) fn hear<Req: ComposeRequest, W: Words>(
    tables: &mut Tables<Req>,
    server: u32,
    config: &Config,
    cx: &mut Cx<'_, W>,
    signal: Signal<'_>,
) -> Result<(), Error>
    ensures follows { Follows W.stream cx.old cx.new result (plain.hears Req.requests server config.now (heard signal.entry) tables.old) tables.new }
{
    match signal {
        Signal::Told(what) => told(tables, server, config, cx, what),
        Signal::More { .. } => Ok(()),
        Signal::Due(timer) => time_out(tables, server, cx, timer.0),
    }
}

/// What an event does.
fn told<Req: ComposeRequest, W: Words>(
    tables: &mut Tables<Req>,
    server: u32,
    config: &Config,
    cx: &mut Cx<'_, W>,
    what: &What,
) -> Result<(), Error>
    ensures follows { Follows W.stream cx.old cx.new result (plain.tells Req.requests server config.now what.now tables.old) tables.new }
{
    match what {
        What::Opened { place } => opened(tables, server, config, cx, *place),
        What::OpenFailed { place, fault } => {
            let error = Error::Dgram(QueryError::Connect(*fault));
            open_failed(tables, server, cx, *place, error)
        }
        What::SendFailed { place, fault } => {
            let error = Error::Dgram(QueryError::Send(*fault));
            end_by_fault(tables, server, cx, *place, error)
        }
        What::ShortSend { place } => {
            let error = Error::Dgram(QueryError::Send(Fault::ShortSend));
            end_by_fault(tables, server, cx, *place, error)
        }
        What::RecvFailed { place, fault } => {
            let error = Error::Dgram(QueryError::Receive(*fault));
            end_by_fault(tables, server, cx, *place, error)
        }
        What::Datagram { place, octets } => received(tables, server, config, cx, *place, octets),
        _ => Ok(()),
    }
}

/// Gives a request up.
pub(crate) fn give_up<Req: ComposeRequest, W: Words>(
    tables: &mut Tables<Req>,
    server: u32,
    cx: &mut Cx<'_, W>,
    ticket: u64,
) -> Result<(), Error>
    ensures follows { Follows W.stream cx.old cx.new result (plain.drops server ticket tables.old) tables.new }
{
    let Some(stage) = stage_at(&tables.jobs, ticket) else {
        return Ok(());
    };
    match stage {
        Stage::Queued => {
            let _ = tables.jobs.remove(ticket);
            let _ = tables.queue.remove(&ticket);
            Ok(())
        }
        Stage::Opening { place } => {
            let _ = tables.jobs.remove(ticket);
            let _ = tables.places.remove(place);
            cx.outs.push(Out::Close { place })?;
            give_slot_on(tables, server, cx)
        }
        Stage::Sent { place, timer } => {
            forget_sent(tables, place, ticket, timer);
            cx.outs.push(Out::Close { place })?;
            cx.timers.cancel(TimerId(timer));
            give_slot_on(tables, server, cx)
        }
    }
}
