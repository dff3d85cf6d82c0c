//! Requests that are taken and written.

ghost use Rattle.std.specs.Prelude.{◌≡◌, Some, Ok, IfOk};
ghost use Rattle.client_request.specs.Calls.{Follows};
ghost use Rattle.client_request.specs.View.{asks};
ghost use Rattle.client_stream.specs.Calls.{Leaves};
ghost use Rattle.client_stream.specs.declared.request.AnyRequest.TheVariants as any;
ghost use Rattle.client_stream.specs.Plain as plain;

use crate::composing::prepare_frame;
use crate::line::{Line, become_active_for, end_with, timeout_by};
use crate::request::{AnyRequest, Holder, QueuedRequest};
use crate::transfer::first_state;
use client_request::{ComposeRequest, ComposeRequestMulti, Cx, Error, Fault, Out, Words};
use client_settings::stream::Config;
use client_transfer::XfrState;
use dns_base::{NoMemory, Octets};

/// Writes a frame for who is to hold an id, or gives the result where there is none since the message is
/// too long. The id is free again then.
fn write_frame<Req: ComposeRequest, ReqMulti: ComposeRequestMulti, W: Words>(
    line: &mut Line<Req, ReqMulti>,
    place: u64,
    cx: &mut Cx<'_, W>,
    ticket: u64,
    number: u64,
    id: u16,
    holder: Holder<Req, ReqMulti>,
    frame: Option<Octets>,
) -> Result<(), NoMemory>
    ensures leaves { Leaves W.stream cx.old cx.new result (λ v. plain.writes Req.requests ReqMulti.requests place ticket number id holder line.old v frame) line.new }
{
    let Some(frame) = frame else {
        if line.held.insert(Holder::GivenUp).is_err() {
            return Err(NoMemory);
        }
        let _ = line.held.try_remove(id);
        return cx.board.put(ticket, Err(Error::StreamLongMessage));
    };
    line.writing = Some(frame.try_clone()?);
    if line.held.insert(holder).is_err() {
        return Err(NoMemory);
    }
    line.ids.insert(ticket, id)?;
    cx.outs.push(Out::Write {
        place,
        request: number,
        id,
        octets: frame,
    })
}

/// Writes a request that one message answers, if there is an id for it.
fn write_single<Req: ComposeRequest, ReqMulti: ComposeRequestMulti, W: Words>(
    line: &mut Line<Req, ReqMulti>,
    place: u64,
    cx: &mut Cx<'_, W>,
    ticket: u64,
    number: u64,
    mut request: Req,
) -> Result<(), NoMemory>
    ensures leaves { Leaves W.stream cx.old cx.new result (plain.prepares Req.requests ReqMulti.requests place ticket number (any.Single request) line.old) line.new }
{
    let Some(id) = line.held.next_id() else {
        return cx
            .board
            .put(ticket, Err(Error::StreamTooManyOutstandingQueries));
    };
    let frame = prepare_frame(line.alloc, &mut line.had_keepalive, id, &mut request)?;
    let holder = Holder::Waits { ticket, request };
    write_frame(line, place, cx, ticket, number, id, holder, frame)
}

/// Writes a transfer, if there is an id for it.
fn write_transfer<Req: ComposeRequest, ReqMulti: ComposeRequestMulti, W: Words>(
    line: &mut Line<Req, ReqMulti>,
    place: u64,
    cx: &mut Cx<'_, W>,
    ticket: u64,
    number: u64,
    mut request: ReqMulti,
    state: XfrState,
) -> Result<(), NoMemory>
    ensures leaves { Leaves W.stream cx.old cx.new result (λ v. plain.starts_transfer Req.requests ReqMulti.requests place ticket number request line.old v (Ok state)) line.new }
{
    let Some(id) = line.held.next_id() else {
        return cx
            .board
            .put(ticket, Err(Error::StreamTooManyOutstandingQueries));
    };
    let frame = prepare_frame(line.alloc, &mut line.had_keepalive, id, &mut request)?;
    let holder = Holder::Transfers {
        ticket,
        request,
        state,
    };
    write_frame(line, place, cx, ticket, number, id, holder, frame)
}

/// Begins a transfer, or gives the result where it asks for none.
fn start_transfer<Req: ComposeRequest, ReqMulti: ComposeRequestMulti, W: Words>(
    line: &mut Line<Req, ReqMulti>,
    place: u64,
    cx: &mut Cx<'_, W>,
    ticket: u64,
    number: u64,
    request: ReqMulti,
) -> Result<(), NoMemory>
    ensures leaves { Leaves W.stream cx.old cx.new result (plain.prepares Req.requests ReqMulti.requests place ticket number (any.Transfer request) line.old) line.new }
{
    match first_state(&request)? {
        Ok(state) => write_transfer(line, place, cx, ticket, number, request, state),
        Err(error) => cx.board.put(ticket, Err(error)),
    }
}

/// A request is taken from the queue: it is written, if there is an id for it.
fn take_queued<Req: ComposeRequest, ReqMulti: ComposeRequestMulti, W: Words>(
    line: &mut Line<Req, ReqMulti>,
    place: u64,
    config: &Config,
    cx: &mut Cx<'_, W>,
    ticket: u64,
    waiting: QueuedRequest<Req, ReqMulti>,
) -> Result<(), Error>
    ensures follows { Follows W.stream cx.old cx.new result (plain.takes_queued Req.requests ReqMulti.requests place config.now ticket waiting line.old) line.new }
{
    become_active_for(line, cx, timeout_by(config, &waiting.request))?;
    let QueuedRequest { number, request } = waiting;
    match request {
        AnyRequest::Single(request) => write_single(line, place, cx, ticket, number, request)?,
        AnyRequest::Transfer(request) => start_transfer(line, place, cx, ticket, number, request)?,
    }
    Ok(())
}

/// Takes requests from the queue in order until one is being written.
fn pump<Req: ComposeRequest, ReqMulti: ComposeRequestMulti, W: Words>(
    line: &mut Line<Req, ReqMulti>,
    place: u64,
    config: &Config,
    cx: &mut Cx<'_, W>,
) -> Result<(), Error>
    ensures follows { Follows W.stream cx.old cx.new result (plain.pumps Req.requests ReqMulti.requests place config.now line.old.queue line.old) line.new }
{
    while line.writing.is_none() {
        let Some((ticket, waiting)) = line.queue.pop_first() else {
            return Ok(());
        };
        take_queued(line, place, config, cx, ticket, waiting)?;
    }
    Ok(())
}

/// Takes a request on: it is queued, and written where nothing else is.
pub(crate) fn take_on<Req: ComposeRequest, ReqMulti: ComposeRequestMulti, W: Words>(
    line: &mut Line<Req, ReqMulti>,
    place: u64,
    config: &Config,
    cx: &mut Cx<'_, W>,
    request: AnyRequest<Req, ReqMulti>,
) -> Result<u64, Error>
    ensures follows { Follows W.stream cx.old cx.new result (plain.takes_on Req.requests ReqMulti.requests place config.now request line.old) line.new }
    ensures ticket { IfOk result (λ ticket. ticket ≡ cx.old.ticket) }
{
    let ticket = cx.draw_ticket()?;
    let waiting = QueuedRequest {
        number: cx.request,
        request,
    };
    if line.has_ended() {
        cx.board.put(ticket, Err(Error::ConnectionClosed))?;
        return Ok(ticket);
    }
    line.queue.insert(ticket, waiting)?;
    pump(line, place, config, cx)?;
    Ok(ticket)
}

/// The rest of what was outstanding is written on.
fn resume<Req: ComposeRequest, ReqMulti: ComposeRequestMulti, W: Words>(
    line: &mut Line<Req, ReqMulti>,
    place: u64,
    cx: &mut Cx<'_, W>,
    rest: Octets,
) -> Result<(), NoMemory>
    ensures leaves { Leaves W.stream cx.old cx.new result (λ v. (record line.old { writing = Some rest }, asks (Out.Resume place rest) v)) line.new }
{
    line.writing = Some(rest.try_clone()?);
    cx.outs.push(Out::Resume {
        place,
        octets: rest,
    })
}

/// So many octets of what was outstanding were taken. None at all is a fault.
pub(crate) fn wrote<Req: ComposeRequest, ReqMulti: ComposeRequestMulti, W: Words>(
    line: &mut Line<Req, ReqMulti>,
    place: u64,
    config: &Config,
    cx: &mut Cx<'_, W>,
    count: u64,
) -> Result<(), Error>
    ensures follows { Follows W.stream cx.old cx.new result (λ v. plain.wrote Req.requests ReqMulti.requests place config.now count line.old v line.old.writing) line.new }
{
    let Some(octets) = line.writing.take() else {
        return Ok(());
    };
    if count == 0 {
        let error = Error::StreamWriteError(Fault::NothingTaken);
        return end_with(line, place, cx, error);
    }
    if octets.as_slice().len() as u64 <= count {
        return pump(line, place, config, cx);
    }
    let rest = octets.skipping(count as usize)?;
    resume(line, place, cx, rest)?;
    Ok(())
}
