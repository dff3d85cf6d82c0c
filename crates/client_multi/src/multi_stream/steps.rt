//! What happens to the requests and to the connections.

ghost use Rattle.std.specs.Prelude.{◌≡◌, Some, None, Err, IfOk};
ghost use Rattle.client_request.specs.Calls.{Follows};
ghost use Rattle.client_request.specs.Cx.{heard};
ghost use Rattle.client_multi.specs.MultiStream as plain;

use crate::multi_stream::job::{Job, Stage};
use crate::multi_stream::one_stream::OneStream;
use crate::multi_stream::retry::retry_due;
use crate::multi_stream::tables::{
    Tables, await_opening, back_off, keep_connection, put_back, take_at,
};
use client_request::{ComposeRequest, Cx, Error, GetResponse, Out, Signal, TimerId, What, Words};
use client_settings::multi_stream::Config;
use std::alloc::Global;
use std::collections::BTreeSet;
use std::mem;

/// Of the connections that have room the place of the one that was opened last.
fn newest<Req: ComposeRequest, S: OneStream<Req>>(tables: &Tables<Req, S>) -> Option<u64>
    ensures { result ≡ plain.newest S.machine None tables.now.connections }
{
    let mut found = None;
    for (place, connection) in &tables.connections {
        if !connection.is_full() {
            found = Some(place);
        }
    }
    found
}

/// Takes the connection that was opened last, of those that have room, out of the tables.
fn take_with_room<Req: ComposeRequest, S: OneStream<Req>>(
    tables: &mut Tables<Req, S>,
) -> Option<(u64, S)>
    ensures found { result ≡ plain.with_room S.machine tables.old.connections }
    ensures taken { tables.new ≡ plain.without_found S.machine result tables.old }
{
    let place = newest(tables)?;
    let connection = take_at(tables, place)?;
    Some((place, connection))
}

/// A connection takes a request on.
fn hold<Req: ComposeRequest, S: OneStream<Req>, W: Words>(
    tables: &mut Tables<Req, S>,
    cx: &mut Cx<'_, W>,
    ticket: u64,
    job: Job<Req>,
    place: u64,
    connection: S,
) -> Result<(), Error>
    ensures follows { Follows W.stream cx.old cx.new result (plain.holds S.machine ticket job place connection tables.old) tables.new }
{
    let mut board = tables.lend_board();
    let copy = job.request.try_clone(tables.alloc)?;
    cx.request = job.number;
    let (connection, response) = connection.send_request(&mut board, cx, copy)?;
    tables.inner.insert(response.ticket(), ticket)?;
    let job = Job {
        number: job.number,
        request: job.request,
        back_offs: job.back_offs,
        end: job.end,
        stage: Stage::Held { place, response },
    };
    tables.jobs.insert(ticket, job)?;
    put_back(tables, cx, place, connection, &mut board)?;
    tables.board = board;
    Ok(())
}

/// A connection is to be opened, and a request waits for it.
fn open_next<Req: ComposeRequest, S: OneStream<Req>, W: Words>(
    tables: &mut Tables<Req, S>,
    server: u32,
    cx: &mut Cx<'_, W>,
    ticket: u64,
    job: Job<Req>,
) -> Result<(), Error>
    ensures follows { Follows W.stream cx.old cx.new result (plain.opens S.machine server ticket job tables.old) tables.new }
{
    let place = cx.draw_place()?;
    await_opening(tables, ticket, job)?;
    tables.opening = Some(place);
    cx.outs.push(Out::OpenStream { place, server })?;
    Ok(())
}

/// No connection has room for a request.
fn await_room<Req: ComposeRequest, S: OneStream<Req>, W: Words>(
    tables: &mut Tables<Req, S>,
    server: u32,
    cx: &mut Cx<'_, W>,
    ticket: u64,
    job: Job<Req>,
) -> Result<(), Error>
    ensures follows { Follows W.stream cx.old cx.new result (λ v. plain.goes_on S.machine server ticket job tables.old v tables.old.opening) tables.new }
{
    match tables.opening {
        Some(_) => {
            await_opening(tables, ticket, job)?;
            Ok(())
        }
        None => {
            if u128::from(cx.now.0) < tables.calm {
                back_off(tables, cx, ticket, job)
            } else {
                open_next(tables, server, cx, ticket, job)
            }
        }
    }
}

/// Hands a request to the newest connection that has room; where none has, it waits or backs off.
fn hand<Req: ComposeRequest, S: OneStream<Req>, W: Words>(
    tables: &mut Tables<Req, S>,
    server: u32,
    cx: &mut Cx<'_, W>,
    ticket: u64,
    job: Job<Req>,
) -> Result<(), Error>
    ensures follows { Follows W.stream cx.old cx.new result (plain.hands S.machine server ticket job tables.old) tables.new }
{
    match take_with_room(tables) {
        Some((place, connection)) => hold(tables, cx, ticket, job, place, connection),
        None => await_room(tables, server, cx, ticket, job),
    }
}

/// Takes a request on, unless no more are. Its time runs from now.
pub(crate) fn take_on<Req: ComposeRequest, S: OneStream<Req>, W: Words>(
    tables: &mut Tables<Req, S>,
    server: u32,
    config: &Config,
    shut: bool,
    cx: &mut Cx<'_, W>,
    request: Req,
) -> Result<u64, Error>
    ensures follows { Follows W.stream cx.old cx.new result (plain.takes S.machine server config.now shut request tables.old) tables.new }
    ensures ticket { IfOk result (λ ticket. ticket ≡ cx.old.ticket) }
{
    let ticket = cx.draw_ticket()?;
    if shut {
        cx.board.put(ticket, Err(Error::ConnectionClosed))?;
        return Ok(ticket);
    }
    let due = u128::from(cx.now.0) + config.response_timeout().as_micros();
    let timer = cx.timers.set(due)?;
    tables.timers.insert(timer.0, ticket)?;
    let job = Job {
        number: cx.request,
        request,
        back_offs: 0,
        end: timer.0,
        stage: Stage::Waiting,
    };
    hand(tables, server, cx, ticket, job)?;
    Ok(ticket)
}

/// A request that waited goes on.
fn hand_waiting<Req: ComposeRequest, S: OneStream<Req>, W: Words>(
    tables: &mut Tables<Req, S>,
    server: u32,
    cx: &mut Cx<'_, W>,
    ticket: u64,
) -> Result<(), Error>
    ensures follows { Follows W.stream cx.old cx.new result (plain.at_ticket (plain.hands S.machine server) ticket tables.old) tables.new }
{
    let Some(job) = tables.jobs.remove(ticket) else {
        return Ok(());
    };
    hand(tables, server, cx, ticket, job)
}

/// Requests that waited go on, in order of tickets.
fn hand_each<Req: ComposeRequest, S: OneStream<Req>, W: Words>(
    tables: &mut Tables<Req, S>,
    server: u32,
    cx: &mut Cx<'_, W>,
    waiting: BTreeSet<u64>,
) -> Result<(), Error>
    ensures follows { Follows W.stream cx.old cx.new result (plain.each (plain.hands S.machine server) waiting.keys tables.old) tables.new }
{
    let mut waiting = waiting;
    while let Some(ticket) = waiting.pop_first() {
        hand_waiting(tables, server, cx, ticket)?;
    }
    Ok(())
}

/// A request that waited backs off.
fn back_off_waiting<Req: ComposeRequest, S: OneStream<Req>, W: Words>(
    tables: &mut Tables<Req, S>,
    cx: &mut Cx<'_, W>,
    ticket: u64,
) -> Result<(), Error>
    ensures follows { Follows W.stream cx.old cx.new result (plain.at_ticket plain.backs_off ticket tables.old) tables.new }
{
    let Some(job) = tables.jobs.remove(ticket) else {
        return Ok(());
    };
    back_off(tables, cx, ticket, job)
}

/// Requests that waited back off, in order of tickets.
fn back_off_each<Req: ComposeRequest, S: OneStream<Req>, W: Words>(
    tables: &mut Tables<Req, S>,
    cx: &mut Cx<'_, W>,
    tired: BTreeSet<u64>,
) -> Result<(), Error>
    ensures follows { Follows W.stream cx.old cx.new result (plain.each plain.backs_off tired.keys tables.old) tables.new }
{
    let mut tired = tired;
    while let Some(ticket) = tired.pop_first() {
        back_off_waiting(tables, cx, ticket)?;
    }
    Ok(())
}

/// Whether a number is the one that is wanted.
fn is_number(n: u64, own: Option<u64>) -> bool
    ensures { result ≡ plain.is_number n own }
{
    match own {
        None => false,
        Some(own) => n == own,
    }
}

/// A place is open: if it is the one that was to be opened, the requests that wait go on.
fn opened<Req: ComposeRequest, S: OneStream<Req>, W: Words>(
    tables: &mut Tables<Req, S>,
    server: u32,
    config: &Config,
    cx: &mut Cx<'_, W>,
    place: u64,
) -> Result<(), Error>
    ensures follows { Follows W.stream cx.old cx.new result (plain.is_open S.machine server config.now.stream place tables.old) tables.new }
{
    if !is_number(place, tables.opening) {
        return Ok(());
    }
    let connection = S::open(tables.alloc, place, *config.stream())?;
    keep_connection(tables, place, connection)?;
    tables.opening = None;
    tables.refusals = 0;
    tables.calm = 0;
    let waiting = mem::replace(&mut tables.waiting, BTreeSet::new(tables.alloc));
    hand_each(tables, server, cx, waiting)
}

/// A place could not be opened: none is to be opened for a time, and the requests that wait back off.
fn open_failed<Req: ComposeRequest, S: OneStream<Req>, W: Words>(
    tables: &mut Tables<Req, S>,
    cx: &mut Cx<'_, W>,
    place: u64,
) -> Result<(), Error>
    ensures follows { Follows W.stream cx.old cx.new result (plain.open_fails place tables.old) tables.new }
{
    if !is_number(place, tables.opening) {
        return Ok(());
    }
    let word = cx.words.next();
    tables.opening = None;
    tables.calm = retry_due(cx.now, tables.refusals, word);
    tables.refusals = tables.refusals.saturating_add(1);
    let waiting = mem::replace(&mut tables.waiting, BTreeSet::new(tables.alloc));
    back_off_each(tables, cx, waiting)
}

/// The connection at a place hears what happened.
fn hear_at<Req: ComposeRequest, S: OneStream<Req>, W: Words>(
    tables: &mut Tables<Req, S>,
    cx: &mut Cx<'_, W>,
    place: u64,
    signal: Signal<'_>,
) -> Result<(), Error>
    ensures follows { Follows W.stream cx.old cx.new result (plain.calls_at S.machine place (S.machine.calls.step (heard signal.entry)) tables.old) tables.new }
{
    let Some(connection) = take_at(tables, place) else {
        return Ok(());
    };
    let mut board = tables.lend_board();
    let connection = connection.step(&mut board, cx, signal)?;
    put_back(tables, cx, place, connection, &mut board)?;
    tables.board = board;
    Ok(())
}

/// A request is given up at the connection that has it.
fn give_up_at<Req: ComposeRequest, S: OneStream<Req>, W: Words>(
    tables: &mut Tables<Req, S>,
    cx: &mut Cx<'_, W>,
    place: u64,
    response: client_stream::Request,
) -> Result<(), Error>
    ensures follows { Follows W.stream cx.old cx.new result (plain.gives_up_at S.machine place response tables.old) tables.new }
{
    let _ = tables.inner.remove(response.ticket());
    let Some(connection) = take_at(tables, place) else {
        return Ok(());
    };
    let mut board = tables.lend_board();
    let connection = connection.cancel(&mut board, cx, response)?;
    put_back(tables, cx, place, connection, &mut board)?;
    tables.board = board;
    Ok(())
}

/// A request, which is in no table any more, is given up where it is.
fn give_up_in_stage<Req: ComposeRequest, S: OneStream<Req>, W: Words>(
    tables: &mut Tables<Req, S>,
    cx: &mut Cx<'_, W>,
    ticket: u64,
    stage: Stage,
) -> Result<(), Error>
    ensures follows { Follows W.stream cx.old cx.new result (plain.leaves S.machine ticket stage tables.old) tables.new }
{
    match stage {
        Stage::Waiting => {
            let _ = tables.waiting.remove(&ticket);
            Ok(())
        }
        Stage::Resting { timer } => {
            let _ = tables.timers.remove(timer);
            cx.timers.cancel(TimerId(timer));
            Ok(())
        }
        Stage::Held { place, response } => give_up_at(tables, cx, place, response),
    }
}

/// Gives a request up.
pub(crate) fn give_up<Req: ComposeRequest, S: OneStream<Req>, W: Words>(
    tables: &mut Tables<Req, S>,
    cx: &mut Cx<'_, W>,
    ticket: u64,
) -> Result<(), Error>
    ensures follows { Follows W.stream cx.old cx.new result (plain.drops S.machine ticket tables.old) tables.new }
{
    let Some(job) = tables.jobs.remove(ticket) else {
        return Ok(());
    };
    let _ = tables.timers.remove(job.end);
    cx.timers.cancel(TimerId(job.end));
    give_up_in_stage(tables, cx, ticket, job.stage)
}

/// The time of a request, which is in no table any more, is over.
fn time_out<Req: ComposeRequest, S: OneStream<Req>, W: Words>(
    tables: &mut Tables<Req, S>,
    cx: &mut Cx<'_, W>,
    ticket: u64,
    job: Job<Req>,
) -> Result<(), Error>
    ensures follows { Follows W.stream cx.old cx.new result (plain.times_out S.machine ticket job tables.old) tables.new }
{
    give_up_in_stage(tables, cx, ticket, job.stage)?;
    cx.board.put(ticket, Err(Error::StreamReadTimeout))?;
    Ok(())
}

/// A timer of a request fired.
fn fire<Req: ComposeRequest, S: OneStream<Req>, W: Words>(
    tables: &mut Tables<Req, S>,
    server: u32,
    cx: &mut Cx<'_, W>,
    timer: u64,
    ticket: u64,
) -> Result<(), Error>
    ensures follows { Follows W.stream cx.old cx.new result (plain.at_ticket (plain.fires S.machine server timer) ticket tables.old) tables.new }
{
    let Some(job) = tables.jobs.remove(ticket) else {
        return Ok(());
    };
    if timer == job.end {
        time_out(tables, cx, ticket, job)
    } else {
        hand(tables, server, cx, ticket, job)
    }
}

/// A timer fired: one of a request, or of a connection.
fn hear_timer<Req: ComposeRequest, S: OneStream<Req>, W: Words>(
    tables: &mut Tables<Req, S>,
    server: u32,
    cx: &mut Cx<'_, W>,
    timer: u64,
) -> Result<(), Error>
    ensures follows { Follows W.stream cx.old cx.new result (plain.due S.machine server timer tables.old) tables.new }
{
    match tables.timers.remove(timer) {
        Some(ticket) => fire(tables, server, cx, timer, ticket),
        None => match tables.watches.get(timer).copied() {
            None => Ok(()),
            Some(place) => hear_at(tables, cx, place, Signal::Due(TimerId(timer))),
        },
    }
}

/// The place that an event of a stream names.
fn stream_place(what: &What) -> Option<u64>
    ensures { result ≡ plain.stream_place what.now }
{
    match what {
        What::Bytes { place, .. }
        | What::Wrote { place, .. }
        | What::WriteFailed { place, .. }
        | What::ReadFailed { place, .. }
        | What::Ended { place } => Some(*place),
        _ => None,
    }
}

/// What an event does.
fn told<Req: ComposeRequest, S: OneStream<Req>, W: Words>(
    tables: &mut Tables<Req, S>,
    server: u32,
    config: &Config,
    cx: &mut Cx<'_, W>,
    what: &What,
) -> Result<(), Error>
    ensures follows { Follows W.stream cx.old cx.new result (plain.tells S.machine server config.now what.now tables.old) tables.new }
{
    match what {
        What::Opened { place } => opened(tables, server, config, cx, *place),
        What::OpenFailed { place, .. } => open_failed(tables, cx, *place),
        _ => match stream_place(what) {
            None => Ok(()),
            Some(place) => hear_at(tables, cx, place, Signal::Told(what)),
        },
    }
}

/// What a signal does.
pub(crate) fn hear<Req: ComposeRequest, S: OneStream<Req>, W: Words>(
    tables: &mut Tables<Req, S>,
    server: u32,
    config: &Config,
    cx: &mut Cx<'_, W>,
    signal: Signal<'_>,
) -> Result<(), Error>
    ensures follows { Follows W.stream cx.old cx.new result (plain.hears S.machine server config.now (heard signal.entry) tables.old) tables.new }
{
    match signal {
        Signal::Told(what) => told(tables, server, config, cx, what),
        Signal::More { place } => hear_at(tables, cx, place, signal),
        Signal::Due(timer) => hear_timer(tables, server, cx, timer.0),
    }
}
