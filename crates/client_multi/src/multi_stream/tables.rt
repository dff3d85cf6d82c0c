//! The requests that wait for their results, where each is, and the connections.

ghost use Rattle.std.specs.Prelude.{◌≡◌, Some, Err, OnOk, Option, Result, Ok, []};
ghost use Rattle.client_request.specs.Calls.{Follows};
ghost use Rattle.client_request.specs.Numbered.{entry_at};
ghost use Rattle.client_multi.specs.MultiStream as plain;

use crate::multi_stream::job::{Job, Stage};
use crate::multi_stream::one_stream::OneStream;
use crate::multi_stream::retry::retry_due;
use client_request::{Board, ComposeRequest, Cx, Error, Posted, TimerId, Words};
use dns_base::{Message, NoMemory};
use number_table::NumberTable;
use std::alloc::Global;
use std::collections::BTreeSet;
use std::marker::Model;
use std::mem;

/// The requests by ticket; the ticket of each timer, and of each ticket at a connection; those that wait
/// for a connection to open; the connections by place, and the place of each timer of one. Tickets and places rise, so the least ticket
/// came first, and the greatest place was opened last.
#[derive(Drop)]
pub struct Tables<Req, S> {
    pub(crate) alloc: Global,
    pub(crate) jobs: NumberTable<Job<Req>>,
    pub(crate) timers: NumberTable<u64>,
    pub(crate) inner: NumberTable<u64>,
    pub(crate) waiting: BTreeSet<u64>,
    pub(crate) connections: NumberTable<S>,
    pub(crate) watches: NumberTable<u64>,
    /// The place that opens.
    pub(crate) opening: Option<u64>,
    /// How often none was opened since one was; the count stands still at its last value.
    pub(crate) refusals: u64,
    /// The moment before which none is to be opened, in microseconds.
    pub(crate) calm: u128,
    /// Where a connection posts during a call, kept for its memory alone.
    pub(crate) board: Board,
}

impl<Req, S> Model for Tables<Req, S> {
    ghost use Rattle.client_multi.specs.MultiStream.{Tables};

    ghost Value = { Tables Req S };

    ghost view = { λ s. record {
      jobs = s.jobs;
      timers = s.timers;
      inner = s.inner;
      waiting = s.waiting.keys;
      connections = s.connections;
      watches = s.watches;
      opening = s.opening;
      refusals = s.refusals;
      calm = s.calm;
    } };
}

impl<Req, S> Tables<Req, S> {
    /// No request waits, and no connection is open. It takes no memory.
    pub fn new(alloc: Global) -> Tables<Req, S>
        ensures { result ≡ plain.fresh }
    {
        Tables {
            alloc,
            jobs: NumberTable::new(alloc),
            timers: NumberTable::new(alloc),
            inner: NumberTable::new(alloc),
            waiting: BTreeSet::new(alloc),
            connections: NumberTable::new(alloc),
            watches: NumberTable::new(alloc),
            opening: None,
            refusals: 0,
            calm: 0,
            board: Board::new(alloc),
        }
    }

    /// The board on which a connection is to post during a call. It is put back as `board` once what was posted
    /// is taken; where the call gives up it may be lost.
    pub(crate) fn lend_board(&mut self) -> Board
        ensures value { result ≡ [] }
        ensures tables { self.new ≡ self.old }
    {
        let mut board = mem::replace(&mut self.board, Board::new(self.alloc));
        board.clear();
        board
    }
}

/// A request waits for the connection that opens.
pub(crate) fn await_opening<Req: ComposeRequest, S: OneStream<Req>>(
    tables: &mut Tables<Req, S>,
    ticket: u64,
    mut job: Job<Req>,
) -> Result<(), NoMemory>
    ensures { OnOk result (tables.new ≡ plain.waits ticket job tables.old) }
{
    job.stage = Stage::Waiting;
    tables.jobs.insert(ticket, job)?;
    tables.waiting.insert(ticket)?;
    Ok(())
}

/// A request that backs off once more.
fn once_more<Req>(mut job: Job<Req>) -> Job<Req>
    ensures { result ≡ plain.once_more job }
{
    job.back_offs = job.back_offs.saturating_add(1);
    job
}

/// A request backs off until a timer fires.
fn back_off_until<Req: ComposeRequest, S: OneStream<Req>>(
    tables: &mut Tables<Req, S>,
    ticket: u64,
    mut job: Job<Req>,
    timer: u64,
) -> Result<(), NoMemory>
    ensures { OnOk result (tables.new ≡ plain.rests ticket job timer tables.old) }
{
    job.stage = Stage::Resting { timer };
    tables.jobs.insert(ticket, job)?;
    tables.timers.insert(timer, ticket)?;
    Ok(())
}

/// A request backs off.
pub(crate) fn back_off<Req: ComposeRequest, S: OneStream<Req>, W: Words>(
    tables: &mut Tables<Req, S>,
    cx: &mut Cx<'_, W>,
    ticket: u64,
    job: Job<Req>,
) -> Result<(), Error>
    ensures follows { Follows W.stream cx.old cx.new result (plain.backs_off ticket job tables.old) tables.new }
{
    let job = once_more(job);
    let word = cx.words.next();
    let timer = cx.timers.set(retry_due(cx.now, job.back_offs, word))?;
    back_off_until(tables, ticket, job, timer.0)?;
    Ok(())
}

/// Whether what a connection posted is the result of its request.
fn is_result(part: &Result<Option<Message>, Error>) -> bool
    ensures { result ≡ plain.is_result part.now }
{
    match part {
        Ok(_) | Err(Error::WrongReplyForQuery) => true,
        Err(_) => false,
    }
}

/// A connection posted something for a request, which is in no table any more.
fn get_part<Req: ComposeRequest, S: OneStream<Req>, W: Words>(
    tables: &mut Tables<Req, S>,
    cx: &mut Cx<'_, W>,
    ticket: u64,
    job: Job<Req>,
    part: Result<Option<Message>, Error>,
) -> Result<(), Error>
    ensures follows { Follows W.stream cx.old cx.new result (plain.gets_part (plain.is_result part) ticket job part tables.old) tables.new }
{
    if is_result(&part) {
        let _ = tables.timers.remove(job.end);
        cx.timers.cancel(TimerId(job.end));
        cx.board.put(ticket, part)?;
        return Ok(());
    }
    back_off(tables, cx, ticket, job)
}

/// Takes one of the parts that a connection posted.
fn collect_one<Req: ComposeRequest, S: OneStream<Req>, W: Words>(
    tables: &mut Tables<Req, S>,
    cx: &mut Cx<'_, W>,
    posted: Posted,
) -> Result<(), Error>
    ensures follows { Follows W.stream cx.old cx.new result (plain.collects_one posted tables.old) tables.new }
{
    let Posted {
        ticket: inner,
        part,
        ..
    } = posted;
    let Some(ticket) = tables.inner.remove(inner) else {
        return Ok(());
    };
    let Some(job) = tables.jobs.remove(ticket) else {
        return Ok(());
    };
    get_part(tables, cx, ticket, job, part)
}

/// Takes what a connection posted, in order.
fn collect<Req: ComposeRequest, S: OneStream<Req>, W: Words>(
    tables: &mut Tables<Req, S>,
    cx: &mut Cx<'_, W>,
    board: &mut Board,
) -> Result<(), Error>
    ensures follows { Follows W.stream cx.old cx.new result (plain.collects board.old tables.old) tables.new }
{
    while let Some(posted) = board.take_first() {
        collect_one(tables, cx, posted)?;
    }
    Ok(())
}

/// Keeps a connection at its place.
pub(crate) fn keep_connection<Req: ComposeRequest, S: OneStream<Req>>(
    tables: &mut Tables<Req, S>,
    place: u64,
    connection: S,
) -> Result<(), NoMemory>
    ensures { OnOk result (tables.new ≡ plain.keeps S.machine place connection tables.old) }
{
    if let Some(timer) = connection.timer() {
        tables.watches.insert(timer, place)?;
    }
    tables.connections.insert(place, connection)?;
    Ok(())
}

/// Takes the connection of a place out of the tables.
pub(crate) fn take_at<Req: ComposeRequest, S: OneStream<Req>>(
    tables: &mut Tables<Req, S>,
    place: u64,
) -> Option<S>
    ensures found { result ≡ entry_at place tables.old.connections }
    ensures taken { tables.new ≡ plain.without_at S.machine place result tables.old }
{
    let connection = tables.connections.remove(place)?;
    if let Some(timer) = connection.timer() {
        let _ = tables.watches.remove(timer);
    }
    Some(connection)
}

/// A call of a connection, which was taken out of the tables, is over: what it posted is taken, and it is
/// put back unless it has ended.
pub(crate) fn put_back<Req: ComposeRequest, S: OneStream<Req>, W: Words>(
    tables: &mut Tables<Req, S>,
    cx: &mut Cx<'_, W>,
    place: u64,
    connection: S,
    board: &mut Board,
) -> Result<(), Error>
    ensures follows { Follows W.stream cx.old cx.new result (plain.collects board.old (plain.with_connection S.machine place connection tables.old)) tables.new }
{
    if !connection.is_closed() {
        keep_connection(tables, place, connection)?;
    }
    collect(tables, cx, board)
}
