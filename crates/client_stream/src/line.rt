//! A connection without the octets that come: who holds its ids, who waits, and where it is.

ghost use Rattle.std.specs.Prelude.{◌≡◌, ◌+◌, ◌<◌, ℕ, length, [], Some, None, Ok, Err, IsSome, OnOk, IfOk};
ghost use Rattle.client_request.specs.Calls.{Follows, FollowsStep};
ghost use Rattle.client_request.specs.Cx.{view_of, LendsTheSame};
ghost use Rattle.client_request.specs.View.{sets_timer};
ghost use Rattle.client_stream.specs.Plain as plain;

use crate::queries::Queries;
use crate::request::{AnyRequest, Holder, QueuedRequest};
use client_request::{Board, ComposeRequest, ComposeRequestMulti, Cx, Error, Out, TimerId, Words};
use client_settings::stream::Config;
use dns_base::{Duration, NoMemory, Octets};
use number_table::NumberTable;
use std::alloc::Global;
use std::marker::Model;

/// Where a connection is. It is new until a request or a frame came; active until nobody waits for a
/// frame, with a timer that fires where none comes in time, counted from the moment of its first request
/// or last frame, in microseconds; idle until its idle time has passed; ended for good.
#[derive(Clone, Copy, Debug, PartialEq, Eq)]
pub enum LineStage {
    New,
    Active { timer: u64, since: u64 },
    Idle { timer: u64 },
    Ended,
}

/// Who holds each id, the id of each request that waits for its answer, the requests that were not
/// written yet, and where the connection is. Tickets rise, so the least that is queued came first.
#[derive(Drop)]
pub struct Line<Req, ReqMulti> {
    pub(crate) alloc: Global,
    pub(crate) held: Queries<Holder<Req, ReqMulti>>,
    pub(crate) ids: NumberTable<u16>,
    pub(crate) queue: NumberTable<QueuedRequest<Req, ReqMulti>>,
    /// What is outstanding of the frame that is being written.
    pub(crate) writing: Option<Octets>,
    pub(crate) stage: LineStage,
    /// How long it waits for a frame while it is active, by the request taken last.
    pub(crate) timeout: Duration,
    /// How long it stays open while nobody waits for a frame.
    pub(crate) idle_time: Duration,
    /// Whether the empty option edns-tcp-keepalive was added to a request.
    pub(crate) had_keepalive: bool,
}

impl<Req, ReqMulti> Model for Line<Req, ReqMulti> {
    ghost use Rattle.client_stream.specs.Plain.{Line};

    ghost Value = { Line Req ReqMulti };

    ghost view = { λ s. record {
      held = s.held;
      ids = s.ids;
      queue = s.queue;
      writing = s.writing;
      stage = s.stage;
      timeout = s.timeout;
      idle_time = s.idle_time;
      had_keepalive = s.had_keepalive;
    } };
}

impl<Req: Drop, ReqMulti: Drop> Line<Req, ReqMulti> {
    pub(crate) fn new(alloc: Global, config: &Config) -> Line<Req, ReqMulti>
        ensures { result ≡ plain.fresh_line config.now }
    {
        Line {
            alloc,
            held: Queries::new(alloc),
            ids: NumberTable::new(alloc),
            queue: NumberTable::new(alloc),
            writing: None,
            stage: LineStage::New,
            timeout: config.response_timeout(),
            idle_time: config.idle_timeout(),
            had_keepalive: false,
        }
    }

    /// Whether the connection has ended.
    pub(crate) fn has_ended(&self) -> bool
        ensures { result ≡ plain.has_ended self.now.stage }
    {
        match self.stage {
            LineStage::Ended => true,
            LineStage::New | LineStage::Active { .. } | LineStage::Idle { .. } => false,
        }
    }

    /// The number of the timer that is set, if one is.
    pub(crate) fn timer(&self) -> Option<u64>
        ensures { result ≡ plain.timer_at self.now.stage }
    {
        match self.stage {
            LineStage::Active { timer, .. } | LineStage::Idle { timer } => Some(timer),
            LineStage::New | LineStage::Ended => None,
        }
    }

    /// How many ids are held.
    pub(crate) fn count(&self) -> usize
        ensures { result ≡ length self.now.held.held }
    {
        self.held.count()
    }

    /// Whether no id is held and no request is queued.
    fn has_nothing(&self) -> bool
        ensures { result ≡ plain.has_nothing self.now }
    {
        self.held.is_empty() && self.queue.len() == 0
    }
}

/// Gives an error to those who hold ids, in order.
fn fail_holders<Req: Drop, ReqMulti: Drop>(
    board: &mut Board,
    holders: &Vec<Holder<Req, ReqMulti>>,
    error: Error,
) -> Result<(), NoMemory>
    ensures { OnOk result (board.new ≡ plain.fails_holders error holders.now.items board.old) }
{
    for holder in holders {
        match holder {
            Holder::Waits { ticket, .. } | Holder::Transfers { ticket, .. } => {
                board.put(*ticket, Err(error))?;
            }
            Holder::GivenUp => {}
        }
    }
    Ok(())
}

/// Gives an error to the requests that were not written, in order.
fn fail_queued<Req: Drop, ReqMulti: Drop>(
    board: &mut Board,
    queue: &mut NumberTable<QueuedRequest<Req, ReqMulti>>,
) -> Result<(), NoMemory>
    ensures ok { OnOk result (board.new ≡ plain.fails_queued queue.old board.old) }
    ensures empty { OnOk result (queue.new ≡ []) }
{
    while let Some((ticket, _)) = queue.pop_first() {
        board.put(ticket, Err(Error::StreamReceiveError))?;
    }
    Ok(())
}

/// Drops the timer that is set at a stage.
fn drop_own_timer<W: Words>(cx: &mut Cx<'_, W>, stage: LineStage)
    ensures lends { LendsTheSame cx.old cx.new }
    ensures stopped { view_of W.stream cx.new ≡ plain.drops_own_timer stage (view_of W.stream cx.old) }
{
    match stage {
        LineStage::Active { timer, .. } | LineStage::Idle { timer } => cx
            .timers
            .cancel(TimerId(timer)),
        LineStage::New | LineStage::Ended => {}
    }
}

/// Ends the connection: those who hold an id get an error in order of ids, then the queued requests
/// theirs.
pub(crate) fn end_with<Req: ComposeRequest, ReqMulti: ComposeRequestMulti, W: Words>(
    line: &mut Line<Req, ReqMulti>,
    place: u64,
    cx: &mut Cx<'_, W>,
    error: Error,
) -> Result<(), Error>
    ensures follows { Follows W.stream cx.old cx.new result (plain.ends place error line.old) line.new }
{
    cx.outs.push(Out::Close { place })?;
    drop_own_timer(cx, line.stage);
    let holders = line.held.drain()?;
    fail_holders(cx.board, &holders, error)?;
    fail_queued(cx.board, &mut line.queue)?;
    line.ids.clear();
    line.writing = None;
    line.stage = LineStage::Ended;
    Ok(())
}

/// Sets the timer of a connection anew.
fn renew_timer<W: Words>(cx: &mut Cx<'_, W>, stage: LineStage, due: u128) -> Result<u64, Error>
    ensures follows { FollowsStep cx.old cx.new result (sets_timer due (plain.drops_own_timer stage (view_of W.stream cx.old))) (view_of W.stream cx.new) }
    ensures timer { IfOk result (λ timer. timer ≡ (view_of W.stream cx.old).timers.next) }
{
    drop_own_timer(cx, stage);
    let timer = cx.timers.set(due)?;
    Ok(timer.0)
}

/// The connection is active, and ends one microsecond after the time for a frame has passed since a
/// moment.
fn await_frame_since<Req: ComposeRequest, ReqMulti: ComposeRequestMulti, W: Words>(
    line: &mut Line<Req, ReqMulti>,
    cx: &mut Cx<'_, W>,
    since: u64,
) -> Result<(), Error>
    ensures follows { Follows W.stream cx.old cx.new result (plain.awaits_frame_since since line.old) line.new }
{
    let due = u128::from(since) + line.timeout.as_micros() + 1;
    let timer = renew_timer(cx, line.stage, due)?;
    line.stage = LineStage::Active { timer, since };
    Ok(())
}

/// The connection is active from now on.
pub(crate) fn become_active<Req: ComposeRequest, ReqMulti: ComposeRequestMulti, W: Words>(
    line: &mut Line<Req, ReqMulti>,
    cx: &mut Cx<'_, W>,
) -> Result<(), Error>
    ensures follows { Follows W.stream cx.old cx.new result (plain.becomes_active line.old) line.new }
{
    let now = cx.now.0;
    await_frame_since(line, cx, now)
}

/// The connection is idle from now on.
fn become_idle<Req: ComposeRequest, ReqMulti: ComposeRequestMulti, W: Words>(
    line: &mut Line<Req, ReqMulti>,
    cx: &mut Cx<'_, W>,
) -> Result<(), Error>
    ensures follows { Follows W.stream cx.old cx.new result (plain.becomes_idle line.old) line.new }
{
    let due = u128::from(cx.now.0) + line.idle_time.as_micros();
    let timer = renew_timer(cx, line.stage, due)?;
    line.stage = LineStage::Idle { timer };
    Ok(())
}

/// Where nobody waits for a frame the connection is idle, or ends if it has no idle time.
pub(crate) fn become_idle_if_unused<Req: ComposeRequest, ReqMulti: ComposeRequestMulti, W: Words>(
    line: &mut Line<Req, ReqMulti>,
    place: u64,
    cx: &mut Cx<'_, W>,
) -> Result<(), Error>
    ensures follows { Follows W.stream cx.old cx.new result (plain.becomes_idle_if_unused place line.old) line.new }
{
    if !line.has_nothing() {
        return Ok(());
    }
    if line.idle_time.as_micros() == 0 {
        return end_with(line, place, cx, Error::StreamReceiveError);
    }
    become_idle(line, cx)
}

/// How long an active connection waits for a frame, by the request taken last.
pub(crate) fn timeout_by<Req: Drop, ReqMulti: Drop>(
    config: &Config,
    request: &AnyRequest<Req, ReqMulti>,
) -> Duration
    ensures { result ≡ plain.timeout_by config.now request.now }
{
    match request {
        AnyRequest::Single(_) => config.response_timeout(),
        AnyRequest::Transfer(_) => config.streaming_response_timeout(),
    }
}

/// An active connection waits for a frame as long as this from now on, counted from the same moment.
fn retime<Req: ComposeRequest, ReqMulti: ComposeRequestMulti, W: Words>(
    line: &mut Line<Req, ReqMulti>,
    cx: &mut Cx<'_, W>,
    timeout: Duration,
    since: u64,
) -> Result<(), Error>
    ensures follows { Follows W.stream cx.old cx.new result (plain.retimes timeout since line.old) line.new }
{
    if timeout == line.timeout {
        return Ok(());
    }
    line.timeout = timeout;
    await_frame_since(line, cx, since)
}

/// A request is taken: the connection is active, from now on if it was not, and waits for a frame as
/// long as the request says.
pub(crate) fn become_active_for<Req: ComposeRequest, ReqMulti: ComposeRequestMulti, W: Words>(
    line: &mut Line<Req, ReqMulti>,
    cx: &mut Cx<'_, W>,
    timeout: Duration,
) -> Result<(), Error>
    ensures follows { Follows W.stream cx.old cx.new result (λ v. plain.becomes_active_for timeout line.old v line.old.stage) line.new }
{
    match line.stage {
        LineStage::New | LineStage::Idle { .. } => {
            line.timeout = timeout;
            become_active(line, cx)
        }
        LineStage::Active { since, .. } => retime(line, cx, timeout, since),
        LineStage::Ended => Ok(()),
    }
}

/// A timer fired. Where it is the connection's own it ends: with an error where it was active, else
/// nobody holds an id.
pub(crate) fn end_by_timer<Req: ComposeRequest, ReqMulti: ComposeRequestMulti, W: Words>(
    line: &mut Line<Req, ReqMulti>,
    place: u64,
    cx: &mut Cx<'_, W>,
    fired: u64,
) -> Result<(), Error>
    ensures follows { Follows W.stream cx.old cx.new result (λ v. plain.fires place fired line.old v line.old.stage) line.new }
{
    match line.stage {
        LineStage::Active { timer, .. } if fired == timer => end_with(
            line,
            place,
            cx,
            Error::StreamReadTimeout,
        ),
        LineStage::Idle { timer } if fired == timer => end_with(
            line,
            place,
            cx,
            Error::StreamReceiveError,
        ),
        _ => Ok(()),
    }
}

/// Gives a request up. The id of one that was written stays held until a frame with it comes.
pub(crate) fn give_up<Req: ComposeRequest, ReqMulti: ComposeRequestMulti>(
    line: &mut Line<Req, ReqMulti>,
    ticket: u64,
)
    ensures { line.new ≡ plain.gives_up ticket line.old }
{
    if line.queue.remove(ticket).is_some() {
        return;
    }
    let Some(id) = line.ids.remove(ticket) else {
        return;
    };
    if line.held.try_remove(id).is_some() {
        line.held.insert_at(id, Holder::GivenUp);
    }
}
