//! The requests that wait for their reply.

ghost use Rattle.std.specs.Prelude.{◌≡◌, ◌<◌, ◌-◌, Some, None, Err, Ok, OnOk, IfErr, option_map};
ghost use Rattle.client_request.specs.Cx.{view_of, LendsTheSame};
ghost use Rattle.client_steps.specs.Client as plain;
ghost use Rattle.client_request.specs.Numbered.{entry_at};

use client_request::{Cx, Error, Out, Posted, TimerId, Words};
use dns_base::{Message, NoMemory};
use number_table::NumberTable;
use std::alloc::Global;
use std::marker::Model;

/// A request that waits: the number that its reply will have, its deadline's timer, and what stands for
/// its result.
#[derive(Drop)]
pub struct Waiting<P> {
    /// The number that its reply will name. Requests are numbered from 0, in the order in which they are asked.
    pub number: u64,
    /// The number of the timer that fires when its timeout is over.
    pub timer: u64,
    /// What stands for its result at the transport.
    pub response: P,
}

/// The requests that wait, by the ticket of their response, the ticket of each deadline, and the number
/// of the next request.
pub struct Asked<P> {
    waiting: NumberTable<Waiting<P>>,
    deadlines: NumberTable<u64>,
    next: u64,
}

impl<P: Drop> Drop for Asked<P> {
    fn drop(self) {
        let Asked {
            waiting: _,
            deadlines: _,
            next: _,
        } = self;
    }
}

impl<P> Model for Asked<P> {
    ghost use Rattle.client_steps.specs.Client.{Asked};

    ghost Value = { Asked P };

    ghost view = { λ a. record { waiting = a.waiting; deadlines = a.deadlines; next = a.next } };
}

/// The result that a part is, for a request of one message.
fn result_of(part: Result<Option<Message>, Error>) -> Result<Message, Error>
    ensures { result ≡ plain.result_of part }
{
    match part {
        Ok(Some(message)) => Ok(message),
        Ok(None) => Err(Error::ConnectionClosed),
        Err(error) => Err(error),
    }
}

impl<P: Drop> Asked<P> {
    /// No request waits. It takes no memory.
    pub fn new(alloc: Global) -> Asked<P>
        ensures { result ≡ plain.nothing_asked }
    {
        Asked {
            waiting: NumberTable::new(alloc),
            deadlines: NumberTable::new(alloc),
            next: 0,
        }
    }

    /// The number of the next request.
    pub fn next(&self) -> u64
        ensures { result ≡ self.now.next }
    {
        self.next
    }

    /// Takes out a request that waits, with its deadline.
    fn take(&mut self, ticket: u64) -> Option<Waiting<P>>
        ensures value { result ≡ entry_at ticket self.old.waiting }
        ensures after { self.new ≡ plain.without_request ticket (entry_at ticket self.old.waiting) self.old }
    {
        let waiting = self.waiting.remove(ticket)?;
        let _ = self.deadlines.remove(waiting.timer);
        Some(waiting)
    }

    /// Takes out the request whose deadline has a timer.
    pub(crate) fn take_late(&mut self, timer: u64) -> Option<Option<Waiting<P>>>
        ensures value { result ≡ option_map (λ ticket. entry_at ticket self.old.waiting) (entry_at timer self.old.deadlines) }
        ensures after { self.new ≡ plain.without_late timer (entry_at timer self.old.deadlines) self.old }
    {
        let ticket = self.deadlines.remove(timer)?;
        Some(self.waiting.remove(ticket))
    }

    /// Keeps a request that waits. Its number is that of the next request.
    pub(crate) fn wait(&mut self, ticket: u64, waiting: Waiting<P>) -> Result<(), Error>
        requires { waiting.number < 18446744073709551615 }
        ensures ok { OnOk result (self.new ≡ plain.waits ticket waiting.timer waiting self.old) }
        ensures want { IfErr result (λ e. e ≡ Error.NoMemory) }
    {
        let (timer, next) = (waiting.timer, waiting.number + 1);
        if self.waiting.insert(ticket, waiting).is_err() {
            return Err(Error::NoMemory);
        }
        if self.deadlines.insert(timer, ticket).is_err() {
            return Err(Error::NoMemory);
        }
        self.next = next;
        Ok(())
    }
}

/// The request whose result was put first gets its reply, marked where that is an expired message.
fn reply_first<P: Drop, W: Words>(asked: &mut Asked<P>, cx: &mut Cx<'_, W>) -> Result<(), NoMemory>
    ensures lends { LendsTheSame cx.old cx.new }
    ensures ok { OnOk result ((asked.new, view_of W.stream cx.new) ≡ plain.replies_first (asked.old, view_of W.stream cx.old)) }
{
    let Some(
        Posted {
            ticket,
            part,
            is_stale,
        },
    ) = cx.board.take_first()
    else {
        return Ok(());
    };
    let Some(waiting) = asked.take(ticket) else {
        return Ok(());
    };
    cx.timers.cancel(TimerId(waiting.timer));
    if is_stale {
        cx.outs.push(Out::Stale {
            request: waiting.number,
        })?;
    }
    cx.outs.push(Out::Reply {
        request: waiting.number,
        result: result_of(part),
    })
}

/// Each request whose result stands on the board gets its reply.
pub(crate) fn reply_all<P: Drop, W: Words>(
    asked: &mut Asked<P>,
    cx: &mut Cx<'_, W>,
) -> Result<(), NoMemory>
    ensures lends { LendsTheSame cx.old cx.new }
    ensures ok { OnOk result ((asked.new, view_of W.stream cx.new) ≡ plain.replies (asked.old, view_of W.stream cx.old)) }
{
    let mut left = cx.board.len();
    while left > 0 {
        reply_first(asked, cx)?;
        left -= 1;
    }
    Ok(())
}
