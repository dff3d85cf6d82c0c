//! A request of a choice: which servers are still to be started, and what those that were started gave.

ghost use Rattle.std.specs.Prelude.{◌≡◌, OnOk};
ghost use Rattle.client_choice.specs.Choice as plain;

use crate::servers::Reply;
use client_request::Part;
use dns_base::NoMemory;
use std::collections::VecDeque;
use std::marker::Model;

/// A server that a request may be started at: its index, and how long it is expected to take, in
/// microseconds.
#[derive(Clone, Copy, Debug, PartialEq, Eq)]
pub struct ListedServer {
    /// Its place among the servers, from 0.
    pub server: usize,
    /// How long it is expected to take, in microseconds.
    pub estimate: u64,
}

/// A server at which a request was started.
#[derive(Drop)]
pub struct Started<P> {
    /// Its place among the servers, from 0.
    pub server: usize,
    /// When the request was started there, in microseconds.
    pub since: u64,
    /// The ticket of the request there.
    pub lower: u64,
    /// What stands for the result, until it came.
    pub response: Option<P>,
}

/// A request that waits for its result.
#[derive(Drop)]
pub struct ChoiceJob<Req, P> {
    /// The number that its outs name.
    pub(crate) number: u64,
    /// The request, for the servers that are still to be started.
    pub(crate) request: Req,
    /// The servers that are still to be started, in order.
    pub(crate) left: VecDeque<ListedServer>,
    /// The servers that were started, in order.
    pub(crate) started: Vec<Started<P>>,
    /// The timer that starts the next server.
    pub(crate) timer: Option<u64>,
    /// Of the results that were put off the one to give where no better one comes.
    pub(crate) deferred: Option<Part>,
}

impl<Req, P> Model for ChoiceJob<Req, P> {
    ghost use Rattle.client_choice.specs.Choice.{ChoiceJob};

    ghost Value = { ChoiceJob Req P };

    ghost view = { λ j. record {
      number = j.number;
      request = j.request;
      left = j.left.items;
      started = j.started.items;
      timer = j.timer;
      deferred = j.deferred;
    } };
}

/// Whether a result is better than the one to give so far: a message is better than an error, and of
/// two of a kind the first.
fn is_better(kept: &Option<Part>, part: &Part) -> bool
    ensures { result ≡ plain.is_better kept.now part.now }
{
    match kept {
        None => true,
        Some(Ok(_)) => false,
        Some(Err(_)) => part.is_ok(),
    }
}

/// The place of a server among those that were started.
fn place_of<P>(started: &[Started<P>], server: usize) -> Option<usize>
    ensures { result ≡ plain.place_of server started.now }
{
    started.iter().position(|s| s.server == server)
}

/// Whether each server that was started gave a result.
fn all_gave<P>(started: &[Started<P>]) -> bool
    ensures { result ≡ plain.all_gave started.now }
{
    started.iter().all(|s| s.response.is_none())
}

impl<Req: Drop, P: Drop> ChoiceJob<Req, P> {
    /// Puts a result off.
    pub(crate) fn put_off(&mut self, part: Part)
        ensures { self.new ≡ plain.put_off part self.old }
    {
        if is_better(&self.deferred, &part) {
            self.deferred = Some(part);
        }
    }

    /// A server was started, and this is what the request got there.
    pub(crate) fn note(
        &mut self,
        server: usize,
        since: u64,
        lower: u64,
        response: Option<P>,
    ) -> Result<(), NoMemory>
        ensures { OnOk result (self.new ≡ plain.noted server since lower response self.old) }
    {
        let started = Started {
            server,
            since,
            lower,
            response,
        };
        self.started.push(started)?;
        Ok(())
    }

    /// A server gave its result.
    pub(crate) fn mark_given(&mut self, server: usize)
        ensures { self.new ≡ plain.settled server self.old }
    {
        let Some(place) = place_of(&self.started, server) else {
            return;
        };
        if let Some(started) = self.started.get_mut(place) {
            started.response = None;
        }
    }

    /// Whether a server is the one that was started last.
    pub(crate) fn is_last(&self, server: usize) -> bool
        ensures { result ≡ plain.is_last server self.now }
    {
        match self.started.last() {
            None => false,
            Some(last) => last.server == server,
        }
    }

    /// Whether each server was started and gave a result.
    pub(crate) fn is_over(&self) -> bool
        ensures { result ≡ plain.is_over self.now }
    {
        self.left.is_empty() && all_gave(&self.started)
    }
}

/// What stands for the result of a request that was started, where it has none yet; and its result.
pub(crate) fn parted<P: Drop>(reply: Option<Reply<P>>) -> (Option<P>, Option<Part>)
    ensures { result ≡ plain.parted reply }
{
    match reply {
        None => (None, None),
        Some(Reply::Later(response)) => (Some(response), None),
        Some(Reply::Now(part)) => (None, Some(part)),
    }
}
