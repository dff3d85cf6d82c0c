//! What is known of each request: what was asked, and when; which servers it was handed to; whether it has a reply.

ghost use Rattle.std.specs.Prelude.{◌≡◌, OnOk};
ghost use Rattle.right_trace.specs.Requests as heads;
ghost use Rattle.number_table.specs.Entries.{entry_at};
ghost use Rattle.trace_tables.specs.Requests as plain;

use crate::lists::{Newest, add};
use client_request::{Compose, Event, Out, RequestMessage, Via, What};
use dns_base::{Duration, NoMemory};
use number_table::NumberTable;
use std::alloc::Global;
use std::marker::Model;

/// What was asked, and when, in microseconds.
pub struct Asked {
    pub request: RequestMessage,
    pub moment: u64,
}

impl Drop for Asked {
    fn drop(self) {
        let Asked {
            request: _,
            moment: _,
        } = self;
    }
}

impl Model for Asked {
    ghost use Rattle.right_trace.specs.Requests.{Asking};

    ghost Value = { Asking };

    ghost view = { λ a. record { request = a.request; moment = a.moment } };
}

/// A request was handed to a server so, at a moment in microseconds.
#[derive(Clone, Copy, Debug, Drop)]
pub struct Started {
    pub server: u32,
    pub via: Via,
    pub moment: u64,
}

/// What is known of requests.
pub struct Requests {
    /// By request.
    pub askings: NumberTable<Asked>,
    /// By request.
    pub starts: NumberTable<Newest<Started>>,
    /// Those that have a reply, each with nothing.
    pub replies: NumberTable<()>,
    /// The request whose mark as stale was put last, in the newest row.
    pub marked: Option<u64>,
    /// How many were asked.
    pub asked: u64,
    /// The greatest moment so far, in microseconds.
    pub clock: u64,
}

impl Drop for Requests {
    fn drop(self) {
        let Requests {
            askings: _,
            starts: _,
            replies: _,
            marked: _,
            asked: _,
            clock: _,
        } = self;
    }
}

/// The same way.
pub fn same_via(a: Via, b: Via) -> bool
    ensures { result ≡ heads.same_via a b }
{
    match (a, b) {
        (Via::Dgram, Via::Dgram) | (Via::Stream, Via::Stream) => true,
        _ => false,
    }
}

/// When a start at a server so was, if it is among these.
fn start_among(starts: &Newest<Started>, server: u32, via: Via) -> Option<u64>
    ensures { result ≡ plain.start_of server via starts.now }
{
    for start in starts {
        if same_via(start.via, via) && start.server == server {
            return Some(start.moment);
        }
    }
    None
}

impl Requests {
    /// Before the first row.
    pub fn new(alloc: Global) -> Requests
        ensures { result ≡ plain.nothing }
    {
        Requests {
            askings: NumberTable::new(alloc),
            starts: NumberTable::new(alloc),
            replies: NumberTable::new(alloc),
            marked: None,
            asked: 0,
            clock: 0,
        }
    }

    /// A request is asked at the moment that it is now.
    fn ask(&mut self, alloc: Global, request: &RequestMessage) -> Result<(), NoMemory>
        ensures { OnOk result (self.new ≡ plain.is_asked request.now self.old) }
    {
        let Some(asked) = self.asked.checked_add(1) else {
            return Err(NoMemory);
        };
        let asking = Asked {
            request: request.try_clone(alloc)?,
            moment: self.clock,
        };
        if self.askings.insert(self.asked, asking).is_err() {
            return Err(NoMemory);
        }
        self.asked = asked;
        Ok(())
    }

    /// An event comes.
    pub fn meet(&mut self, alloc: Global, event: &Event) -> Result<(), NoMemory>
        ensures { OnOk result (self.new ≡ plain.met event.now self.old) }
    {
        self.clock = event.moment.0.max(self.clock);
        self.marked = None;
        match &event.what {
            What::Ask { request } => self.ask(alloc, request),
            _ => Ok(()),
        }
    }

    /// An out is put.
    pub fn put(&mut self, alloc: Global, out: &Out) -> Result<(), NoMemory>
        ensures { OnOk result (self.new ≡ plain.has_put out.now self.old) }
    {
        self.marked = None;
        match out {
            Out::Start {
                request,
                server,
                via,
            } => {
                let start = Started {
                    server: *server,
                    via: *via,
                    moment: self.clock,
                };
                add(&mut self.starts, alloc, *request, start)
            }
            Out::Stale { request } => {
                self.marked = Some(*request);
                Ok(())
            }
            Out::Reply { request, .. } => {
                if self.replies.insert(*request, ()).is_err() {
                    return Err(NoMemory);
                }
                Ok(())
            }
            _ => Ok(()),
        }
    }

    /// When a request was last handed to a server so.
    pub fn start(&self, request: u64, server: u32, via: Via) -> Option<u64>
        ensures { result ≡ plain.start_seen request server via self.now }
    {
        start_among(self.starts.get(request)?, server, via)
    }

    /// Whether a request was handed to a server so.
    pub fn is_started(&self, request: u64, server: u32, via: Via) -> bool
        ensures { result ≡ plain.started_seen request server via self.now }
    {
        self.start(request, server, via).is_some()
    }

    /// Whether a request has a reply.
    pub fn is_replied(&self, request: u64) -> bool
        ensures { result ≡ plain.replied_seen request self.now }
    {
        self.replies.contains_key(request)
    }

    /// Whether a request's mark as stale was put last, in the newest row.
    pub fn is_marked(&self, request: u64) -> bool
        ensures { result ≡ plain.marked_seen request self.now }
    {
        match self.marked {
            None => false,
            Some(marked) => marked == request,
        }
    }

    /// Whether the timeout of a request has passed.
    pub fn is_past_deadline(&self, request: u64, timeout: Duration) -> bool
        ensures { result ≡ plain.deadline_seen timeout request self.now }
    {
        match self.askings.get(request) {
            None => false,
            Some(asking) => u128::from(asking.moment) + timeout.as_micros()
                <= u128::from(self.clock),
        }
    }
}
