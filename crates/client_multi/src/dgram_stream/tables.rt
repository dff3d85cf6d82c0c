//! The requests of a fallback, and what is below it.

ghost use Rattle.std.specs.Prelude.{◌≡◌, OnOk, IfErr, []};
ghost use Rattle.client_request.specs.Numbered.{entry_at};
ghost use Rattle.client_multi.specs.Fallback as plain;

use crate::dgram_stream::job::Job;
use client_request::{Board, Error, SendRequest};
use number_table::NumberTable;
use std::alloc::Global;
use std::marker::Model;

/// The requests that wait by ticket, and the ticket of each by that under which its result comes from
/// below.
#[derive(Drop)]
pub struct Tables<Req, P, Q> {
    jobs: NumberTable<Job<Req, P, Q>>,
    tickets: NumberTable<u64>,
}

impl<Req, P, Q> Model for Tables<Req, P, Q> {
    ghost use Rattle.client_multi.specs.Fallback.{Tables};

    ghost Value = { Tables Req P Q };

    ghost view = { λ t. record { jobs = t.jobs; tickets = t.tickets } };
}

impl<Req, P, Q> Tables<Req, P, Q> {
    /// No request waits. It takes no memory.
    pub(crate) fn new(alloc: Global) -> Tables<Req, P, Q>
        ensures { result ≡ plain.fresh }
    {
        Tables {
            jobs: NumberTable::new(alloc),
            tickets: NumberTable::new(alloc),
        }
    }
}

impl<Req: Drop, P: Drop, Q: Drop> Tables<Req, P, Q> {
    /// Keeps a request that waits.
    pub(crate) fn admit(&mut self, ticket: u64, job: Job<Req, P, Q>) -> Result<(), Error>
        ensures ok { OnOk result (self.new ≡ plain.admits ticket job self.old) }
        ensures want { IfErr result (λ e. e ≡ Error.NoMemory) }
    {
        let lower = job.lower();
        self.jobs.insert(ticket, job)?;
        self.tickets.insert(lower, ticket)?;
        Ok(())
    }

    /// Takes out the request whose result came under a ticket from below, with its own ticket.
    pub(crate) fn take_below(&mut self, lower: u64) -> Option<(u64, Job<Req, P, Q>)>
        ensures value { result ≡ plain.waiting_below lower self.old }
        ensures after { self.new ≡ plain.without_below lower self.old }
    {
        let ticket = self.tickets.remove(lower)?;
        let job = self.jobs.remove(ticket)?;
        Some((ticket, job))
    }

    /// Takes a request out.
    pub(crate) fn take_job(&mut self, ticket: u64) -> Option<Job<Req, P, Q>>
        ensures value { result ≡ entry_at ticket self.old.jobs }
        ensures after { self.new ≡ plain.without ticket self.old }
    {
        let job = self.jobs.remove(ticket)?;
        let _ = self.tickets.remove(job.lower());
        Some(job)
    }
}

/// Where each transport posts during a call. The boards are kept for their memory alone: each call clears them
/// first.
#[derive(Drop)]
pub struct Boards {
    pub(crate) from_dgram: Board,
    pub(crate) from_stream: Board,
}

impl Boards {
    /// No part stands. It takes no memory.
    pub(crate) fn new(alloc: Global) -> Boards {
        Boards {
            from_dgram: Board::new(alloc),
            from_stream: Board::new(alloc),
        }
    }

    /// Lets go what a call that gave up left there.
    pub(crate) fn clear(&mut self)
        ensures dgram { self.new.from_dgram ≡ [] }
        ensures stream { self.new.from_stream ≡ [] }
    {
        self.from_dgram.clear();
        self.from_stream.clear();
    }
}

/// Both transports, and the requests that wait for them.
#[derive(Drop)]
pub struct Parts<Req, D: SendRequest<Req>, S: SendRequest<Req>> {
    pub(crate) dgram: D,
    pub(crate) stream: S,
    pub(crate) tables: Tables<Req, D::Response, S::Response>,
}

impl<Req, D: SendRequest<Req>, S: SendRequest<Req>> Model for Parts<Req, D, S> {
    ghost use Rattle.client_multi.specs.Fallback.{Parts};

    ghost Value = { Parts Req D S D.Response S.Response };

    ghost view = { λ p. record { dgram = p.dgram; stream = p.stream; tables = p.tables } };
}
