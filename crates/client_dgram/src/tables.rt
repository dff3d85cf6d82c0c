//! The requests that a connection works on, and where each is.

ghost use Rattle.std.specs.Prelude.{◌≡◌, option_map};
ghost use Rattle.client_dgram.specs.Plain as plain;
ghost use Rattle.client_request.specs.Numbered.{entry_at};

use crate::job::{Job, Stage};
use client_request::ComposeRequest;
use dns_base::{Message, Octets};
use number_table::NumberTable;
use std::alloc::Global;
use std::collections::BTreeSet;
use std::marker::Model;

/// The jobs by ticket, the ticket of each live place and of each read timer, the tickets that wait for
/// a slot, and how many slots are held. Tickets rise, so the least that waits came first.
#[derive(Debug, Drop)]
pub struct Tables<Req> {
    pub(crate) jobs: NumberTable<Job<Req>>,
    pub(crate) places: NumberTable<u64>,
    pub(crate) timers: NumberTable<u64>,
    pub(crate) queue: BTreeSet<u64>,
    pub(crate) used: usize,
}

impl<Req> Model for Tables<Req> {
    ghost use Rattle.client_dgram.specs.Plain.{Tables};

    ghost Value = { Tables Req };

    ghost view = { λ s. record {
      jobs = s.jobs;
      places = s.places;
      timers = s.timers;
      queue = s.queue.keys;
      used = s.used;
    } };
}

impl<Req> Tables<Req> {
    /// No request is at work. It takes no memory.
    pub fn new(alloc: Global) -> Tables<Req>
        ensures { result ≡ plain.fresh }
    {
        Tables {
            jobs: NumberTable::new(alloc),
            places: NumberTable::new(alloc),
            timers: NumberTable::new(alloc),
            queue: BTreeSet::new(alloc),
            used: 0,
        }
    }
}

/// What stands in a table under a number.
pub(crate) fn number_at(table: &NumberTable<u64>, key: u64) -> Option<u64>
    ensures { result ≡ entry_at key table.now }
{
    table.get(key).copied()
}

/// Where the request with a ticket is.
pub(crate) fn stage_at<Req>(jobs: &NumberTable<Job<Req>>, ticket: u64) -> Option<Stage>
    ensures { result ≡ option_map (λ job. job.stage) (entry_at ticket jobs.now) }
{
    let job = jobs.get(ticket)?;
    Some(job.stage)
}

/// Takes a request that was sent out of the tables, with its place and its timer.
pub(crate) fn forget_sent<Req: ComposeRequest>(
    tables: &mut Tables<Req>,
    place: u64,
    ticket: u64,
    timer: u64,
)
    ensures { tables.new ≡ plain.leaves place ticket timer tables.old }
{
    let _ = tables.jobs.remove(ticket);
    let _ = tables.places.remove(place);
    let _ = tables.timers.remove(timer);
}

/// The message of a datagram, where it is one that answers a job's request.
pub(crate) fn answer_in<Req: ComposeRequest>(
    jobs: &NumberTable<Job<Req>>,
    ticket: u64,
    octets: Octets,
) -> Option<Message>
    ensures { result ≡ plain.answer_in Req.requests octets (entry_at ticket jobs.now) }
{
    let job = jobs.get(ticket)?;
    let Ok(message) = Message::from_octets(octets) else {
        return None;
    };
    if job.request.is_answer(&message) {
        Some(message)
    } else {
        None
    }
}
