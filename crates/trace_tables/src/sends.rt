//! What was sent by datagrams: at each place, and of each request to each server.

ghost use Rattle.std.specs.Prelude.{◌≡◌, OnOk, min, option_copied};
ghost use Rattle.number_table.specs.Entries.{entry_at};
ghost use Rattle.trace_tables.specs.Sends as plain;

use crate::lists::{Newest, add};
use crate::places::Place;
use crate::requests::same_via;
use client_request::{Out, Via};
use dns_base::{NoMemory, Octets};
use number_table::NumberTable;
use std::alloc::Global;

/// A datagram that was sent: of which request, under which id, as what and when, in microseconds.
pub struct Sent {
    pub request: u64,
    pub id: u16,
    pub octets: Octets,
    pub moment: u64,
}

impl Drop for Sent {
    fn drop(self) {
        let Sent {
            request: _,
            id: _,
            octets: _,
            moment: _,
        } = self;
    }
}

/// A send of a request: to which server, where and when, in microseconds.
#[derive(Clone, Copy, Debug, Drop)]
pub struct Tried {
    pub server: u32,
    pub place: u64,
    pub moment: u64,
}

/// What was sent.
pub struct Sends {
    /// By place.
    pub sent: NumberTable<Newest<Sent>>,
    /// By request.
    pub tries: NumberTable<Newest<Tried>>,
}

impl Drop for Sends {
    fn drop(self) {
        let Sends { sent: _, tries: _ } = self;
    }
}

/// How many of these went to a server. As many as `most` are as many as more.
fn count_at(tries: &Newest<Tried>, server: u32, most: u64) -> u64
    ensures { result ≡ min most (plain.count_at server tries.now) }
{
    let mut count = 0;
    for tried in tries {
        if tried.server == server && count < most {
            count += 1;
        }
    }
    count
}

impl Sends {
    /// Before the first row.
    pub fn new(alloc: Global) -> Sends
        ensures { result ≡ plain.nothing }
    {
        Sends {
            sent: NumberTable::new(alloc),
            tries: NumberTable::new(alloc),
        }
    }

    /// A request is sent at a place, if that is one of datagrams.
    fn try_at(
        &mut self,
        alloc: Global,
        place: Option<&Place>,
        number: u64,
        request: u64,
        moment: u64,
    ) -> Result<(), NoMemory>
        ensures sent { OnOk result (self.new ≡ record self.old { tries = plain.tried_at request number moment (option_copied place.entry) self.old.tries }) }
    {
        let Some(place) = place else {
            return Ok(());
        };
        if !same_via(place.via, Via::Dgram) {
            return Ok(());
        }
        let tried = Tried {
            server: place.server,
            place: number,
            moment,
        };
        add(&mut self.tries, alloc, request, tried)
    }

    /// An out is put, at a moment, over the places as they were.
    pub fn put(
        &mut self,
        alloc: Global,
        places: &NumberTable<Place>,
        moment: u64,
        out: &Out,
    ) -> Result<(), NoMemory>
        ensures { OnOk result (self.new ≡ plain.has_put out.now moment places.now self.old) }
    {
        let Out::Send {
            place,
            request,
            id,
            octets,
        } = out
        else {
            return Ok(());
        };
        self.try_at(alloc, places.get(*place), *place, *request, moment)?;
        let sent = Sent {
            request: *request,
            id: *id,
            octets: octets.try_clone()?,
            moment,
        };
        add(&mut self.sent, alloc, *place, sent)
    }

    /// How often a request was sent to a server. `most` times are as many as more.
    pub fn count(&self, request: u64, server: u32, most: u64) -> u64
        ensures { result ≡ min most (plain.sends_seen request server self.now) }
    {
        match self.tries.get(request) {
            None => 0,
            Some(tries) => count_at(tries, server, most),
        }
    }

    /// Whether something was sent at a place.
    pub fn is_used(&self, place: u64) -> bool
        ensures { result ≡ plain.used_seen place self.now }
    {
        match self.sent.get(place) {
            None => false,
            Some(sent) => !sent.is_empty(),
        }
    }
}
