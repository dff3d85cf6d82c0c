//! Whether each valid request that waits is busy.

ghost use Rattle.std.specs.Prelude.{◌≡◌, IfOk, option_copied};
ghost use Rattle.number_table.specs.Entries.{entry_at};
ghost use Rattle.trace_tables.specs.Lists.{listed};
ghost use Rattle.trace_tables.specs.frames.Frames.{frames_of};
ghost use Rattle.trace_tables.specs.frames.Waiting.{waiting_seen};
ghost use Rattle.trace_tables.specs.sets.Sets.{members, some_of};
ghost use Rattle.trace_points.specs.exchanges.Coming.{is_young};
ghost use Rattle.trace_points.specs.exchanges.Open.{is_for};
ghost use Rattle.trace_points.specs.due.Loose.{brings_seen};
ghost use Rattle.trace_outs.specs.busy.Backs as backs_plain;
ghost use Rattle.client_request.specs.declared.event.Via.TheVariants.{Stream};
ghost use Rattle.trace_outs.specs.busy.Busy as plain;

use crate::busy::backs::Backs;
use crate::busy::taken::are_taken;
use crate::busy::waits::{Carried, Spot, Waits};
use crate::loads::Loads;
use client_request::{RequestMessage, Via};
use dns_base::{NoMemory, Octets};
use message_judging::matching::carries;
use number_table::NumberTable;
use std::alloc::Global;
use trace_points::exchanges::Open;
use trace_points::questions::{ServerUse, TraceConf};
use trace_tables::frames::{Brought, Ledger, Written};
use trace_tables::sets::Members;
use trace_tables::writes::Writing;
use trace_tables::{Newest, Place, Sent, Stand, Started, same_via};

/// What is known behind a row.
pub struct Scene<'a> {
    pub conf: &'a TraceConf,
    /// How each server is used, in order.
    pub servers: &'a [ServerUse],
    pub ledger: &'a Ledger,
    /// What was sent by datagrams and not answered.
    pub sends: &'a Open,
    /// What of the last writes was not taken.
    pub writing: &'a Writing,
    pub loads: &'a Loads,
    pub waits: &'a Waits,
    pub backs: &'a Backs,
}

impl Drop for Scene<'_> {
    fn drop(self) {
        let Scene {
            conf: _,
            servers: _,
            ledger: _,
            sends: _,
            writing: _,
            loads: _,
            waits: _,
            backs: _,
        } = self;
    }
}

/// Whether a send is of a request, under an id, and waited for still.
fn is_waited_for(conf: &TraceConf, request: u64, id: u16, now: u64, send: &Sent) -> bool
    ensures { result ≡ is_for conf.now request id now send.now }
{
    send.request == request
        && send.id == id
        && u128::from(now) < u128::from(send.moment) + conf.read_timeout().as_micros()
}

/// Whether what was noted was noted of these octets, under this id.
fn is_of(via: Via, id: u16, octets: &Octets, noted: &Carried) -> bool
    ensures { result ≡ plain.is_of via id octets.now noted.now }
{
    same_via(noted.via, via) && noted.id == id && noted.octets.as_slice() == octets.as_slice()
}

/// Whether octets carry a request, if that was noted.
fn carried_as(via: Via, id: u16, octets: &Octets, carried: &Newest<Carried>) -> Option<bool>
    ensures { result ≡ plain.carried_as via id octets.now carried.now }
{
    for noted in carried {
        if is_of(via, id, octets, noted) {
            return Some(noted.carries);
        }
    }
    None
}

/// Whether a frame with a whole header among these has an id.
fn brings(id: u16, frames: &[Octets]) -> bool
    ensures { result ≡ brings_seen id frames.now }
{
    for frame in frames {
        let octets = frame.as_slice();
        if octets.len() >= 12 && u16::from_be_bytes([octets[0], octets[1]]) == id {
            return true;
        }
    }
    false
}

/// The same of those that the newest row brought to a place.
fn brings_at(brought: &Option<Brought>, place: u64, id: u16) -> bool
    ensures { result ≡ brings_seen id (frames_of place brought.now) }
{
    match brought {
        None => false,
        Some(brought) => brought.place == place && brings(id, brought.frames.as_slice()),
    }
}

/// Whether the time of a request by stream is not over since a start.
fn has_begun_lately(conf: &TraceConf, now: u64, begun: Option<u64>) -> bool
    ensures { result ≡ is_young conf.now now begun }
{
    match begun {
        None => false,
        Some(begun) => u128::from(now) < u128::from(begun) + conf.stream_timeout().as_micros(),
    }
}

/// Whether a place is opening.
fn opens(places: &NumberTable<Place>, number: u64) -> bool
    ensures { result ≡ plain.opens_seen places.now number }
{
    match places.get(number) {
        None => false,
        Some(place) => matches!(place.stand, Stand::Opening),
    }
}

/// Whether a place is opening, or written to.
fn moves(places: &NumberTable<Place>, writing: &Writing, number: u64) -> bool
    ensures { result ≡ plain.moves_seen places.now writing.now number }
{
    match places.get(number) {
        None => false,
        Some(place) => match place.stand {
            Stand::Opening => true,
            Stand::Alive => writing.is_unwritten(number),
            Stand::Gone => false,
        },
    }
}

fn some_opens(places: &NumberTable<Place>, numbers: &Members) -> bool
    ensures { result ≡ some_of (plain.opens_seen places.now) numbers.now }
{
    for (number, _) in numbers {
        if opens(places, number) {
            return true;
        }
    }
    false
}

fn some_moves(places: &NumberTable<Place>, writing: &Writing, numbers: &Members) -> bool
    ensures { result ≡ some_of (plain.moves_seen places.now writing.now) numbers.now }
{
    for (number, _) in numbers {
        if moves(places, writing, number) {
            return true;
        }
    }
    false
}

/// Whether a back-off that was begun at a moment, and one after it, may last still.
fn is_within(now: u64, begun: Option<&u64>) -> bool
    ensures { result ≡ backs_plain.is_within now (option_copied begun.entry) }
{
    match begun {
        None => false,
        Some(begun) => u128::from(now) < u128::from(*begun) + 128_000_000,
    }
}

impl<'a> Scene<'a> {
    /// Whether octets carry a request, if that was noted of it.
    fn noted(&self, via: Via, request: u64, id: u16, octets: &Octets) -> Option<bool>
        ensures { result ≡ plain.carried_as via id octets.now (listed request self.now.waits.now.carried) }
    {
        match self.waits.carried.get(request) {
            None => None,
            Some(carried) => carried_as(via, id, octets, carried),
        }
    }

    /// Whether octets carry a request.
    fn carries(
        &self,
        alloc: Global,
        via: Via,
        asked: &RequestMessage,
        request: u64,
        id: u16,
        octets: &Octets,
    ) -> Result<bool, NoMemory>
        ensures { IfOk result (λ b. b ≡ plain.carries_seen self.now.conf.now via asked.now request id octets.now self.now) }
    {
        match self.noted(via, request, id, octets) {
            Some(carries) => Ok(carries),
            None => carries(alloc, self.conf.udp_payload_size(), via, octets, asked, id),
        }
    }

    /// Whether one of these is waited for, and carries the request.
    fn some_sent(
        &self,
        alloc: Global,
        asked: &RequestMessage,
        request: u64,
        id: u16,
        sends: &[Sent],
    ) -> Result<bool, NoMemory>
        ensures { IfOk result (λ b. b ≡ plain.some_sent self.now.conf.now asked.now request id self.now.ledger.now.books.requests.clock sends.now self.now) }
    {
        let now = self.ledger.books.requests.clock;
        for send in sends {
            if is_waited_for(self.conf, request, id, now, send)
                && self.carries(alloc, Via::Dgram, asked, request, id, &send.octets)?
            {
                return Ok(true);
            }
        }
        Ok(false)
    }

    /// Whether one of these is the request's, and carries it.
    fn some_written(
        &self,
        alloc: Global,
        asked: &RequestMessage,
        request: u64,
        id: u16,
        writes: &Newest<Written>,
    ) -> Result<bool, NoMemory>
        ensures { IfOk result (λ b. b ≡ plain.some_written self.now.conf.now asked.now request id writes.now self.now) }
    {
        for written in writes {
            if written.request == request
                && self.carries(alloc, Via::Stream, asked, request, id, &written.octets)?
            {
                return Ok(true);
            }
        }
        Ok(false)
    }
}

impl<'a> Scene<'a> {
    /// Whether an exchange of a request by datagrams is open at a place.
    fn is_open_dgram(
        &self,
        alloc: Global,
        asked: &RequestMessage,
        request: u64,
        spot: Spot,
    ) -> Result<bool, NoMemory>
        ensures { IfOk result (λ b. b ≡ plain.some_sent self.now.conf.now asked.now request spot.id self.now.ledger.now.books.requests.clock (listed spot.place self.now.sends.now) self.now) }
    {
        match self.sends.get(spot.place) {
            None => Ok(false),
            Some(sends) => self.some_sent(alloc, asked, request, spot.id, sends.as_slice()),
        }
    }

    /// Whether something waits at a place that is the request's and carries it.
    fn is_written(
        &self,
        alloc: Global,
        asked: &RequestMessage,
        request: u64,
        spot: Spot,
    ) -> Result<bool, NoMemory>
        ensures { IfOk result (λ b. b ≡ plain.some_written self.now.conf.now asked.now request spot.id (waiting_seen spot.place spot.id self.now.ledger.now.waiting) self.now) }
    {
        let Some(at) = self.ledger.waiting.get(spot.place) else {
            return Ok(false);
        };
        match at.get(u64::from(spot.id)) {
            None => Ok(false),
            Some(writes) => self.some_written(alloc, asked, request, spot.id, writes),
        }
    }

    /// Whether an exchange of a request by stream is open at a place of a server.
    fn is_open_stream(
        &self,
        alloc: Global,
        asked: &RequestMessage,
        request: u64,
        spot: Spot,
        server: u32,
    ) -> Result<bool, NoMemory>
        ensures { IfOk result (λ b. b ≡ plain.is_open_by self.now.conf.now Stream asked.now request spot.place spot.id server self.now) }
    {
        let requests = &self.ledger.books.requests;
        if !has_begun_lately(
            self.conf,
            requests.clock,
            requests.start(request, server, Via::Stream),
        ) || brings_at(&self.ledger.frames.brought, spot.place, spot.id)
        {
            return Ok(false);
        }
        self.is_written(alloc, asked, request, spot)
    }

    /// Whether a request was handed to a server.
    fn is_handed(&self, request: u64, server: u32) -> bool
        ensures { result ≡ plain.is_handed request server self.now }
    {
        let requests = &self.ledger.books.requests;
        requests.is_started(request, server, Via::Dgram)
            || requests.is_started(request, server, Via::Stream)
    }

    /// Whether an exchange of a request is open where it was sent or written.
    fn is_open_at(
        &self,
        alloc: Global,
        asked: &RequestMessage,
        request: u64,
        spot: Spot,
    ) -> Result<bool, NoMemory>
        ensures { IfOk result (λ b. b ≡ plain.is_open_at self.now.conf.now asked.now request spot (entry_at spot.place self.now.ledger.now.books.places) self.now) }
    {
        let Some(place) = self.ledger.books.places.get(spot.place) else {
            return Ok(false);
        };
        if !matches!(place.stand, Stand::Alive)
            || (place.server as usize) >= self.servers.len()
            || !self.is_handed(request, place.server)
        {
            return Ok(false);
        }
        match place.via {
            Via::Dgram => self.is_open_dgram(alloc, asked, request, spot),
            Via::Stream => self.is_open_stream(alloc, asked, request, spot, place.server),
        }
    }

    /// Whether one of them is.
    fn some_open(
        &self,
        alloc: Global,
        asked: &RequestMessage,
        request: u64,
        spots: &Newest<Spot>,
    ) -> Result<bool, NoMemory>
        ensures { IfOk result (λ b. b ≡ plain.some_open self.now.conf.now asked.now request spots.now self.now) }
    {
        for spot in spots {
            if self.is_open_at(alloc, asked, request, *spot)? {
                return Ok(true);
            }
        }
        Ok(false)
    }

    fn some_open_of(
        &self,
        alloc: Global,
        asked: &RequestMessage,
        request: u64,
    ) -> Result<bool, NoMemory>
        ensures { IfOk result (λ b. b ≡ plain.some_open self.now.conf.now asked.now request (listed request self.now.waits.now.spots) self.now) }
    {
        match self.waits.spots.get(request) {
            None => Ok(false),
            Some(spots) => self.some_open(alloc, asked, request, spots),
        }
    }
}

impl<'a> Scene<'a> {
    /// Whether a datagram place of a server is opening.
    fn some_dgram_opens(&self, server: u32) -> bool
        ensures { result ≡ some_of (plain.opens_seen self.now.ledger.now.books.places) (members server self.now.loads.now.dgrams) }
    {
        match self.loads.dgrams.get(u64::from(server)) {
            None => false,
            Some(numbers) => some_opens(&self.ledger.books.places, numbers),
        }
    }

    /// Whether a stream place of a server is opening, or written to.
    fn some_stream_moves(&self, server: u32) -> bool
        ensures { result ≡ some_of (plain.moves_seen self.now.ledger.now.books.places self.now.writing.now) (members server self.now.loads.now.streams) }
    {
        match self.loads.streams.get(u64::from(server)) {
            None => false,
            Some(numbers) => some_moves(&self.ledger.books.places, self.writing, numbers),
        }
    }

    /// Whether a server is busy for a request that it has so.
    fn serves(&self, via: Via, server: u32, request: u64) -> bool
        ensures { result ≡ plain.serves self.now.conf.now via server request self.now }
    {
        match via {
            Via::Dgram => {
                self.some_dgram_opens(server)
                    || are_taken(
                        &self.ledger.books,
                        &self.loads.dgrams,
                        request,
                        u64::from(server),
                        self.conf.max_places(),
                    )
            }
            Via::Stream => {
                self.some_stream_moves(server)
                    || is_within(
                        self.ledger.books.requests.clock,
                        self.backs.get(u64::from(server)),
                    )
            }
        }
    }

    /// Whether one of the servers that these are starts at is.
    fn some_serves(&self, request: u64, starts: &Newest<Started>) -> bool
        ensures { result ≡ plain.some_serves self.now.conf.now request starts.now self.now }
    {
        for start in starts {
            if self.serves(start.via, start.server, request) {
                return true;
            }
        }
        false
    }

    fn some_serves_of(&self, request: u64) -> bool
        ensures { result ≡ plain.some_serves self.now.conf.now request (listed request self.now.ledger.now.books.requests.starts) self.now }
    {
        match self.ledger.books.requests.starts.get(request) {
            None => false,
            Some(starts) => self.some_serves(request, starts),
        }
    }

    /// Whether a request is busy at a server.
    fn is_busy(&self, alloc: Global, request: u64) -> Result<bool, NoMemory>
        ensures { IfOk result (λ b. b ≡ plain.busy_seen self.now.conf.now self.now request) }
    {
        let Some(asked) = self.ledger.books.requests.askings.get(request) else {
            return Ok(false);
        };
        if self.some_open_of(alloc, &asked.request, request)? {
            return Ok(true);
        }
        Ok(self.some_serves_of(request))
    }

    fn all_busy(&self, alloc: Global, requests: &Members) -> Result<bool, NoMemory>
        ensures { IfOk result (λ b. b ≡ plain.all_busy self.now.conf.now self.now requests.now) }
    {
        for (request, _) in requests {
            if !self.is_busy(alloc, request)? {
                return Ok(false);
            }
        }
        Ok(true)
    }

    /// Whether each valid request that waits is busy. It goes over the requests that wait.
    pub fn are_waiting_busy(&self, alloc: Global) -> Result<bool, NoMemory>
        ensures { IfOk result (plain.TellsBusy self.now) }
    {
        self.all_busy(alloc, &self.waits.requests)
    }
}
