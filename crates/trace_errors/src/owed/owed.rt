//! Whether servers still owe a request an answer.

ghost use Rattle.std.specs.Prelude.{◌≡◌, IfOk, option_copied};
ghost use Rattle.number_table.specs.Entries.{entry_at};
ghost use Rattle.client_request.specs.declared.event.Via.TheVariants.{Stream};
ghost use Rattle.right_trace.specs.Places.{is_told};
ghost use Rattle.dns_base.specs.Header.{id_of};
ghost use Rattle.trace_tables.specs.Lists.{listed};
ghost use Rattle.trace_tables.specs.frames.Frames.{frames_of};
ghost use Rattle.trace_tables.specs.frames.Waiting.{waiting_seen};
ghost use Rattle.trace_points.specs.due.Loose.{brings_seen};
ghost use Rattle.trace_points.specs.exchanges.Coming.{is_young};
ghost use Rattle.trace_points.specs.exchanges.Open.{is_for};
ghost use Rattle.trace_points.specs.questions.Outs.{Tells};
ghost use Rattle.trace_errors.specs.owed.Owed as plain;

use crate::owed::exchanged::{Exchange, Exchanged};
use client_request::{RequestMessage, Via, What};
use dns_base::{NoMemory, Octets};
use message_judging::matching::carries;
use trace_points::exchanges::Open;
use trace_points::questions::TraceConf;
use trace_tables::frames::{Brought, Ledger, Waiting, Written};
use trace_tables::{Books, Newest, Place, Requests, Sent, Stand};

/// Whether a send is one of a request under an id, and waited for still.
fn is_for(conf: &TraceConf, sent: &Sent, request: u64, id: u16, now: u64) -> bool
    ensures { result ≡ is_for conf.now request id now sent.now }
{
    sent.request == request
        && sent.id == id
        && u128::from(now) < u128::from(sent.moment) + conf.read_timeout().as_micros()
}

/// Whether some of these is so and carries the request.
fn some_sent(
    conf: &TraceConf,
    sends: &[Sent],
    asked: &RequestMessage,
    request: u64,
    id: u16,
    now: u64,
) -> Result<bool, NoMemory>
    ensures { IfOk result (λ b. b ≡ plain.some_sent conf.now asked.now request id now sends.now) }
{
    for sent in sends {
        if is_for(conf, sent, request, id, now)
            && carries(
                conf.alloc(),
                conf.udp_payload_size(),
                Via::Dgram,
                &sent.octets,
                asked,
                sent.id,
            )?
        {
            return Ok(true);
        }
    }
    Ok(false)
}

/// Whether something that was written for a request carries it.
fn some_written(
    conf: &TraceConf,
    writes: &Newest<Written>,
    asked: &RequestMessage,
    request: u64,
    id: u16,
) -> Result<bool, NoMemory>
    ensures { IfOk result (λ b. b ≡ plain.some_written conf.now asked.now request id writes.now) }
{
    for written in writes {
        if written.request == request
            && carries(
                conf.alloc(),
                conf.udp_payload_size(),
                Via::Stream,
                &written.octets,
                asked,
                id,
            )?
        {
            return Ok(true);
        }
    }
    Ok(false)
}

/// The same of what waits at a place under an id.
fn some_waiting(
    conf: &TraceConf,
    waiting: &Waiting,
    asked: &RequestMessage,
    request: u64,
    place: u64,
    id: u16,
) -> Result<bool, NoMemory>
    ensures { IfOk result (λ b. b ≡ plain.some_written conf.now asked.now request id (waiting_seen place id waiting.now)) }
{
    let Some(at) = waiting.get(place) else {
        return Ok(false);
    };
    match at.get(u64::from(id)) {
        None => Ok(false),
        Some(writes) => some_written(conf, writes, asked, request, id),
    }
}

/// The id of a frame, of which as much is read as there is.
fn id_of(frame: &[u8]) -> u16
    ensures { result ≡ id_of frame.now }
{
    match frame {
        [] => 0,
        [high] => u16::from_be_bytes([*high, 0]),
        [high, low, ..] => u16::from_be_bytes([*high, *low]),
    }
}

/// Whether a frame with a whole header among these has an id.
fn brings(id: u16, frames: &[Octets]) -> bool
    ensures { result ≡ brings_seen id frames.now }
{
    for frame in frames {
        let octets = frame.as_slice();
        if octets.len() >= 12 && id_of(octets) == id {
            return true;
        }
    }
    false
}

/// Whether one was brought to a place in the newest row.
fn is_brought(brought: &Option<Brought>, place: u64, id: u16) -> bool
    ensures { result ≡ brings_seen id (frames_of place brought.now) }
{
    match brought {
        None => false,
        Some(brought) => brought.place == place && brings(id, brought.frames.as_slice()),
    }
}

/// Whether the time of a request by stream is not over since a start.
fn is_young(conf: &TraceConf, now: u64, begun: Option<u64>) -> bool
    ensures { result ≡ is_young conf.now now begun }
{
    match begun {
        None => false,
        Some(begun) => u128::from(now) < u128::from(begun) + conf.stream_timeout().as_micros(),
    }
}

/// Whether an event tells that a place is broken.
fn is_told(place: u64, what: &What) -> bool
    ensures { result ≡ is_told place what.now }
{
    match what {
        What::SendFailed { place: one, .. }
        | What::ShortSend { place: one }
        | What::RecvFailed { place: one, .. }
        | What::WriteFailed { place: one, .. }
        | What::ReadFailed { place: one, .. }
        | What::Ended { place: one } => *one == place,
        What::Wrote { place: one, count } => *count == 0 && *one == place,
        _ => false,
    }
}

fn is_alive(place: Option<&Place>) -> bool
    ensures { result ≡ plain.alive_seen (option_copied place.entry) }
{
    match place {
        None => false,
        Some(place) => matches!(place.stand, Stand::Alive),
    }
}

/// What is asked of a request's exchanges.
struct Asking<'a> {
    asked: &'a RequestMessage,
    request: u64,
    what: &'a What,
    past: &'a Books,
    here: &'a Ledger,
    sends: &'a Open,
}

impl Drop for Asking<'_> {
    fn drop(self) {
        let Asking {
            asked: _,
            request: _,
            what: _,
            past: _,
            here: _,
            sends: _,
        } = self;
    }
}

impl<'a> Asking<'a> {
    /// Whether a datagram is waited for.
    fn waits_for_datagram(&self, conf: &TraceConf, exchange: Exchange) -> Result<bool, NoMemory>
        ensures { IfOk result (λ b. b ≡ plain.some_sent conf.now self.now.asked.now self.now.request exchange.id self.now.here.now.books.requests.clock (listed exchange.place self.now.sends.now)) }
    {
        let now = self.here.books.requests.clock;
        match self.sends.get(exchange.place) {
            None => Ok(false),
            Some(sends) => some_sent(
                conf,
                sends.as_slice(),
                self.asked,
                self.request,
                exchange.id,
                now,
            ),
        }
    }

    /// Whether a frame is waited for.
    fn waits_for_frame(
        &self,
        conf: &TraceConf,
        server: u32,
        exchange: Exchange,
    ) -> Result<bool, NoMemory>
        ensures { IfOk result (λ b. b ≡ plain.waits_by conf.now Stream server self.now.asked.now self.now.request exchange.place exchange.id self.now.here.now self.now.sends.now) }
    {
        let requests = &self.here.books.requests;
        let begun = requests.start(self.request, server, Via::Stream);
        if !is_young(conf, requests.clock, begun) {
            return Ok(false);
        }
        if is_brought(&self.here.frames.brought, exchange.place, exchange.id) {
            return Ok(false);
        }
        some_waiting(
            conf,
            &self.here.waiting,
            self.asked,
            self.request,
            exchange.place,
            exchange.id,
        )
    }

    /// Whether a place is alive, or was when the row began and is not told to be broken.
    fn is_still_alive(&self, number: u64) -> bool
        ensures { result ≡ plain.is_still_alive number self.now.what.now (entry_at number self.now.past.now.places) (entry_at number self.now.here.now.books.places) }
    {
        is_alive(self.here.books.places.get(number))
            || (is_alive(self.past.places.get(number)) && !is_told(number, self.what))
    }

    /// Whether a server of the configuration owes an answer at a place.
    fn owes_there(&self, conf: &TraceConf, sent: Exchange) -> Result<bool, NoMemory>
        ensures { IfOk result (λ b. b ≡ plain.owes_there conf.now self.now.asked.now self.now.request sent.place sent.id self.now.here.now self.now.sends.now (entry_at sent.place self.now.here.now.books.places)) }
    {
        let Some(place) = self.here.books.places.get(sent.place) else {
            return Ok(false);
        };
        if !conf.has_server(place.server) {
            return Ok(false);
        }
        match place.via {
            Via::Dgram => self.waits_for_datagram(conf, sent),
            Via::Stream => self.waits_for_frame(conf, place.server, sent),
        }
    }

    fn owes_on(&self, conf: &TraceConf, exchange: Exchange) -> Result<bool, NoMemory>
        ensures { IfOk result (λ b. b ≡ plain.owes_on conf.now self.now.asked.now self.now.request self.now.what.now self.now.past.now self.now.here.now self.now.sends.now exchange) }
    {
        if !self.is_still_alive(exchange.place) {
            return Ok(false);
        }
        self.owes_there(conf, exchange)
    }

    fn some_owe(&self, conf: &TraceConf, exchanges: &Newest<Exchange>) -> Result<bool, NoMemory>
        ensures { IfOk result (λ b. b ≡ plain.some_owe conf.now self.now.asked.now self.now.request self.now.what.now self.now.past.now self.now.here.now self.now.sends.now exchanges.now) }
    {
        for exchange in exchanges {
            if self.owes_on(conf, *exchange)? {
                return Ok(true);
            }
        }
        Ok(false)
    }
}

/// Whether some server of the configuration owes a request an answer.
fn is_owed(
    conf: &TraceConf,
    past: &Books,
    here: &Ledger,
    sends: &Open,
    exchanged: &Exchanged,
    what: &What,
    request: u64,
) -> Result<bool, NoMemory>
    ensures { IfOk result (λ b. b ≡ plain.is_owed conf.now request what.now past.now here.now sends.now exchanged.now) }
{
    let Some(asked) = here.books.requests.askings.get(request) else {
        return Ok(false);
    };
    let Some(exchanges) = exchanged.get(request) else {
        return Ok(false);
    };
    let asking = Asking {
        asked: &asked.request,
        request,
        what,
        past,
        here,
        sends,
    };
    asking.some_owe(conf, exchanges)
}

/// Whether a server has a request.
fn is_handed(requests: &Requests, request: u64, server: u32) -> bool
    ensures { result ≡ plain.handed_seen request server requests.now }
{
    requests.is_started(request, server, Via::Dgram)
        || requests.is_started(request, server, Via::Stream)
}

/// Whether each server of the configuration has a request.
fn all_have(conf: &TraceConf, requests: &Requests, request: u64) -> Result<bool, NoMemory>
    ensures { IfOk result (Tells (plain.AllHave conf.now request requests.now)) }
{
    for server in 0..u32::MAX {
        if !conf.has_server(server) {
            return Ok(true);
        }
        if !is_handed(requests, request, server) {
            return Ok(false);
        }
    }
    Err(NoMemory)
}

/// Whether each server of the configuration has a request, and none owes it an answer: `past` is what was known before the row,
/// `here` what is known here, `sends` what was sent by datagrams and is not answered here, `exchanged` where requests were sent
/// or written by here, and `what` the row's event.
pub fn are_all_done(
    conf: &TraceConf,
    past: &Books,
    here: &Ledger,
    sends: &Open,
    exchanged: &Exchanged,
    what: &What,
    request: u64,
) -> Result<bool, NoMemory>
    ensures { IfOk result (plain.TellsDone conf.now request what.now past.now here.now sends.now exchanged.now) }
{
    find_done(conf, past, here, sends, exchanged, what, request)
}

fn find_done(
    conf: &TraceConf,
    past: &Books,
    here: &Ledger,
    sends: &Open,
    exchanged: &Exchanged,
    what: &What,
    request: u64,
) -> Result<bool, NoMemory>
    ensures { IfOk result (plain.IsDone conf.now request what.now past.now here.now sends.now exchanged.now) }
{
    if !all_have(conf, &here.books.requests, request)? {
        return Ok(false);
    }
    Ok(!is_owed(conf, past, here, sends, exchanged, what, request)?)
}
