//! The messages that come for requests in a row.

ghost use Rattle.std.specs.Prelude.{◌≡◌, ◌++◌, [], IfOk, OnOk, IfSome, is_some, not, nat_lt, length};
ghost use Rattle.number_table.specs.Entries.{entry_at};
ghost use Rattle.trace_tables.specs.frames.Waiting.{waiting_seen};
ghost use Rattle.trace_points.specs.exchanges.Coming as plain;

use crate::exchanges::open::Open;
use crate::questions::TraceConf;
use client_request::Via;
use dns_base::{Message, NoMemory, Octets, Seq};
use message_judging::matching::{carries, is_answer_to};
use number_table::NumberTable;
use std::alloc::Global;
use trace_tables::frames::{Ledger, Written, received};
use trace_tables::{Books, Newest, Place, Sent, Stand};

/// A message that comes for a request on its exchange.
pub struct Coming {
    pub request: u64,
    pub via: Via,
    pub server: u32,
    pub place: u64,
    pub id: u16,
    pub message: Message,
    /// Whether it answers the request.
    pub agrees: bool,
}

impl Drop for Coming {
    fn drop(self) {
        let Coming {
            request: _,
            via: _,
            server: _,
            place: _,
            id: _,
            message: _,
            agrees: _,
        } = self;
    }
}

/// Where a message came, and for whom messages are looked for: one request, or all.
struct Arrival<'a> {
    conf: &'a TraceConf,
    wanted: Option<u64>,
    number: u64,
    place: Place,
    past: &'a Books,
    here: &'a Ledger,
}

impl Drop for Arrival<'_> {
    fn drop(self) {
        let Arrival {
            conf: _,
            wanted: _,
            number: _,
            place: _,
            past: _,
            here: _,
        } = self;
    }
}

/// Whether a request is the one, or all are wanted.
fn is_wanted(wanted: Option<u64>, request: u64) -> bool
    ensures { result ≡ plain.is_wanted wanted request }
{
    match wanted {
        None => true,
        Some(one) => one == request,
    }
}

/// The message of octets that have a whole header.
fn message_of(octets: &Octets) -> Result<Option<Message>, NoMemory>
    ensures some { IfOk result (λ found. IfSome found (λ m. m ≡ octets.now)) }
    ensures long { IfOk result (λ found. is_some found ≡ not (nat_lt (length octets.now) 12)) }
{
    match Message::from_octets(octets.try_clone()?) {
        Ok(message) => Ok(Some(message)),
        Err(_) => Ok(None),
    }
}

impl<'a> Arrival<'a> {
    /// What a message is to a request that was sent so, if the octets carry it.
    fn comes_on(
        &self,
        alloc: Global,
        request: u64,
        id: u16,
        octets: &Octets,
        message: &Message,
    ) -> Result<Option<Coming>, NoMemory>
        ensures { IfOk result (λ x. x ≡ plain.comes_on self.now.conf.now self.now.place self.now.number request id octets.now message.now (entry_at request self.now.past.now.requests.askings)) }
    {
        let Some(asked) = self.past.requests.askings.get(request) else {
            return Ok(None);
        };
        let payload_size = self.conf.udp_payload_size();
        if !carries(
            alloc,
            payload_size,
            self.place.via,
            octets,
            &asked.request,
            id,
        )? {
            return Ok(None);
        }
        let agrees = is_answer_to(&asked.request, id, message);
        Ok(Some(Coming {
            request,
            via: self.place.via,
            server: self.place.server,
            place: self.number,
            id,
            message: message.try_clone()?,
            agrees,
        }))
    }

    /// The same where the request waited before the row, and is wanted.
    fn comes_for(
        &self,
        alloc: Global,
        request: u64,
        id: u16,
        octets: &Octets,
        message: &Message,
    ) -> Result<Option<Coming>, NoMemory>
        ensures { IfOk result (λ x. x ≡ plain.comes_for self.now.conf.now self.now.wanted self.now.past.now self.now.place self.now.number request id octets.now message.now) }
    {
        if is_wanted(self.wanted, request) && !self.past.requests.is_replied(request) {
            self.comes_on(alloc, request, id, octets, message)
        } else {
            Ok(None)
        }
    }

    /// What a datagram is to what was sent.
    fn on_send(
        &self,
        alloc: Global,
        message: &Message,
        send: &Sent,
    ) -> Result<Option<Coming>, NoMemory>
        ensures { IfOk result (λ x. x ≡ plain.on_send self.now.conf.now self.now.wanted self.now.past.now self.now.place self.now.number self.now.here.now.books.requests.clock message.now send.now) }
    {
        let now = u128::from(self.here.books.requests.clock);
        if now < u128::from(send.moment) + self.conf.read_timeout().as_micros() {
            self.comes_for(alloc, send.request, send.id, &send.octets, message)
        } else {
            Ok(None)
        }
    }

    /// What a datagram is to all that was sent.
    fn on_sends(
        &self,
        alloc: Global,
        message: &Message,
        sends: &[Sent],
        found: &mut Seq<Coming>,
    ) -> Result<(), NoMemory>
        ensures { OnOk result (found.new ≡ found.old ++ plain.on_sends self.now.conf.now self.now.wanted self.now.past.now self.now.place self.now.number self.now.here.now.books.requests.clock message.now sends.now) }
    {
        for send in sends {
            if let Some(coming) = self.on_send(alloc, message, send)? {
                found.push(coming)?;
            }
        }
        Ok(())
    }
}

impl<'a> Arrival<'a> {
    /// What a frame is to what was written.
    fn on_write(
        &self,
        alloc: Global,
        id: u16,
        message: &Message,
        written: &Written,
    ) -> Result<Option<Coming>, NoMemory>
        ensures { IfOk result (λ x. x ≡ plain.on_write self.now.conf.now self.now.wanted self.now.past.now self.now.here.now.books self.now.place self.now.number id message.now written.now) }
    {
        let requests = &self.here.books.requests;
        let begun = requests.start(written.request, self.place.server, Via::Stream);
        if is_young(self.conf, requests.clock, begun) {
            self.comes_for(alloc, written.request, id, &written.octets, message)
        } else {
            Ok(None)
        }
    }

    /// What a frame is to all that was written under its id.
    fn on_writes(
        &self,
        alloc: Global,
        id: u16,
        message: &Message,
        writes: &Newest<Written>,
        found: &mut Seq<Coming>,
    ) -> Result<(), NoMemory>
        ensures { OnOk result (found.new ≡ found.old ++ plain.on_writes self.now.conf.now self.now.wanted self.now.past.now self.now.here.now.books self.now.place self.now.number id message.now writes.now) }
    {
        for written in writes {
            if let Some(coming) = self.on_write(alloc, id, message, written)? {
                found.push(coming)?;
            }
        }
        Ok(())
    }

    /// What a frame is to all that waits at its place.
    fn on_frame(
        &self,
        alloc: Global,
        id: u16,
        message: &Message,
        found: &mut Seq<Coming>,
    ) -> Result<(), NoMemory>
        ensures { let s = self.now in OnOk result (found.new ≡ found.old ++ plain.on_writes self.now.conf.now s.wanted s.past.now s.here.now.books s.place s.number id message.now (waiting_seen s.number id s.here.now.waiting)) }
    {
        let Some(at) = self.here.waiting.get(self.number) else {
            return Ok(());
        };
        let Some(writes) = at.get(u64::from(id)) else {
            return Ok(());
        };
        self.on_writes(alloc, id, message, writes, found)
    }

    /// What frames are, up to a bad one, each with an id that none before it has.
    fn in_frames(
        &self,
        alloc: Global,
        frames: &[Octets],
        found: &mut Seq<Coming>,
    ) -> Result<(), NoMemory>
        ensures { OnOk result (found.new ≡ found.old ++ plain.in_frames self.now.conf.now self.now.wanted self.now.past.now self.now.here.now self.now.place self.now.number [] frames.now) }
    {
        let mut seen = NumberTable::new(alloc);
        for frame in frames {
            let Some(message) = message_of(frame)? else {
                return Ok(());
            };
            let id = message.header().id();
            if !seen.contains_key(u64::from(id)) {
                self.on_frame(alloc, id, &message, found)?;
                if seen.insert(u64::from(id), ()).is_err() {
                    return Err(NoMemory);
                }
            }
        }
        Ok(())
    }

    /// What a datagram is to what is open at its place.
    fn in_datagrams(
        &self,
        alloc: Global,
        sent: &Open,
        messages: &[Octets],
        found: &mut Seq<Coming>,
    ) -> Result<(), NoMemory>
        ensures { OnOk result (found.new ≡ found.old ++ plain.in_datagrams self.now.conf.now self.now.wanted self.now.past.now sent.now self.now.here.now self.now.place self.now.number messages.now) }
    {
        let Some((first, _)) = messages.split_first() else {
            return Ok(());
        };
        let Some(message) = message_of(first)? else {
            return Ok(());
        };
        match sent.get(self.number) {
            None => Ok(()),
            Some(sends) => self.on_sends(alloc, &message, sends.as_slice(), found),
        }
    }
}

/// Whether the time of a request by stream is not over since a start.
fn is_young(conf: &TraceConf, now: u64, begun: Option<u64>) -> bool
    ensures { result ≡ plain.is_young conf.now now begun }
{
    match begun {
        None => false,
        Some(begun) => u128::from(now) < u128::from(begun) + conf.stream_timeout().as_micros(),
    }
}

/// Whether a place is alive, and of a server that the configuration has.
fn is_known_place(conf: &TraceConf, place: &Place) -> bool
    ensures { result ≡ plain.is_known_place conf.now place.now }
{
    matches!(place.stand, Stand::Alive) && conf.has_server(place.server)
}

/// The messages that come in a row for one request, or for all, as the walk over what its event brought finds them.
pub fn all_coming(
    alloc: Global,
    conf: &TraceConf,
    wanted: Option<u64>,
    past: &Books,
    sent: &Open,
    here: &Ledger,
) -> Result<Seq<Coming>, NoMemory>
    ensures { IfOk result (λ found. found ≡ plain.coming conf.now wanted past.now sent.now here.now) }
{
    let mut found = Seq::new(alloc);
    let Some(brought) = &here.frames.brought else {
        return Ok(found);
    };
    let Some(place) = past.places.get(brought.place) else {
        return Ok(found);
    };
    if !is_known_place(conf, place) {
        return Ok(found);
    }
    let arrival = Arrival {
        conf,
        wanted,
        number: brought.place,
        place: *place,
        past,
        here,
    };
    match place.via {
        Via::Dgram => {
            let read = received(alloc, conf.recv_size(), brought.frames.as_slice())?;
            arrival.in_datagrams(alloc, sent, read.as_slice(), &mut found)?
        }
        Via::Stream => arrival.in_frames(alloc, brought.frames.as_slice(), &mut found)?,
    }
    Ok(found)
}

/// The messages that come in a row for one request, or for all: `past` is what was known before the row, and `sent` what was
/// open then; `here` is what is known where it is asked, the row's event included.
pub fn find_coming(
    alloc: Global,
    conf: &TraceConf,
    wanted: Option<u64>,
    past: &Books,
    sent: &Open,
    here: &Ledger,
) -> Result<Seq<Coming>, NoMemory>
    ensures { IfOk result (plain.TellsComing conf.now wanted past.now sent.now here.now) }
{
    all_coming(alloc, conf, wanted, past, sent, here)
}
