//! The streams of DNS clients.

ghost use Rattle.std.specs.Prelude.{◌≡◌, ◌++◌, OnOk, IfOk, None, is_some};
ghost use Rattle.number_table.specs.Entries.{entry_at};
ghost use Rattle.front_peers.specs.Items as spec;

use crate::event::{FrontEvent, FrontWhat};
use crate::items::{Item, Items, push_datagram, take_frames};
use client_request::{FIRST_STREAM, What};
use client_stream::Framer;
use dns_base::NoMemory;
use front_queries::sort;
use number_table::NumberTable;
use std::alloc::Global;
use std::marker::Model;

/// How many streams may be open (RFC 7766 6.2.2).
const MOST_STREAMS: usize = 100;

/// A stream that is open.
#[derive(Drop)]
pub struct Stream {
    /// The octets that no frame has taken.
    pub framer: Framer,
    /// The moment of its last `Accepted`, `Bytes` or answer, in microseconds.
    pub heard: u64,
}

/// The streams of peers.
pub struct Peers {
    alloc: Global,
    streams: NumberTable<Stream>,
    /// The greatest number that was accepted.
    last: Option<u64>,
    /// The moment of the last event, in microseconds.
    moment: u64,
}

impl Model for Peers {
    ghost Value = { spec.Streams };

    ghost view = { λ p. record { streams = p.streams; last = p.last; moment = p.moment } };
}

impl Drop for Peers {
    fn drop(self) {
        let Peers {
            alloc: _,
            streams: _,
            last: _,
            moment: _,
        } = self;
    }
}

/// Whether a number is that of a stream.
fn is_stream(peer: u64) -> bool
    ensures { result ≡ spec.is_stream peer }
{
    FIRST_STREAM <= peer
}

/// Whether a number is above all that were accepted.
fn is_new(peer: u64, last: Option<u64>) -> bool
    ensures { result ≡ spec.is_new peer last }
{
    match last {
        None => true,
        Some(last) => last < peer,
    }
}

/// Who was quiet longer, and since when.
fn quieter(first: Option<(u64, u64)>, peer: u64, heard: u64) -> Option<(u64, u64)>
    ensures { result ≡ spec.quieter first peer heard }
{
    match first {
        None => Some((peer, heard)),
        Some(first) => {
            if heard < first.1 {
                Some((peer, heard))
            } else {
                Some(first)
            }
        }
    }
}

/// Who was quiet longest, and since when.
fn quietest(streams: &NumberTable<Stream>) -> Option<(u64, u64)>
    ensures { result ≡ spec.quietest None streams.now }
{
    let mut first = None;
    for (peer, stream) in streams {
        first = quieter(first, peer, stream.heard);
    }
    first
}

/// Adds that the stream which was quiet longest is dropped, where as many are open as may be.
fn make_room(streams: &NumberTable<Stream>, items: &mut Items) -> Result<(), NoMemory>
    ensures { OnOk result (items.new ≡ items.old ++ spec.makes_room streams.now) }
{
    if streams.len() < MOST_STREAMS {
        return Ok(());
    }
    match quietest(streams) {
        None => Ok(()),
        Some((peer, _)) => items.push(Item::Drops { peer }),
    }
}

/// What happens to the client within: a request that is asked counts as time.
fn unless_ask(alloc: Global, what: &What) -> Result<What, NoMemory>
    ensures { IfOk result (λ w. w ≡ spec.unless_ask what.now) }
{
    match what {
        What::Ask { .. } => Ok(What::Tick),
        what => what.try_clone(alloc),
    }
}

impl Peers {
    /// No stream was accepted.
    pub fn new(alloc: Global) -> Peers
        ensures { result ≡ spec.no_streams }
    {
        Peers {
            alloc,
            streams: NumberTable::new(alloc),
            last: None,
            moment: 0,
        }
    }

    fn hear(&mut self, peer: u64, framer: Framer) -> Result<(), NoMemory>
        ensures { OnOk result (self.new ≡ spec.hears peer framer self.old) }
    {
        let stream = Stream {
            framer,
            heard: self.moment,
        };
        match self.streams.insert(peer, stream) {
            Ok(_) => Ok(()),
            Err(_) => Err(NoMemory),
        }
    }

    fn open(&mut self, peer: u64) -> Result<(), NoMemory>
        ensures { OnOk result (self.new ≡ spec.opens peer self.old) }
    {
        self.last = Some(peer);
        self.hear(peer, Framer::new(self.alloc))
    }

    fn accept(&mut self, peer: u64, items: &mut Items) -> Result<(), NoMemory>
        ensures items { OnOk result (items.new ≡ items.old ++ (spec.accepts peer self.old).0) }
        ensures streams { OnOk result (self.new ≡ (spec.accepts peer self.old).1) }
    {
        if !is_new(peer, self.last) {
            return Ok(());
        }
        make_room(&self.streams, items)?;
        self.open(peer)
    }

    fn bring(&mut self, peer: u64, octets: &[u8], items: &mut Items) -> Result<(), NoMemory>
        ensures items { OnOk result (items.new ≡ items.old ++ (spec.brings peer octets.now self.old (entry_at peer self.old.streams)).0) }
        ensures streams { OnOk result (self.new ≡ (spec.brings peer octets.now self.old (entry_at peer self.old.streams)).1) }
    {
        let Some(
            Stream {
                mut framer,
                heard: _,
            },
        ) = self.streams.remove(peer)
        else {
            return Ok(());
        };
        framer.feed(octets)?;
        take_frames(self.alloc, peer, &mut framer, octets.len(), items)?;
        self.hear(peer, framer)
    }

    fn take_now(&mut self, what: &FrontWhat, items: &mut Items) -> Result<(), NoMemory>
        ensures items { OnOk result (items.new ≡ items.old ++ (spec.takes_now what.now self.old).0) }
        ensures streams { OnOk result (self.new ≡ (spec.takes_now what.now self.old).1) }
    {
        match what {
            FrontWhat::Datagram { peer, octets } => {
                if is_stream(*peer) {
                    return Ok(());
                }
                let sorted = sort(self.alloc, octets.try_clone()?)?;
                push_datagram(*peer, sorted, items)
            }
            FrontWhat::Accepted { peer } => {
                if is_stream(*peer) {
                    self.accept(*peer, items)
                } else {
                    Ok(())
                }
            }
            FrontWhat::Bytes { peer, octets } => self.bring(*peer, octets.as_slice(), items),
            FrontWhat::Gone { peer } => {
                self.close(*peer);
                Ok(())
            }
            FrontWhat::Core { what } => {
                let what = unless_ask(self.alloc, what)?;
                items.push(Item::Happens(what))
            }
        }
    }

    /// The stream of a peer is open no longer.
    pub fn close(&mut self, peer: u64)
        ensures { self.new ≡ spec.closes peer self.old }
    {
        let _stream = self.streams.remove(peer);
    }

    /// Adds what an event comes to; a stream that is to be dropped is open until it is closed. A moment before that of an earlier event counts as that one.
    pub fn take(&mut self, event: &FrontEvent, items: &mut Items) -> Result<(), NoMemory>
        ensures items { OnOk result (items.new ≡ items.old ++ (spec.takes event.now self.old).0) }
        ensures streams { OnOk result (self.new ≡ (spec.takes event.now self.old).1) }
    {
        self.moment = self.moment.max(event.moment.0);
        self.take_now(&event.what, items)
    }

    /// An answer goes by the stream of a peer, if that is open. Whether it does.
    pub fn answer_by(&mut self, peer: u64) -> Result<bool, NoMemory>
        ensures open { IfOk result (λ open_. open_ ≡ is_some (entry_at peer self.old.streams)) }
        ensures streams { OnOk result (self.new ≡ spec.answers_by peer self.old (entry_at peer self.old.streams)) }
    {
        match self.streams.remove(peer) {
            None => Ok(false),
            Some(stream) => {
                self.hear(peer, stream.framer)?;
                Ok(true)
            }
        }
    }
}
