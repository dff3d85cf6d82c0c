//! The books of a client's edge.

ghost use Rattle.std.specs.Prelude.{◌≡◌, ◌++◌, [], ◌∷◌, slice_get, IfOk, OnOk, None};
ghost use Rattle.client_request.specs.declared.event.Via.{Via};
ghost use Rattle.socket_places.specs.Books.{Acts, IsOpened, Looks, LooksFirst, OpensAt, OpensTo, Polls, PutsAt, Sleeps, TellsKnown, WaitsAgain, WaitsBeside, but_first, first_stage, is_idle, is_open_at, is_told, kept_places, place_told, told_first};
ghost use Rattle.socket_places.specs.Told.{IsFresh, found_at};

use crate::network::{Asked, Network};
use crate::place::Place;
use crate::places::Places;
use crate::socket::{Socket, Stage};
use client_request::{Fault, Out, Via, What};
use dns_values::{NoMemory, Octets, SocketAddr};
use std::alloc::Global;
use std::collections::VecDeque;
use std::marker::Model;

/// The most octets that one call takes from a socket.
const SIZE: usize = 65535;

/// The servers and the places of a client, and what happened at them of which nobody was told.
///
/// Nobody is told of a place that is closed. A server that was not learned can't be opened, with the fault `Other`. After want of
/// memory what was done last may be lost: the books are not to be used again.
pub struct Books<N: Network + Drop> {
    alloc: Global,
    network: N,
    servers: Vec<SocketAddr>,
    places: Places<N::Socket>,
    happened: VecDeque<What>,
    found: VecDeque<u64>,
    /// What the last wait looked for, kept for its memory.
    asked: Vec<Asked>,
    /// Where sockets put what they give.
    buf: Vec<u8>,
}

impl<N: Network + Drop> Drop for Books<N> {
    fn drop(self) {
        let Books {
            alloc: _,
            network: _,
            servers: _,
            places: _,
            happened: _,
            found: _,
            asked: _,
            buf: _,
        } = self;
    }
}

impl<N: Network + Drop> Model for Books<N> {
    ghost use Rattle.socket_places.specs.Books.{Books};

    ghost Value = { Books };

    ghost view = { λ b. record {
      servers = b.servers.items;
      openings = N.openings b.network;
      asks = N.asks b.network;
      finds = N.found b.network;
      places = b.places;
      happened = b.happened.items;
      found = b.found.items;
    } };
}

/// How far a socket is that was opened just now.
fn first_stage(via: Via) -> Stage
    ensures { result ≡ first_stage via }
{
    match via {
        Via::Dgram => Stage::Dgram,
        Via::Stream => Stage::Opening,
    }
}

/// The place of which something tells.
fn place_told(what: &What) -> Option<u64>
    ensures { result ≡ place_told what.now }
{
    match what {
        What::Opened { place }
        | What::SendFailed { place, .. }
        | What::ShortSend { place }
        | What::Datagram { place, .. }
        | What::RecvFailed { place, .. }
        | What::Wrote { place, .. }
        | What::WriteFailed { place, .. }
        | What::Bytes { place, .. }
        | What::ReadFailed { place, .. }
        | What::Ended { place } => Some(*place),
        What::Ask { .. } | What::OpenFailed { .. } | What::Tick => None,
    }
}

/// Whether a place is open, where there is one.
fn is_open_at<K: Socket + Drop>(place: Option<u64>, places: &Places<K>) -> bool
    ensures { result ≡ is_open_at place places.now }
{
    match place {
        Some(place) => places.is_open(place),
        None => false,
    }
}

/// Whether something is to be told by now.
fn is_told<K: Socket + Drop>(what: &What, places: &Places<K>) -> bool
    ensures { result ≡ is_told what.now places.now }
{
    match what {
        What::OpenFailed { .. } => true,
        _ => is_open_at(place_told(what), places),
    }
}

/// Closes a place of which it is told that it could not be opened.
fn drop_failed<K: Socket + Drop>(number: u64, told: &Option<What>, places: &mut Places<K>)
    ensures { places.new ≡ kept_places number told.now places.old }
{
    if let Some(What::OpenFailed { .. }) = told {
        places.close(number);
    }
}

impl<N: Network + Drop> Books<N> {
    /// Books without servers and places.
    pub fn new(alloc: Global, network: N) -> Books<N>
        ensures { result ≡ record { servers = []; openings = N.openings network; asks = N.asks network; finds = N.found network; places = []; happened = []; found = [] } }
    {
        Books {
            alloc,
            network,
            servers: Vec::new(alloc),
            places: Places::new(alloc),
            happened: VecDeque::new(alloc),
            found: VecDeque::new(alloc),
            asked: Vec::new(alloc),
            buf: Vec::new(alloc),
        }
    }

    /// The address of the next server, counted from 0.
    pub fn learn(&mut self, addr: SocketAddr) -> Result<(), NoMemory>
        ensures { OnOk result (self.new ≡ record self.old { servers = self.old.servers ++ addr ∷ [] }) }
    {
        self.servers.push(addr)?;
        Ok(())
    }

    /// Does what an out asks for.
    pub fn act(&mut self, out: &Out) -> Result<(), NoMemory>
        ensures { OnOk result (Acts out.now self.old self.new) }
    {
        match out {
            Out::OpenDgram { place, server } => self.open(*place, Via::Dgram, *server),
            Out::OpenStream { place, server } => self.open(*place, Via::Stream, *server),
            Out::Send { place, octets, .. }
            | Out::Write { place, octets, .. }
            | Out::Resume { place, octets } => self.put(*place, octets),
            Out::Close { place } => {
                self.places.close(*place);
                Ok(())
            }
            _ => Ok(()),
        }
    }

    /// Waits until there is something at a place, but for no more than so many microseconds. Where something is known already it
    /// doesn't wait.
    pub fn wait(&mut self, most: u128) -> Result<(), NoMemory>
        ensures { OnOk result (Sleeps self.old.happened self.old self.new) }
    {
        if self.happened.is_empty() {
            self.wait_again(most)
        } else {
            Ok(())
        }
    }

    /// Waits until there is something at one of these others or at a place, but for no more than so many microseconds, whatever is
    /// known. Where the last wait found something that was not looked at, a place tells of it once more.
    pub fn wait_beside(&mut self, others: &[Asked], most: u128) -> Result<(), NoMemory>
        ensures { OnOk result (WaitsBeside others.now self.old self.new) }
    {
        self.asked.clear();
        self.asked.extend_from_slice(others)?;
        self.places.ask(&mut self.asked)?;
        self.network.ready(&self.asked, most)?;
        self.found.clear();
        self.places
            .find(&self.network, others.len(), &mut self.found)?;
        Ok(())
    }

    /// Whether the last wait found something at this position, counted from 0: first those of the others, then those of the places.
    pub fn has_found(&self, at: usize) -> bool
        ensures { result ≡ found_at self.now.finds at }
    {
        self.network.is_found(at)
    }

    /// Whether nothing is known of which nobody was told.
    pub fn is_idle(&self) -> bool
        ensures { result ≡ is_idle self.now }
    {
        self.happened.is_empty() && self.found.is_empty()
    }

    /// What is known, without a wait: what happened first, or what is at the next place at which the last wait found something.
    pub fn next_known(&mut self) -> Result<Option<What>, NoMemory>
        ensures { IfOk result (TellsKnown (told_first self.old.happened self.old.places) (but_first self.old) self.new) }
    {
        match self.next_happened() {
            Some(what) => Ok(Some(what)),
            None => self.look(),
        }
    }

    /// What happened, if anything did by now. Where it gives nothing, something may be known all the same: then no wait lasts.
    pub fn poll(&mut self) -> Result<Option<What>, NoMemory>
        ensures { IfOk result (Polls (told_first self.old.happened self.old.places) (but_first self.old) self.new) }
    {
        if let Some(what) = self.next_happened() {
            return Ok(Some(what));
        }
        self.wait_again(0)?;
        self.look()
    }

    /// The address of a server.
    fn address_of(&self, server: u32) -> Option<SocketAddr>
        ensures { result ≡ slice_get self.now.servers server }
    {
        self.servers.get(server as usize).copied()
    }

    /// Keeps that something happened.
    fn tell(&mut self, what: What) -> Result<(), NoMemory>
        ensures { OnOk result (self.new ≡ record self.old { happened = self.old.happened ++ what ∷ [] }) }
    {
        self.happened.push_back(what)?;
        Ok(())
    }

    /// Opens a socket to a server.
    fn open(&mut self, place: u64, via: Via, server: u32) -> Result<(), NoMemory>
        ensures { OnOk result (OpensAt place via (slice_get self.old.servers server) self.old self.new) }
    {
        match self.address_of(server) {
            Some(addr) => self.open_to(place, via, addr),
            None => self.tell(What::OpenFailed {
                place,
                fault: Fault::Other,
            }),
        }
    }

    /// Opens a socket to an address.
    fn open_to(&mut self, place: u64, via: Via, addr: SocketAddr) -> Result<(), NoMemory>
        ensures { OnOk result (OpensTo place via addr self.old self.new) }
    {
        self.buf.resize(SIZE, 0)?;
        match self.network.open(via, addr)? {
            Ok(socket) => self.take_in(place, via, socket),
            Err(fault) => {
                self.tell(What::OpenFailed { place, fault })?;
                Ok(())
            }
        }
    }

    /// A place for a socket that was opened just now.
    fn take_in(&mut self, number: u64, via: Via, socket: N::Socket) -> Result<(), NoMemory>
        requires { IsFresh (N.Socket.deals socket) }
        ensures opened { OnOk result (IsOpened number via None self.old self.new) }
        ensures others { OnOk result (self.new ≡ record self.old { places = self.new.places; happened = self.new.happened }) }
    {
        let place = Place::new(self.alloc, socket, first_stage(via));
        self.places.open(number, place)?;
        match via {
            Via::Dgram => self.tell(What::Opened { place: number }),
            Via::Stream => Ok(()),
        }
    }

    /// Puts octets at a place.
    fn put(&mut self, place: u64, octets: &Octets) -> Result<(), NoMemory>
        ensures { OnOk result (PutsAt place octets.now self.old self.new) }
    {
        self.happened.reserve(1)?;
        match self.places.put(place, octets)? {
            Some(what) => self.tell(what),
            None => Ok(()),
        }
    }

    /// What happened first, where it is to be told.
    fn next_happened(&mut self) -> Option<What>
        ensures told { result ≡ told_first self.old.happened self.old.places }
        ensures after { self.new ≡ but_first self.old }
    {
        let what = self.happened.pop_front()?;
        if is_told(&what, &self.places) {
            Some(what)
        } else {
            None
        }
    }

    /// Waits once all places at which the last wait found something were looked at.
    fn wait_again(&mut self, most: u128) -> Result<(), NoMemory>
        ensures { OnOk result (WaitsAgain self.old.found self.old self.new) }
    {
        if self.found.is_empty() {
            self.wait_beside(&[], most)
        } else {
            Ok(())
        }
    }

    /// What happened at the next place at which a wait found something. It is looked at once, so that none waits for another that
    /// always has something.
    fn look(&mut self) -> Result<Option<What>, NoMemory>
        ensures { IfOk result (Looks self.old.found self.old self.new) }
    {
        match self.found.pop_front() {
            Some(number) => self.look_at(number),
            None => Ok(None),
        }
    }

    /// What happened at a place.
    fn look_at(&mut self, number: u64) -> Result<Option<What>, NoMemory>
        ensures { IfOk result (LooksFirst number self.old.found self.old self.new) }
    {
        let what = self.places.look(number, self.alloc, &mut self.buf)?;
        drop_failed(number, &what, &mut self.places);
        Ok(what)
    }
}
