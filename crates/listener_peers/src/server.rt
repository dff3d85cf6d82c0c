//! The places of a client and the listeners and peers of a server, over which there is one wait.

ghost use Rattle.std.specs.Prelude.{◌≡◌, ◌++◌, [], ◌∷◌, IfOk, OnOk};
ghost use Rattle.listener_peers.specs.Books.{Answers, but_open};
ghost use Rattle.listener_peers.specs.Waits.{Polls, Sleeps, TellsNext, WaitsForAll, told_of_peer};
ghost use Rattle.socket_places.specs.Books.{Acts};

use crate::books::PeerBooks;
use crate::doors::{DgramDoor, StreamDoor};
use crate::heard::{Heard, Spot};
use crate::listener::{DgramListener, Listener};
use client_request::{Out, What};
use dns_values::{NoMemory, Octets, SocketAddr};
use socket_places::{Asked, Books, Network};
use std::alloc::Global;
use std::marker::Model;

/// Something that a server is told.
#[derive(Debug, Drop)]
pub enum Told {
    /// It happened at a place of the client within.
    Place { what: What },
    /// It came of a peer.
    Peer { heard: Heard },
}

/// The places of a client, and the listeners and peers of a server.
///
/// After want of memory what was done last may be lost: the books are not to be used again.
pub struct ServerBooks<N: Network + Drop, D: DgramListener + Drop, L: Listener + Drop> {
    places: Books<N>,
    peers: PeerBooks<D, L>,
    /// What the last wait looked for beside the places, and where, kept for their memory.
    asked: Vec<Asked>,
    spots: Vec<Spot>,
}

impl<N: Network + Drop, D: DgramListener + Drop, L: Listener + Drop> Drop for ServerBooks<N, D, L> {
    fn drop(self) {
        let ServerBooks {
            places: _,
            peers: _,
            asked: _,
            spots: _,
        } = self;
    }
}

impl<N: Network + Drop, D: DgramListener + Drop, L: Listener + Drop> Model
    for ServerBooks<N, D, L> {
    ghost use Rattle.listener_peers.specs.Waits.{Server};

    ghost Value = { Server };

    ghost view = { λ b. record { places = b.places; peers = b.peers } };
}

/// What is told of a peer.
fn told_of_peer(heard: Option<Heard>) -> Option<Told>
    ensures { result ≡ told_of_peer heard }
{
    match heard {
        Some(heard) => Some(Told::Peer { heard }),
        None => None,
    }
}

/// What is known at a place, or else what is at the next peer.
fn tell_next<D: DgramListener + Drop, L: Listener + Drop>(
    known: Option<What>,
    peers: &mut PeerBooks<D, L>,
) -> Result<Option<Told>, NoMemory>
    ensures { IfOk result (TellsNext known peers.old peers.new) }
{
    match known {
        Some(what) => Ok(Some(Told::Place { what })),
        None => {
            let heard = peers.look()?;
            Ok(told_of_peer(heard))
        }
    }
}

impl<N: Network + Drop, D: DgramListener + Drop, L: Listener + Drop> ServerBooks<N, D, L> {
    /// The places of these books, and these listeners.
    pub fn new(alloc: Global, places: Books<N>, peers: PeerBooks<D, L>) -> ServerBooks<N, D, L>
        ensures { result ≡ record { places = places; peers = peers } }
    {
        ServerBooks {
            places,
            peers,
            asked: Vec::new(alloc),
            spots: Vec::new(alloc),
        }
    }

    /// The address of the client's next server, counted from 0.
    pub fn learn(&mut self, addr: SocketAddr) -> Result<(), NoMemory>
        ensures { OnOk result (self.new ≡ record self.old { places = record self.old.places { servers = self.old.places.servers ++ addr ∷ [] } }) }
    {
        self.places.learn(addr)
    }

    /// One listener more for datagrams.
    pub fn listen_dgrams(&mut self, door: DgramDoor<D>) -> Result<(), NoMemory>
        ensures { OnOk result (self.new ≡ record self.old { peers = record self.old.peers { dgrams = self.old.peers.dgrams ++ door ∷ [] } }) }
    {
        self.peers.listen_dgrams(door)
    }

    /// One listener more for streams.
    pub fn listen_streams(&mut self, door: StreamDoor<L>) -> Result<(), NoMemory>
        ensures { OnOk result (self.new ≡ record self.old { peers = record self.old.peers { doors = self.old.peers.doors ++ door ∷ [] } }) }
    {
        self.peers.listen_streams(door)
    }

    /// Does what an out of the client within asks for.
    pub fn act(&mut self, out: &Out) -> Result<(), NoMemory>
        ensures acts { OnOk result (Acts out.now self.old.places self.new.places) }
        ensures peers { OnOk result (self.new.peers ≡ self.old.peers) }
    {
        self.places.act(out)
    }

    /// Sends octets to a peer.
    pub fn answer(&mut self, peer: u64, octets: &Octets) -> Result<(), NoMemory>
        ensures answers { OnOk result (Answers peer octets.now self.old.peers self.new.peers) }
        ensures places { OnOk result (self.new.places ≡ self.old.places) }
    {
        self.peers.answer(peer, octets)
    }

    /// Closes the stream of a peer.
    pub fn close(&mut self, peer: u64)
        ensures { self.new ≡ record self.old { peers = but_open peer self.old.peers } }
    {
        self.peers.close(peer);
    }

    /// Waits until there is something at a listener, a peer or a place, but for no more than so many microseconds. Where something is
    /// known already it doesn't wait.
    pub fn wait(&mut self, most: u128) -> Result<(), NoMemory>
        ensures { OnOk result (Sleeps self.old self.new) }
    {
        if self.places.is_idle() && self.peers.is_idle() {
            self.wait_for_all(most)
        } else {
            Ok(())
        }
    }

    /// What there is, if there is anything by now. Where it gives nothing, something may be known all the same: then no wait lasts.
    pub fn poll(&mut self) -> Result<Option<Told>, NoMemory>
        ensures { IfOk result (Polls self.old self.new) }
    {
        self.wait(0)?;
        let known = self.places.next_known()?;
        tell_next(known, &mut self.peers)
    }

    /// Waits for all of them.
    fn wait_for_all(&mut self, most: u128) -> Result<(), NoMemory>
        ensures { OnOk result (WaitsForAll self.old self.new) }
    {
        self.asked.clear();
        self.spots.clear();
        self.peers.ask(&mut self.asked, &mut self.spots)?;
        self.places.wait_beside(&self.asked, most)?;
        self.peers.find(&self.places, &self.spots)?;
        Ok(())
    }
}
