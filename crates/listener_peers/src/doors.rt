//! Listeners, with the numbers by which a wait knows them.

ghost use Rattle.std.specs.Prelude.{◌≡◌, ◌++◌, IfOk, OnOk, IfSome};
ghost use Rattle.listener_peers.specs.Doors.{IfDone, after_accept, after_post, asked_of_dgrams, asked_of_streams, without_value};
ghost use Rattle.listener_peers.specs.declared.listener.Post.{Post};
ghost use Rattle.listener_peers.specs.Waits.{asked_of_doors, asked_of_listeners, spots_of_doors, spots_of_listeners};
ghost use Rattle.socket_places.specs.Told.{IsFresh};

use crate::heard::Spot;
use crate::listener::{DgramListener, Letter, Listener};
use dns_values::{NoMemory, Octets, SocketAddr};
use socket_places::{Answer, Asked};
use std::alloc::Global;
use std::marker::Model;

/// How many more a listener may give that was found, before another wait.
const BURST: u32 = 63;

/// A socket that takes datagrams of anyone.
pub struct DgramDoor<D: DgramListener + Drop> {
    listener: D,
    descriptor: i32,
}

impl<D: DgramListener + Drop> Drop for DgramDoor<D> {
    fn drop(self) {
        let DgramDoor {
            listener: _,
            descriptor: _,
        } = self;
    }
}

impl<D: DgramListener + Drop> Model for DgramDoor<D> {
    ghost use Rattle.listener_peers.specs.Doors.{DgramDoor};

    ghost Value = { DgramDoor };

    ghost view = { λ d. record { descriptor = d.descriptor; posts = D.posts d.listener } };
}

impl<D: DgramListener + Drop> DgramDoor<D> {
    /// A listener.
    pub fn new(listener: D) -> DgramDoor<D>
        ensures descriptor { IfSome (D.number listener) (λ n. result.descriptor ≡ n) }
        ensures posts { result.posts ≡ D.posts listener }
    {
        DgramDoor {
            descriptor: listener.descriptor(),
            listener,
        }
    }

    /// What a wait is to look for here.
    pub fn asked(&self) -> Asked
        ensures { result ≡ asked_of_dgrams self.now }
    {
        Asked {
            descriptor: self.descriptor,
            reads: true,
            writes: false,
        }
    }

    /// The next datagram.
    pub fn receive(&mut self, alloc: Global, buf: &mut [u8]) -> Result<Answer<Letter>, NoMemory>
        ensures { IfOk result (λ answer. self.new ≡ after_post (Post.Came answer) self.old) }
    {
        self.listener.receive(alloc, buf)
    }

    /// Hands it a datagram: how many of its octets it took.
    pub fn send(&mut self, to: SocketAddr, octets: &Octets) -> Result<Answer<usize>, NoMemory>
        ensures { IfOk result (λ answer. self.new ≡ after_post (Post.Went to octets.now answer) self.old) }
    {
        self.listener.send(to, octets)
    }
}

/// A listener for streams.
pub struct StreamDoor<L: Listener + Drop> {
    listener: L,
    descriptor: i32,
}

impl<L: Listener + Drop> Drop for StreamDoor<L> {
    fn drop(self) {
        let StreamDoor {
            listener: _,
            descriptor: _,
        } = self;
    }
}

impl<L: Listener + Drop> Model for StreamDoor<L> {
    ghost use Rattle.listener_peers.specs.Doors.{StreamDoor};

    ghost Value = { StreamDoor };

    ghost view = { λ d. record { descriptor = d.descriptor; accepts = L.accepts d.listener } };
}

impl<L: Listener + Drop> StreamDoor<L> {
    /// A listener.
    pub fn new(listener: L) -> StreamDoor<L>
        ensures descriptor { IfSome (L.number listener) (λ n. result.descriptor ≡ n) }
        ensures accepts { result.accepts ≡ L.accepts listener }
    {
        StreamDoor {
            descriptor: listener.descriptor(),
            listener,
        }
    }

    /// What a wait is to look for here.
    pub fn asked(&self) -> Asked
        ensures { result ≡ asked_of_streams self.now }
    {
        Asked {
            descriptor: self.descriptor,
            reads: true,
            writes: false,
        }
    }

    /// The next stream.
    pub fn accept(&mut self) -> Result<Answer<L::Stream>, NoMemory>
        ensures accepts { IfOk result (λ answer. self.new ≡ after_accept (without_value answer) self.old) }
        ensures fresh { IfOk result (IfDone (λ stream. IsFresh (L.Stream.deals stream))) }
    {
        self.listener.accept()
    }
}

/// What a wait is to look for at each listener for datagrams, behind what stands there, and where it finds something.
pub(crate) fn ask_dgrams<D: DgramListener + Drop>(
    doors: &[DgramDoor<D>],
    asked: &mut Vec<Asked>,
    spots: &mut Vec<Spot>,
) -> Result<(), NoMemory>
    ensures asked { OnOk result (asked.new.items ≡ asked.old.items ++ asked_of_doors doors.now) }
    ensures spots { OnOk result (spots.new.items ≡ spots.old.items ++ spots_of_doors 0 doors.now) }
{
    let mut at = 0usize;
    for door in doors {
        asked.push(door.asked())?;
        spots.push(Spot::Dgrams { at, left: BURST })?;
        at = at.saturating_add(1);
    }
    Ok(())
}

/// The same at each listener for streams.
pub(crate) fn ask_streams<L: Listener + Drop>(
    doors: &[StreamDoor<L>],
    asked: &mut Vec<Asked>,
    spots: &mut Vec<Spot>,
) -> Result<(), NoMemory>
    ensures asked { OnOk result (asked.new.items ≡ asked.old.items ++ asked_of_listeners doors.now) }
    ensures spots { OnOk result (spots.new.items ≡ spots.old.items ++ spots_of_listeners 0 doors.now) }
{
    let mut at = 0usize;
    for door in doors {
        asked.push(door.asked())?;
        spots.push(Spot::Streams { at, left: BURST })?;
        at = at.saturating_add(1);
    }
    Ok(())
}
