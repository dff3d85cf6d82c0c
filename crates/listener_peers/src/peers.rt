//! The streams of peers by their numbers.

ghost use Rattle.std.specs.Prelude.{◌≡◌, ◌++◌, [], IfOk, OnOk, is_some};
ghost use Rattle.listener_peers.specs.Peers.{IfLook, IsNewPeer, LooksInto, PutsInto, TouchesOnly, but_peer, is_broken_at, kept_peers, peer_at};
ghost use Rattle.listener_peers.specs.Waits.{asked_of_peers, spots_of_peers};
ghost use Rattle.socket_places.specs.Told.{IsFresh};

use crate::heard::{Heard, Spot};
use crate::peer::Peer;
use dns_values::{NoMemory, Octets};
use socket_places::{Asked, Socket};
use std::alloc::Global;
use std::collections::BTreeMap;
use std::marker::Model;

/// The peers whose streams are open. Each that is taken in has the next number, and no number comes twice.
pub struct Peers<K: Socket + Drop> {
    next: u64,
    by_number: BTreeMap<u64, Peer<K>>,
}

impl<K: Socket + Drop> Drop for Peers<K> {
    fn drop(self) {
        let Peers {
            next: _,
            by_number: _,
        } = self;
    }
}

impl<K: Socket + Drop> Model for Peers<K> {
    ghost use Rattle.listener_peers.specs.Peers.{Peers};

    ghost Value = { Peers };

    ghost view = { λ p. record { next = p.next; open_ones = p.by_number.entries } };
}

impl<K: Socket + Drop> Peers<K> {
    /// No peer. The first will have this number.
    pub fn new(alloc: Global, first: u64) -> Peers<K>
        ensures { result ≡ record { next = first; open_ones = [] } }
    {
        Peers {
            next: first,
            by_number: BTreeMap::new(alloc),
        }
    }

    /// Whether the peer of a number is open.
    pub fn is_open(&self, number: u64) -> bool
        ensures { result ≡ is_some (peer_at number self.now.open_ones) }
    {
        self.by_number.contains_key(&number)
    }

    /// Takes a stream in that was accepted just now: the number of its peer.
    pub fn take_in(&mut self, alloc: Global, socket: K) -> Result<u64, NoMemory>
        requires { IsFresh (K.deals socket) }
        ensures number { IfOk result (λ number. number ≡ self.old.next) }
        ensures new { OnOk result (IsNewPeer self.old self.new) }
    {
        let number = self.next;
        self.by_number.insert(number, Peer::new(alloc, socket))?;
        self.next = number.saturating_add(1);
        Ok(number)
    }

    /// The peer of this number is closed: its socket is no longer there.
    pub fn close(&mut self, number: u64)
        ensures { self.new ≡ record { next = self.old.next; open_ones = but_peer number self.old.open_ones } }
    {
        drop(self.by_number.remove(&number));
    }

    /// Octets are put at the peer of a number: whether it is broken now.
    pub fn put(&mut self, number: u64, octets: &Octets) -> Result<bool, NoMemory>
        ensures puts { OnOk result (PutsInto number octets.now self.old self.new) }
        ensures broken { IfOk result (λ is_broken. is_broken ≡ is_broken_at (peer_at number self.new.open_ones)) }
    {
        match self.by_number.get_mut(&number) {
            Some(peer) => {
                peer.put(octets.as_slice())?;
                Ok(peer.is_broken())
            }
            None => Ok(false),
        }
    }

    /// What happened at the peer of a number, if anything did. One that is no more is closed.
    pub fn look(
        &mut self,
        number: u64,
        alloc: Global,
        buf: &mut [u8],
    ) -> Result<Option<Heard>, NoMemory>
        ensures { IfOk result (LooksInto number self.old self.new) }
    {
        let heard = self.look_at(number, alloc, buf)?;
        self.drop_gone(number, &heard);
        Ok(heard)
    }

    /// What a wait is to look for at each peer, behind what stands there, and where it finds something.
    pub fn ask(&self, asked: &mut Vec<Asked>, spots: &mut Vec<Spot>) -> Result<(), NoMemory>
        ensures asked { OnOk result (asked.new.items ≡ asked.old.items ++ asked_of_peers self.now.open_ones) }
        ensures spots { OnOk result (spots.new.items ≡ spots.old.items ++ spots_of_peers self.now.open_ones) }
    {
        for (number, peer) in &self.by_number {
            asked.push(peer.asked())?;
            spots.push(Spot::Stream { number: *number })?;
        }
        Ok(())
    }

    /// What happened at the peer of a number, which stays.
    fn look_at(
        &mut self,
        number: u64,
        alloc: Global,
        buf: &mut [u8],
    ) -> Result<Option<Heard>, NoMemory>
        ensures own { IfOk result (IfLook number (peer_at number self.old.open_ones) (peer_at number self.new.open_ones)) }
        ensures others { TouchesOnly number self.old.open_ones self.new.open_ones }
        ensures next { self.new.next ≡ self.old.next }
    {
        match self.by_number.get_mut(&number) {
            Some(peer) => peer.look(number, alloc, buf),
            None => Ok(None),
        }
    }

    /// Closes a peer of which it is told that it is no more.
    fn drop_gone(&mut self, number: u64, heard: &Option<Heard>)
        ensures { self.new ≡ record { next = self.old.next; open_ones = kept_peers number heard.now self.old.open_ones } }
    {
        if let Some(Heard::Gone { .. }) = heard {
            self.close(number);
        }
    }
}
