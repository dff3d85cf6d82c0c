//! The stream of a peer, and what it has not taken yet.

ghost use Rattle.std.specs.Prelude.{◌≡◌, [], false, length, nat_lt, IfOk, OnOk, IfSome};
ghost use Rattle.listener_peers.specs.Streams.{HandsOver, HandsUnless, IsLook, IsPut, Reads, Writes, and_unsent, asked_of, if_small, told_of_reading};

use crate::heard::Heard;
use crate::unsent::Unsent;
use dns_values::{NoMemory, Octets};
use socket_places::{Answer, Asked, Socket};
use std::alloc::Global;
use std::marker::Model;

/// The most octets that may be unsent at a peer.
const MOST_UNSENT: usize = 1_048_576;

/// The stream of a peer.
pub struct Peer<K: Socket + Drop> {
    socket: K,
    descriptor: i32,
    unsent: Unsent,
    is_broken: bool,
}

impl<K: Socket + Drop> Drop for Peer<K> {
    fn drop(self) {
        let Peer {
            socket: _,
            descriptor: _,
            unsent: _,
            is_broken: _,
        } = self;
    }
}

impl<K: Socket + Drop> Model for Peer<K> {
    ghost use Rattle.listener_peers.specs.Streams.{Peer};

    ghost Value = { Peer };

    ghost view = { λ p. record { descriptor = p.descriptor; unsent = p.unsent; broken = p.is_broken; deals = K.deals p.socket } };
}

/// What is told of octets for which a socket was asked.
fn told_of_reading(peer: u64, answer: Answer<Octets>) -> Option<Heard>
    ensures { result ≡ told_of_reading peer answer }
{
    match answer {
        Answer::Done(octets) if octets.as_slice().is_empty() => Some(Heard::Gone { peer }),
        Answer::Done(octets) => Some(Heard::Bytes { peer, octets }),
        Answer::Failed(_) => Some(Heard::Gone { peer }),
        Answer::Later => None,
    }
}

impl<K: Socket + Drop> Peer<K> {
    /// A peer to which nothing was sent.
    pub fn new(alloc: Global, socket: K) -> Peer<K>
        ensures descriptor { IfSome (K.number socket) (λ n. result.descriptor ≡ n) }
        ensures unsent { result.unsent ≡ [] }
        ensures broken { result.broken ≡ false }
        ensures deals { result.deals ≡ K.deals socket }
    {
        Peer {
            descriptor: socket.descriptor(),
            socket,
            unsent: Unsent::new(alloc),
            is_broken: false,
        }
    }

    /// Whether nothing more can be sent to it.
    pub fn is_broken(&self) -> bool
        ensures { result ≡ self.now.broken }
    {
        self.is_broken
    }

    /// What a wait is to look for here.
    pub fn asked(&self) -> Asked
        ensures { result ≡ asked_of self.now }
    {
        let waits = self.unsent.len() > 0;
        Asked {
            descriptor: self.descriptor,
            reads: !self.is_broken && !waits,
            writes: !self.is_broken && waits,
        }
    }

    /// Octets go behind those that went before.
    pub fn put(&mut self, octets: &[u8]) -> Result<(), NoMemory>
        ensures { OnOk result (IsPut octets.now self.old self.new) }
    {
        if self.is_broken {
            return Ok(());
        }
        self.take(octets)?;
        self.break_if_large();
        Ok(())
    }

    /// What happened here, if anything did.
    pub fn look(
        &mut self,
        peer: u64,
        alloc: Global,
        buf: &mut [u8],
    ) -> Result<Option<Heard>, NoMemory>
        ensures { IfOk result (IsLook peer self.old self.new) }
    {
        if self.is_broken {
            return Ok(Some(Heard::Gone { peer }));
        }
        if self.unsent.len() > 0 {
            return self.go_on(peer);
        }
        self.read(peer, alloc, buf)
    }

    /// Hands octets over, or lets them stand behind those that are unsent.
    fn take(&mut self, octets: &[u8]) -> Result<(), NoMemory>
        ensures { OnOk result (HandsUnless (nat_lt 0 (length self.old.unsent)) (and_unsent octets.now self.old) self.new) }
    {
        let waits = self.unsent.len() > 0;
        self.unsent.push(octets)?;
        if waits { Ok(()) } else { self.hand_over() }
    }

    /// A peer at which too much is unsent is broken.
    fn break_if_large(&mut self)
        ensures { self.new ≡ if_small self.old }
    {
        self.is_broken = self.is_broken || self.unsent.len() > MOST_UNSENT;
    }

    /// Hands over what is unsent.
    fn hand_over(&mut self) -> Result<(), NoMemory>
        ensures { OnOk result (HandsOver self.old self.new) }
    {
        match self.socket.put(self.unsent.as_slice())? {
            Answer::Done(count) => {
                self.unsent.drop_front(count);
                self.is_broken = false;
            }
            Answer::Failed(_) => self.is_broken = true,
            Answer::Later => self.is_broken = false,
        }
        Ok(())
    }

    /// Hands over what is unsent: what is told where it can't be.
    fn go_on(&mut self, peer: u64) -> Result<Option<Heard>, NoMemory>
        ensures { IfOk result (Writes peer self.old self.new) }
    {
        self.hand_over()?;
        if self.is_broken {
            Ok(Some(Heard::Gone { peer }))
        } else {
            Ok(None)
        }
    }

    /// What came.
    fn read(&mut self, peer: u64, alloc: Global, buf: &mut [u8]) -> Result<Option<Heard>, NoMemory>
        ensures { IfOk result (Reads peer self.old self.new) }
    {
        let answer = self.socket.take(alloc, buf)?;
        Ok(told_of_reading(peer, answer))
    }
}
