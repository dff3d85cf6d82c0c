//! A socket as the books see it: what it is called for, and how far it is.

ghost use Rattle.std.specs.Prelude.{◌≡◌, ℤ, ◌≤◌, List, Option, length, IfOk, IfSome};
ghost use Rattle.socket_places.specs.declared.socket.Answer.{Answer};
ghost use Rattle.socket_places.specs.declared.socket.Deal.{Deal};
ghost use Rattle.socket_places.specs.Told.{after_one, IsWithin};

use client_request::Fault;
use dns_values::{NoMemory, Octets};
use std::alloc::Global;

/// What a socket answers to a call that does not wait.
#[derive(Debug, Drop)]
pub enum Answer<T> {
    /// It did what it was called for.
    Done(T),
    /// It failed.
    Failed(Fault),
    /// It can't do it yet, and did nothing.
    Later,
}

/// A call of a socket, and what it answered.
#[derive(Debug, Drop)]
pub enum Deal {
    /// It was to open.
    Opened {
        answer: Answer<()>,
    },
    /// It was handed these octets, and took so many of them.
    Put {
        octets: Octets,
        answer: Answer<usize>,
    },
    /// It was asked for octets, and gave these.
    Took {
        answer: Answer<Octets>,
    },
}

/// How far the socket of a place is.
#[derive(Clone, Copy, Debug, PartialEq, Eq)]
pub enum Stage {
    /// It is for datagrams.
    Dgram,
    /// It is a stream that is connecting.
    Opening,
    /// It is a stream that is connected.
    Open,
    /// It is a stream from which nothing more is read.
    Ended,
}

/// A socket that is called without a wait.
///
/// Where it knows what was done with it, it tells that as one list; and the number by which a wait knows it, where it knows that.
/// A call that fails for want of memory has done nothing that is told.
pub trait Socket {
    ghost deals: { Self → Option (List Deal) };

    ghost number: { Self → Option ℤ };

    /// The number by which a wait knows it: its descriptor.
    fn descriptor(&self) -> i32
        ensures number { IfSome (number self.now) (λ n. result ≡ n) };

    /// Whether a stream is connected by now, or can't be.
    fn opened(&mut self) -> Result<Answer<()>, NoMemory>
        ensures deals { IfOk result (λ answer. deals self.new ≡ after_one (Deal.Opened answer) (deals self.old)) };

    /// Hands it octets: how many of them it took.
    fn put(&mut self, octets: &[u8]) -> Result<Answer<usize>, NoMemory>
        ensures within { IfOk result (IsWithin (length octets.now)) }
        ensures deals { IfOk result (λ answer. deals self.new ≡ after_one (Deal.Put octets.now answer) (deals self.old)) };

    /// What came: a datagram, or some octets of a stream, none of them at its end. The buffer is for its use alone.
    fn take(&mut self, alloc: Global, buf: &mut [u8]) -> Result<Answer<Octets>, NoMemory>
        ensures deals { IfOk result (λ answer. deals self.new ≡ after_one (Deal.Took answer) (deals self.old)) };
}
