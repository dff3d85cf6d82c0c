//! What takes peers in.

ghost use Rattle.std.specs.Prelude.{◌≡◌, ℤ, List, Option, length, IfOk, IfSome};
ghost use Rattle.socket_places.specs.declared.socket.Answer.{Answer};
ghost use Rattle.socket_places.specs.Told.{IsFresh, IsWithin, after_one};
ghost use Rattle.listener_peers.specs.declared.listener.Post.{Post};
ghost use Rattle.listener_peers.specs.Doors.{IfDone, without_value};

use dns_values::{NoMemory, Octets, SocketAddr};
use socket_places::{Answer, Socket};
use std::alloc::Global;

/// A datagram, and the address from which it came.
#[derive(Debug, Drop)]
pub struct Letter {
    /// The address from which it came.
    pub from: SocketAddr,
    /// What it holds.
    pub octets: Octets,
}

/// A call of a socket that takes datagrams of anyone, and what it answered.
#[derive(Debug, Drop)]
pub enum Post {
    /// It was asked for a datagram, and gave this one.
    Came {
        answer: Answer<Letter>,
    },
    /// It was handed a datagram to an address.
    Went {
        to: SocketAddr,
        octets: Octets,
        answer: Answer<usize>,
    },
}

/// A socket that takes datagrams of anyone, and is called without a wait.
///
/// Where it knows what was done with it, it tells that as one list; and the number by which a wait knows it, where it knows that. A
/// call that fails for want of memory has done nothing that is told.
pub trait DgramListener {
    ghost posts: { Self → Option (List Post) };

    ghost number: { Self → Option ℤ };

    /// The number by which a wait knows it: its descriptor.
    fn descriptor(&self) -> i32
        ensures number { IfSome (number self.now) (λ n. result ≡ n) };

    /// The next datagram. The buffer is for its use alone.
    fn receive(&mut self, alloc: Global, buf: &mut [u8]) -> Result<Answer<Letter>, NoMemory>
        ensures posts { IfOk result (λ answer. posts self.new ≡ after_one (Post.Came answer) (posts self.old)) };

    /// Hands it a datagram: how many of its octets it took.
    fn send(&mut self, to: SocketAddr, octets: &Octets) -> Result<Answer<usize>, NoMemory>
        ensures within { IfOk result (IsWithin (length octets.now)) }
        ensures posts { IfOk result (λ answer. posts self.new ≡ after_one (Post.Went to octets.now answer) (posts self.old)) };
}

/// What takes streams of anyone, and is called without a wait.
///
/// Where it knows what was done with it, it tells that as one list; and the number by which a wait knows it, where it knows that. A
/// call that fails for want of memory has done nothing that is told.
pub trait Listener {
    type Stream: Socket + Drop;

    ghost accepts: { Self → Option (List (Answer (Unit {0}))) };

    ghost number: { Self → Option ℤ };

    /// The number by which a wait knows it: its descriptor.
    fn descriptor(&self) -> i32
        ensures number { IfSome (number self.now) (λ n. result ≡ n) };

    /// The next stream, which is connected. No call of it has been made then.
    fn accept(&mut self) -> Result<Answer<Self::Stream>, NoMemory>
        ensures accepts { IfOk result (λ answer. accepts self.new ≡ after_one (without_value answer) (accepts self.old)) }
        ensures fresh { IfOk result (IfDone (λ stream. IsFresh (Self.Stream.deals stream))) };
}
