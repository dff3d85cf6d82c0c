//! A socket of one of two kinds.

ghost use Rattle.std.specs.Prelude.{◌≡◌, ◌≤◌, length, IfOk, IfSome};
ghost use Rattle.socket_places.specs.declared.socket.Deal.{Deal};
ghost use Rattle.socket_places.specs.Told.{IsWithin, after_one};

use crate::socket::{Answer, Socket};
use dns_values::{NoMemory, Octets};
use std::alloc::Global;

/// A socket for datagrams, or a stream.
#[derive(Drop)]
pub enum AnySocket<D: Socket + Drop, S: Socket + Drop> {
    /// A socket for datagrams.
    Dgram(D),
    /// A stream.
    Stream(S),
}

impl<D: Socket + Drop, S: Socket + Drop> Socket for AnySocket<D, S> {
    ghost use Rattle.socket_places.specs.declared.any_socket.AnySocket.TheVariants.{Dgram, Stream};

    ghost deals = { elim [ Dgram d ↦ D.deals d | Stream s ↦ S.deals s ] };

    ghost number = { elim [ Dgram d ↦ D.number d | Stream s ↦ S.number s ] };

    fn descriptor(&self) -> i32 {
        match self {
            AnySocket::Dgram(socket) => socket.descriptor(),
            AnySocket::Stream(stream) => stream.descriptor(),
        }
    }

    fn opened(&mut self) -> Result<Answer<()>, NoMemory> {
        match self {
            AnySocket::Dgram(socket) => socket.opened(),
            AnySocket::Stream(stream) => stream.opened(),
        }
    }

    fn put(&mut self, octets: &[u8]) -> Result<Answer<usize>, NoMemory> {
        match self {
            AnySocket::Dgram(socket) => socket.put(octets),
            AnySocket::Stream(stream) => stream.put(octets),
        }
    }

    fn take(&mut self, alloc: Global, buf: &mut [u8]) -> Result<Answer<Octets>, NoMemory> {
        match self {
            AnySocket::Dgram(socket) => socket.take(alloc, buf),
            AnySocket::Stream(stream) => stream.take(alloc, buf),
        }
    }
}
