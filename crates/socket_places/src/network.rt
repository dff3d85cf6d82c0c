//! What opens sockets, and what waits for them.

ghost use Rattle.std.specs.Prelude.{◌≡◌, Bool, List, Option, IfOk, OnOk};
ghost use Rattle.socket_places.specs.declared.network.Asked.{Asked};
ghost use Rattle.socket_places.specs.declared.network.Opening.{Opening};
ghost use Rattle.socket_places.specs.Told.{IsFresh, after_one, fault_of, found_at};

use crate::socket::Socket;
use client_request::{Fault, Via};
use dns_values::{NoMemory, SocketAddr};

/// A socket that was to be opened, and the fault where it could not be.
#[derive(Clone, Copy, Debug)]
pub struct Opening {
    /// The address to which it was to be opened.
    pub addr: SocketAddr,
    /// By datagrams, or as a stream.
    pub via: Via,
    /// Why it was not opened.
    pub fault: Option<Fault>,
}

/// What a wait is to look for at a socket. Where that is neither, it passes the socket over.
#[derive(Clone, Copy, Debug, PartialEq, Eq)]
pub struct Asked {
    /// The number by which the wait knows the socket.
    pub descriptor: i32,
    /// Whether something came.
    pub reads: bool,
    /// Whether it takes octets, or is connected.
    pub writes: bool,
}

/// Opens sockets, each to one address, and waits for any of several. Where it knows what it was to open, and for what it waited, it
/// tells each as one list.
pub trait Network {
    type Socket: Socket + Drop;

    ghost openings: { Self → Option (List Opening) };

    ghost asks: { Self → Option (List (List Asked)) };

    ghost found: { Self → List Bool };

    /// Opens a socket for datagrams, or begins to open a stream. No call of it has been made then.
    fn open(&mut self, via: Via, addr: SocketAddr) -> Result<Result<Self::Socket, Fault>, NoMemory>
        ensures openings { IfOk result (λ opened. openings self.new ≡ after_one record { addr = addr; via = via; fault = fault_of opened } (openings self.old)) }
        ensures fresh { IfOk result (λ opened. IfOk opened (λ socket. IsFresh (Self.Socket.deals socket))) }
        ensures asks { OnOk result (asks self.new ≡ asks self.old) }
        ensures found { OnOk result (found self.new ≡ found self.old) };

    /// Waits until there is something at one of several sockets, but for no more than so many microseconds.
    fn ready(&mut self, asked: &[Asked], most: u128) -> Result<(), NoMemory>
        ensures asks { OnOk result (asks self.new ≡ after_one asked.now (asks self.old)) }
        ensures openings { OnOk result (openings self.new ≡ openings self.old) };

    /// Whether the last wait found something at the socket of this position, counted from 0.
    fn is_found(&self, at: usize) -> bool
        ensures { result ≡ found_at (found self.now) at };
}
