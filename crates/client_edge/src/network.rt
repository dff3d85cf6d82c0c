//! The system's network: it opens sockets and waits for them.

ghost use Rattle.std.specs.Prelude.{◌≡◌, pos, negsuc, ◌||◌, if◌then◌else◌, None};
ghost use Rattle.client_edge.specs.SocketEdge.{events_of, milliseconds};
ghost use Rattle.socket_places.specs.Told.{found_at};

use crate::tcp::{TcpConnect, TcpSocket};
use crate::udp::{UdpConnect, UdpDgram};
use client_dgram::Connect;
use client_request::{Fault, Via};
use dns_base::{NoMemory, SocketAddr};
use libc::net::{POLLIN, POLLOUT, poll};
use libc::types::pollfd;
use socket_places::{AnySocket, Asked, Network};
use std::alloc::Global;
use std::marker::Model;
use std::net::{Net, TcpListener, TcpStream};

/// In place of a descriptor: a wait passes it over.
const NO_DESCRIPTOR: i32 = -1;

/// The system's network. What contracts see is at which of its positions the last wait found something.
#[derive(Drop)]
pub struct SystemNetwork<R: Net<Listener = TcpListener, Stream = TcpStream> + Copy> {
    rt: R,
    /// What the last wait looked for, kept for its memory.
    asked: Vec<pollfd>,
    found: Vec<bool>,
}

impl<R: Net<Listener = TcpListener, Stream = TcpStream> + Copy> Model for SystemNetwork<R> {
    ghost use Rattle.std.specs.Prelude.{List, Bool};

    ghost Value = { List Bool };

    ghost view = { λ n. n.found.items };
}

/// So many microseconds in whole milliseconds, which the system counts: rounded up, since a wait that ended before its time would
/// be made again.
fn milliseconds(micros: u128) -> i32
    ensures { result ≡ pos (milliseconds micros) }
{
    i32::try_from(micros.div_ceil(1000)).unwrap_or(i32::MAX)
}

/// What the system is to look for. It tells of a stream's end again and again, whatever it looks for, so it is asked nothing of a
/// socket for which no wait is.
fn asked_of(asked: &Asked) -> pollfd
    ensures descriptor { result.fd ≡ (if asked.now.reads || asked.now.writes then asked.now.descriptor else negsuc 0) }
    ensures events { result.events ≡ pos (events_of asked.now.reads asked.now.writes) }
    ensures nothing_yet { result.revents ≡ pos 0 }
{
    let (fd, events) = match (asked.reads, asked.writes) {
        (true, true) => (asked.descriptor, POLLIN + POLLOUT),
        (true, false) => (asked.descriptor, POLLIN),
        (false, true) => (asked.descriptor, POLLOUT),
        (false, false) => (NO_DESCRIPTOR, 0),
    };
    pollfd {
        fd,
        events,
        revents: 0,
    }
}

impl<R: Net<Listener = TcpListener, Stream = TcpStream> + Copy> SystemNetwork<R> {
    /// The network, for which nothing waited yet.
    pub fn new(rt: R, alloc: Global) -> SystemNetwork<R> {
        SystemNetwork {
            rt,
            asked: Vec::new(alloc),
            found: Vec::new(alloc),
        }
    }
}

impl<R: Net<Listener = TcpListener, Stream = TcpStream> + Copy> Network for SystemNetwork<R> {
    type Socket = AnySocket<UdpDgram, TcpSocket>;

    ghost openings = { λ _. None };

    ghost asks = { λ _. None };

    ghost found = { λ n. n };

    fn open(
        &mut self,
        via: Via,
        addr: SocketAddr,
    ) -> Result<Result<AnySocket<UdpDgram, TcpSocket>, Fault>, NoMemory> {
        match via {
            Via::Dgram => match UdpConnect::new(self.rt, addr).connect() {
                Ok(socket) => Ok(Ok(AnySocket::Dgram(socket))),
                Err(fault) => Ok(Err(fault)),
            },
            Via::Stream => match TcpConnect::new(self.rt, addr).connect() {
                Ok(stream) => Ok(Ok(AnySocket::Stream(TcpSocket::new(stream)))),
                Err(fault) => Ok(Err(fault)),
            },
        }
    }

    fn ready(&mut self, asked: &[Asked], most: u128) -> Result<(), NoMemory> {
        self.asked.clear();
        for asked in asked {
            self.asked.push(asked_of(asked))?;
        }
        poll(&mut self.asked, milliseconds(most));
        self.found.clear();
        for asked in &self.asked {
            self.found.push(asked.revents != 0)?;
        }
        Ok(())
    }

    fn is_found(&self, at: usize) -> bool {
        self.found.get(at).copied().unwrap_or(false)
    }
}
