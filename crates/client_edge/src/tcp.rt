//! Streams over the system's sockets.

ghost use Rattle.std.specs.Prelude.{◌≡◌, ◌≤◌, None, OnErr};
ghost use Rattle.dns_values.specs.Source.{Rose};
ghost use Rattle.client_dgram.specs.Sockets.{after_answer};

use crate::address::system_address;
use crate::answer::{count_of, octets_of};
use crate::fault::{count_fault, fault_of};
use crate::unconnected::unconnected;
use client_dgram::Connect;
use client_request::Fault;
use dns_base::{NoMemory, Octets, SocketAddr};
use libc::net::SOCK_STREAM;
use socket_places::{Answer, Socket};
use std::alloc::Global;
use std::io::{self, ErrorKind, Read, Write};
use std::marker::Model;
use std::net::{Net, TcpListener, TcpStream, UdpSocket};
use std::os::fd::{AsRawFd, OwnedFd};

/// A stream of the system.
#[derive(Drop)]
pub struct TcpSocket {
    stream: TcpStream,
}

impl TcpSocket {
    /// A stream whose connecting has begun.
    pub fn new(stream: TcpStream) -> TcpSocket {
        TcpSocket { stream }
    }
}

impl Socket for TcpSocket {
    ghost deals = { λ _. None };

    ghost number = { λ _. None };

    fn descriptor(&self) -> i32 {
        self.stream.as_raw_fd()
    }

    fn opened(&mut self) -> Result<Answer<()>, NoMemory> {
        match self.stream.take_error() {
            Ok(None) if self.stream.peer_addr().is_ok() => Ok(Answer::Done(())),
            Ok(None) => Ok(Answer::Later),
            Ok(Some(error)) | Err(error) => Ok(Answer::Failed(fault_of(error.kind()))),
        }
    }

    fn put(&mut self, octets: &[u8]) -> Result<Answer<usize>, NoMemory> {
        Ok(count_of(octets.len(), self.stream.write(octets)))
    }

    fn take(&mut self, alloc: Global, buf: &mut [u8]) -> Result<Answer<Octets>, NoMemory> {
        let most = buf.len();
        let filled = count_of(most, self.stream.read(buf));
        octets_of(alloc, buf, filled)
    }
}

/// Connects streams to one address. What contracts see is the count of its faults.
///
/// It does not wait for the peer: a stream that it gives may still be connecting, and takes and gives octets once it is
/// connected. No call of the stream waits.
#[derive(Drop)]
pub struct TcpConnect<R: Net<Listener = TcpListener, Stream = TcpStream> + Drop> {
    rt: R,
    addr: SocketAddr,
    faults: u64,
}

impl<R: Net<Listener = TcpListener, Stream = TcpStream> + Drop> Model for TcpConnect<R> {
    ghost use Rattle.std.specs.Prelude.{ℕ};

    ghost Value = { ℕ };

    ghost view = { λ c. c.faults };
}

impl<R: Net<Listener = TcpListener, Stream = TcpStream> + Drop> TcpConnect<R> {
    /// A connector to this address.
    pub fn new(rt: R, addr: SocketAddr) -> TcpConnect<R>
        ensures { result ≡ 0 }
    {
        TcpConnect {
            rt,
            addr,
            faults: 0,
        }
    }

    /// A stream whose connecting has begun. The call that begins it is that of `UdpSocket`, whose `connect` is the
    /// system's and takes a descriptor of any kind.
    fn begin(&self) -> io::Result<TcpStream> {
        let address = system_address(self.addr);
        let stream = TcpStream::from(unconnected(address, SOCK_STREAM)?);
        stream.set_nodelay(true)?;
        let socket = UdpSocket::from(OwnedFd::from(stream));
        match socket.connect(address) {
            Err(error) if error.kind() != ErrorKind::InProgress => Err(error),
            _ => Ok(TcpStream::from(OwnedFd::from(socket))),
        }
    }
}

impl<R: Net<Listener = TcpListener, Stream = TcpStream> + Drop> Connect for TcpConnect<R> {
    type Connection = TcpStream;

    ghost connect_faults = { λ c. c };

    fn connect(&mut self) -> Result<TcpStream, Fault>
        ensures count { self.old ≤ self.new }
        ensures failed { OnErr result (Rose self.old self.new) }
        ensures counted { self.new ≡ after_answer result self.old }
    {
        let begun = self.begin();
        count_fault(&mut self.faults, begun)
    }
}
