//! Datagrams over the system's sockets.

ghost use Rattle.std.specs.Prelude.{◌≡◌, ◌≤◌, length, None, IfOk, OnErr};
ghost use Rattle.dns_values.specs.Source.{Rose};
ghost use Rattle.client_dgram.specs.Sockets.{after_answer};

use crate::address::system_address;
use crate::answer::{count_of, octets_of};
use crate::fault::count_fault;
use crate::unconnected::unconnected;
use client_dgram::{Connect, DgramRecv, DgramSend};
use client_request::Fault;
use dns_base::{NoMemory, Octets, SocketAddr};
use libc::net::SOCK_DGRAM;
use socket_places::{Answer, Socket};
use std::alloc::Global;
use std::io;
use std::marker::Model;
use std::net::{Net, UdpSocket};
use std::os::fd::AsRawFd;

/// A socket for datagrams whose peer is one address; the system drops what others send to it.
///
/// It does not wait: where nothing is there to be received, or nothing can be sent for now, the fault is `Expired`.
#[derive(Drop)]
pub struct UdpDgram {
    socket: UdpSocket,
    faults: u64,
}

impl Model for UdpDgram {
    ghost use Rattle.std.specs.Prelude.{ℕ};

    ghost Value = { ℕ };

    ghost view = { λ s. s.faults };
}

impl Socket for UdpDgram {
    ghost deals = { λ _. None };

    ghost number = { λ _. None };

    fn descriptor(&self) -> i32 {
        self.socket.as_raw_fd()
    }

    fn opened(&mut self) -> Result<Answer<()>, NoMemory> {
        Ok(Answer::Done(()))
    }

    fn put(&mut self, octets: &[u8]) -> Result<Answer<usize>, NoMemory> {
        Ok(count_of(octets.len(), self.socket.send(octets)))
    }

    fn take(&mut self, alloc: Global, buf: &mut [u8]) -> Result<Answer<Octets>, NoMemory> {
        let most = buf.len();
        let filled = count_of(most, self.socket.recv(buf));
        octets_of(alloc, buf, filled)
    }
}

impl DgramRecv for UdpDgram {
    ghost recv_faults = { λ s. s };

    fn recv(&mut self, buf: &mut [u8]) -> Result<usize, Fault>
        ensures within { IfOk result (λ n. n ≤ length buf.old) }
        ensures count { self.old ≤ self.new }
        ensures failed { OnErr result (Rose self.old self.new) }
        ensures counted { self.new ≡ after_answer result self.old }
    {
        count_fault(&mut self.faults, self.socket.recv(buf))
    }
}

impl DgramSend for UdpDgram {
    ghost send_faults = { λ s. s };

    fn send(&mut self, buf: &[u8]) -> Result<usize, Fault>
        ensures within { IfOk result (λ n. n ≤ length buf.now) }
        ensures count { self.old ≤ self.new }
        ensures failed { OnErr result (Rose self.old self.new) }
        ensures counted { self.new ≡ after_answer result self.old }
    {
        count_fault(&mut self.faults, self.socket.send(buf))
    }
}

/// Makes sockets for datagrams whose peer is one address, each at a local port that the system picks. What
/// contracts see is the count of its faults.
#[derive(Drop)]
pub struct UdpConnect<R: Net + Drop> {
    rt: R,
    addr: SocketAddr,
    faults: u64,
}

impl<R: Net + Drop> Model for UdpConnect<R> {
    ghost use Rattle.std.specs.Prelude.{ℕ};

    ghost Value = { ℕ };

    ghost view = { λ c. c.faults };
}

impl<R: Net + Drop> UdpConnect<R> {
    /// A connector to this address.
    pub fn new(rt: R, addr: SocketAddr) -> UdpConnect<R>
        ensures { result ≡ 0 }
    {
        UdpConnect {
            rt,
            addr,
            faults: 0,
        }
    }

    fn open(&self) -> io::Result<UdpDgram> {
        let address = system_address(self.addr);
        let socket = UdpSocket::from(unconnected(address, SOCK_DGRAM)?);
        socket.connect(address)?;
        Ok(UdpDgram { socket, faults: 0 })
    }
}

impl<R: Net + Drop> Connect for UdpConnect<R> {
    type Connection = UdpDgram;

    ghost connect_faults = { λ c. c };

    fn connect(&mut self) -> Result<UdpDgram, Fault>
        ensures count { self.old ≤ self.new }
        ensures failed { OnErr result (Rose self.old self.new) }
        ensures counted { self.new ≡ after_answer result self.old }
    {
        let opened = self.open();
        count_fault(&mut self.faults, opened)
    }
}
