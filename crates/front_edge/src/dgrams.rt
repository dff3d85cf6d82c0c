//! Sockets of the system that take datagrams of anyone.

ghost use Rattle.std.specs.Prelude.{None};

use crate::address::address_of;
use client_edge::{count_of, fault_of, is_for_later, system_address};
use dns_values::{NoMemory, Octets, SocketAddr};
use listener_peers::{DgramListener, Letter};
use socket_places::Answer;
use std::alloc::Global;
use std::net::UdpSocket;
use std::os::fd::AsRawFd;

/// A socket of the system for datagrams, at an address of this host. No call of it waits.
#[derive(Drop)]
pub struct SystemDgrams {
    socket: UdpSocket,
}

impl SystemDgrams {
    /// Over a socket that is bound and does not wait.
    pub(crate) fn new(socket: UdpSocket) -> SystemDgrams {
        SystemDgrams { socket }
    }
}

impl DgramListener for SystemDgrams {
    ghost posts = { λ _. None };

    ghost number = { λ _. None };

    fn descriptor(&self) -> i32 {
        self.socket.as_raw_fd()
    }

    fn receive(&mut self, alloc: Global, buf: &mut [u8]) -> Result<Answer<Letter>, NoMemory> {
        match self.socket.recv_from(buf) {
            Ok((count, from)) => {
                let octets = Octets::from_slice(alloc, &buf[..count])?;
                let from = address_of(from);
                Ok(Answer::Done(Letter { from, octets }))
            }
            Err(error) if is_for_later(error.kind()) => Ok(Answer::Later),
            Err(error) => Ok(Answer::Failed(fault_of(error.kind()))),
        }
    }

    fn send(&mut self, to: SocketAddr, octets: &Octets) -> Result<Answer<usize>, NoMemory> {
        let octets = octets.as_slice();
        let sent = self.socket.send_to(octets, system_address(to));
        Ok(count_of(octets.len(), sent))
    }
}
