//! Answers by datagrams.

use crate::common::Common;
use client_edge::system_address;
use dns_values::{NoMemory, Octets};
use listener_peers::Sender;
use std::alloc::Global;
use std::net::UdpSocket;
use std::sync::Wait;

/// An answer that lies here.
#[derive(Drop)]
struct Unsent {
    peer: u64,
    octets: Octets,
}

/// Sends answers, each by the socket at which its query came. The sockets are asked for once there is one.
#[derive(Drop)]
pub(crate) struct Post<'a, T: Wait> {
    alloc: Global,
    common: &'a Common<'a, T>,
    sockets: Vec<UdpSocket>,
    unsent: Vec<Unsent>,
}

impl<'a, T: Wait> Post<'a, T> {
    pub(crate) fn new(alloc: Global, common: &'a Common<'a, T>) -> Post<'a, T> {
        Post {
            alloc,
            common,
            sockets: Vec::new(alloc),
            unsent: Vec::new(alloc),
        }
    }

    /// The socket at a position.
    pub(crate) fn socket(&mut self, at: usize) -> Result<Option<&UdpSocket>, NoMemory> {
        if self.sockets.is_empty() {
            self.sockets = self.common.sockets(self.alloc)?;
        }
        Ok(self.sockets.get(at))
    }

    /// Sends octets to a peer of datagrams, once: its sender is forgotten then.
    pub(crate) fn answer(&mut self, peer: u64, octets: &[u8]) -> Result<(), NoMemory> {
        if self.sockets.is_empty() {
            self.sockets = self.common.sockets(self.alloc)?;
        }
        self.send(peer, octets);
        Ok(())
    }

    /// Octets for a peer of datagrams, which lie here until they are sent.
    pub(crate) fn put(&mut self, peer: u64, octets: Octets) -> Result<(), NoMemory> {
        self.unsent.push(Unsent { peer, octets })?;
        Ok(())
    }

    /// Sends all that lies here, in order.
    pub(crate) fn flush(&mut self) {
        for Unsent { peer, octets } in &self.unsent {
            self.send(*peer, octets.as_slice());
        }
        self.unsent.clear();
    }

    fn send(&self, peer: u64, octets: &[u8]) {
        let Some(Sender { door, from }) = self.common.take(peer) else {
            return;
        };
        if let Some(socket) = self.sockets.get(door) {
            match socket.send_to(octets, system_address(from)) {
                Ok(_) | Err(_) => {}
            }
        }
    }
}
