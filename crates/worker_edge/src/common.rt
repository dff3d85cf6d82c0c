//! What a front and its doors have in common.

use dns_values::NoMemory;
use listener_peers::{Sender, Senders};
use std::alloc::Global;
use std::net::UdpSocket;
use std::sync::{Mutex, Wait};

/// How many numbers of peers a door has.
const NUMBERS: u64 = 1 << 48;

/// The most doors.
const MOST_DOORS: u64 = 16_384;

/// The socket of one address, and a socket by which whoever waits at the front is woken.
#[derive(Drop)]
pub(crate) struct SharedSocket {
    pub(crate) socket: UdpSocket,
    pub(crate) waking: UdpSocket,
}

/// The sockets by address, and the senders of datagrams by the door that took them in.
#[derive(Drop)]
pub struct Common<'a, T: Wait> {
    threads: &'a T,
    sockets: Mutex<Vec<SharedSocket>>,
    senders: Vec<Mutex<Senders>>,
}

impl<'a, T: Wait> Common<'a, T> {
    /// No sockets yet, and so many doors, of which each has peers' numbers of its own: at most 16,384 doors.
    pub fn new(threads: &'a T, alloc: Global, doors: u64) -> Result<Common<'a, T>, NoMemory> {
        let mut senders = Vec::new(alloc);
        let mut first: u64 = 0;
        for _ in 0..doors.min(MOST_DOORS) {
            senders.push(Mutex::new(Senders::new(alloc, first)))?;
            first = first.saturating_add(NUMBERS);
        }
        Ok(Common {
            threads,
            sockets: Mutex::new(Vec::new(alloc)),
            senders,
        })
    }

    /// One socket more.
    pub(crate) fn put(&self, socket: SharedSocket) -> Result<(), NoMemory> {
        self.sockets.lock(self.threads).push(socket)?;
        Ok(())
    }

    /// Handles of all sockets, in order. One that can't be had counts as want of memory.
    pub(crate) fn sockets(&self, alloc: Global) -> Result<Vec<UdpSocket>, NoMemory> {
        let mut handles = Vec::new(alloc);
        let guard = self.sockets.lock(self.threads);
        let sockets = &*guard;
        for shared in sockets {
            let Ok(socket) = shared.socket.try_clone() else {
                return Err(NoMemory);
            };
            handles.push(socket)?;
        }
        Ok(handles)
    }

    /// A handle of the socket by which the front is woken, at the address of this position.
    pub(crate) fn waking(&self, at: usize) -> Option<UdpSocket> {
        let guard = self.sockets.lock(self.threads);
        let sockets = &*guard;
        let shared = sockets.get(at)?;
        shared.waking.try_clone().ok()
    }

    /// Keeps the sender of a datagram that came by the door of this number: the number of its peer. Where the door's numbers are used
    /// up, that counts as want of memory.
    pub(crate) fn keep(&self, number: usize, sender: Sender) -> Result<u64, NoMemory> {
        let Some(senders) = self.senders.get(number) else {
            return Err(NoMemory);
        };
        let peer = senders.lock(self.threads).keep(sender)?;
        if peer / NUMBERS == number as u64 {
            Ok(peer)
        } else {
            Err(NoMemory)
        }
    }

    /// The sender of the datagram of a peer, which is forgotten.
    pub(crate) fn take(&self, peer: u64) -> Option<Sender> {
        let number = peer / NUMBERS;
        let senders = self.senders.get(number as usize)?;
        senders.lock(self.threads).take(peer)
    }
}
