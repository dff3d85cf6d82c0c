//! The door of a worker.

ghost use Rattle.std.specs.Prelude.{None};

use crate::common::Common;
use crate::post::Post;
use client_edge::SystemNetwork;
use dns_values::{NoMemory, Octets};
use forward_workers::Door;
use front_edge::address_of;
use front_peers::{FrontOut, FrontWhat};
use listener_peers::Sender;
use socket_places::{Asked, Network};
use std::alloc::Global;
use std::collections::VecDeque;
use std::net::{Net, TcpListener, TcpStream, UdpSocket};
use std::os::fd::AsRawFd;
use std::sync::Wait;

/// The most octets of a datagram.
const DATAGRAM: usize = 65_535;

/// The most datagrams that are received one behind another.
const AT_ONCE: usize = 32;

/// How long a worker sleeps at most, in microseconds.
const MOST_SLEEP: u128 = 1_000_000;

/// A door over the socket of one address.
#[derive(Drop)]
pub struct SystemDoor<'a, T: Wait, R: Net<Listener = TcpListener, Stream = TcpStream> + Copy> {
    alloc: Global,
    common: &'a Common<'a, T>,
    network: SystemNetwork<R>,
    post: Post<'a, T>,
    /// The position of its address.
    at: usize,
    /// Its own number.
    number: usize,
    /// By what the front is woken, once that was asked for.
    waking: Option<UdpSocket>,
    /// Whether the front is to be woken.
    wakes: bool,
    /// Where the socket puts what it gives.
    buf: Vec<u8>,
    /// What came and was not taken yet.
    came: VecDeque<FrontWhat>,
}

impl<'a, T: Wait, R: Net<Listener = TcpListener, Stream = TcpStream> + Copy> SystemDoor<'a, T, R> {
    /// The door of this number, counted from 0, at the address of this position.
    pub fn new(
        rt: R,
        alloc: Global,
        common: &'a Common<'a, T>,
        at: usize,
        number: usize,
    ) -> Result<SystemDoor<'a, T, R>, NoMemory> {
        let mut buf = Vec::new(alloc);
        buf.resize(DATAGRAM, 0)?;
        Ok(SystemDoor {
            alloc,
            common,
            network: SystemNetwork::new(rt, alloc),
            post: Post::new(alloc, common),
            at,
            number,
            waking: None,
            wakes: false,
            buf,
            came: VecDeque::new(alloc),
        })
    }

    /// One datagram that has come, if there is one.
    fn received(&mut self) -> Result<Option<FrontWhat>, NoMemory> {
        let Some(socket) = self.post.socket(self.at)? else {
            return Err(NoMemory);
        };
        let Ok((count, from)) = socket.recv_from(&mut self.buf) else {
            return Ok(None);
        };
        let octets = Octets::from_slice(self.alloc, &self.buf[..count])?;
        let sender = Sender {
            door: self.at,
            from: address_of(from),
        };
        let peer = self.common.keep(self.number, sender)?;
        Ok(Some(FrontWhat::Datagram { peer, octets }))
    }

    /// The datagrams that have come, as many as are received at once.
    fn receive(&mut self) -> Result<(), NoMemory> {
        for _ in 0..AT_ONCE {
            let Some(what) = self.received()? else {
                return Ok(());
            };
            self.came.push_back(what)?;
        }
        Ok(())
    }

    /// Sleeps until something comes, but not for ever.
    fn sleep(&mut self) -> Result<(), NoMemory> {
        let Some(socket) = self.post.socket(self.at)? else {
            return Err(NoMemory);
        };
        let asked = Asked {
            descriptor: socket.as_raw_fd(),
            reads: true,
            writes: false,
        };
        self.network.ready(&[asked], MOST_SLEEP)
    }

    /// Wakes whoever waits at the front.
    fn wake_front(&mut self) {
        if self.waking.is_none() {
            self.waking = self.common.waking(self.at);
        }
        if let Some(socket) = &self.waking {
            match socket.send(&[]) {
                Ok(_) | Err(_) => {}
            }
        }
    }
}

impl<'a, T: Wait, R: Net<Listener = TcpListener, Stream = TcpStream> + Copy> Door
    for SystemDoor<'a, T, R> {
    ghost deeds = { λ _. None };

    fn wait(&mut self) -> Result<(), NoMemory> {
        if self.came.is_empty() {
            self.receive()?;
        }
        if self.came.is_empty() {
            self.sleep()?;
            self.receive()?;
        }
        Ok(())
    }

    fn has_come(&self) -> bool {
        !self.came.is_empty()
    }

    fn take(&mut self) -> Result<Option<FrontWhat>, NoMemory> {
        Ok(self.came.pop_front())
    }

    fn answer(&mut self, out: &FrontOut) -> Result<(), NoMemory> {
        match out {
            FrontOut::Answer { peer, octets } => self.post.put(*peer, octets.try_clone()?),
            FrontOut::Core { .. } | FrontOut::Drop { .. } => Ok(()),
        }
    }

    fn wake(&mut self) {
        self.wakes = true;
    }

    fn flush(&mut self) {
        self.post.flush();
        if self.wakes {
            self.wake_front();
        }
        self.wakes = false;
    }
}
