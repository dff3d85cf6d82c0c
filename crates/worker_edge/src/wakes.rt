//! What wakes whoever waits at a front.

ghost use Rattle.std.specs.Prelude.{None};

use dns_values::{NoMemory, Octets, SocketAddr};
use listener_peers::{DgramListener, Letter};
use socket_places::Answer;
use std::alloc::Global;
use std::net::UdpSocket;
use std::os::fd::AsRawFd;

/// How many datagrams are taken at once.
const AT_ONCE: u32 = 64;

/// A socket by which a wait is ended. What comes at it is thrown away, and nobody is answered by it.
#[derive(Drop)]
pub struct WakeDgrams {
    socket: UdpSocket,
}

impl WakeDgrams {
    /// Over a socket that does not wait.
    pub(crate) fn new(socket: UdpSocket) -> WakeDgrams {
        WakeDgrams { socket }
    }
}

impl DgramListener for WakeDgrams {
    ghost posts = { λ _. None };

    ghost number = { λ _. None };

    fn descriptor(&self) -> i32 {
        self.socket.as_raw_fd()
    }

    fn receive(&mut self, _alloc: Global, buf: &mut [u8]) -> Result<Answer<Letter>, NoMemory> {
        for _ in 0..AT_ONCE {
            if self.socket.recv(buf).is_err() {
                return Ok(Answer::Later);
            }
        }
        Ok(Answer::Later)
    }

    fn send(&mut self, _to: SocketAddr, _octets: &Octets) -> Result<Answer<usize>, NoMemory> {
        Ok(Answer::Done(0))
    }
}
