//! What of the system takes streams of anyone.

ghost use Rattle.std.specs.Prelude.{None};

use client_edge::{TcpSocket, fault_of, is_for_later};
use dns_values::NoMemory;
use listener_peers::Listener;
use socket_places::Answer;
use std::io;
use std::net::{TcpListener, TcpStream};
use std::os::fd::AsRawFd;

/// A listener of the system for streams, at an address of this host. No call of it waits, and none of its streams.
#[derive(Drop)]
pub struct SystemStreams {
    listener: TcpListener,
}

impl SystemStreams {
    /// Over a listener that does not wait.
    pub(crate) fn new(listener: TcpListener) -> SystemStreams {
        SystemStreams { listener }
    }

    /// The next stream, which does not wait, and sends what it is handed at once.
    fn next(&self) -> io::Result<TcpStream> {
        let (stream, _) = self.listener.accept()?;
        stream.set_nonblocking(true)?;
        stream.set_nodelay(true)?;
        Ok(stream)
    }
}

impl Listener for SystemStreams {
    type Stream = TcpSocket;

    ghost accepts = { λ _. None };

    ghost number = { λ _. None };

    fn descriptor(&self) -> i32 {
        self.listener.as_raw_fd()
    }

    fn accept(&mut self) -> Result<Answer<TcpSocket>, NoMemory> {
        match self.next() {
            Ok(stream) => Ok(Answer::Done(TcpSocket::new(stream))),
            Err(error) if is_for_later(error.kind()) => Ok(Answer::Later),
            Err(error) => Ok(Answer::Failed(fault_of(error.kind()))),
        }
    }
}
