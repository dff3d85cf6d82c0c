//! The client's socket, and a server on this host at its other end.

use crate::trouble::Trouble;
use client_core::{Moment, What};
use dns_base::Octets;
use std::alloc::Global;
use std::io::{self, ErrorKind};
use std::net::UdpSocket;
use std::rt::{Clock, Net};
use std::time::{Duration, Instant};

/// The socket of the place that is open, a server that answers once, and the time since the start.
#[derive(Drop)]
pub(crate) struct Line {
    server: UdpSocket,
    answers: bool,
    open: Option<(u64, UdpSocket)>,
    /// Whether the place was opened since the last wait.
    is_new: bool,
    start: Instant,
}

/// What the client is told where a socket gave no octets: that time has gone on, unless the socket failed.
fn unheard(error: io::Error) -> Result<What, Trouble> {
    match error.kind() {
        ErrorKind::WouldBlock => Ok(What::Tick),
        _ => Err(Trouble::System(error)),
    }
}

/// Takes a datagram from a socket, for which it waits for no more than so many microseconds.
fn hear(alloc: Global, place: u64, socket: &UdpSocket, micros: u64) -> Result<What, Trouble> {
    let mut buf = [0u8; 512];
    socket.set_read_timeout(Some(Duration::from_micros(micros)))?;
    match socket.recv(&mut buf) {
        Ok(count) => {
            let octets = Octets::from_slice(alloc, &buf[..count])?;
            Ok(What::Datagram { place, octets })
        }
        Err(error) => unheard(error),
    }
}

/// Gives a query back as an answer without records.
fn answer(server: &UdpSocket) -> Result<(), Trouble> {
    let mut buf = [0u8; 512];
    let (count, from) = server.recv_from(&mut buf)?;
    // QR: it is an answer (RFC 1035 4.1.1).
    buf[2] |= 0x80;
    server.send_to(&buf[..count], from)?;
    Ok(())
}

impl Line {
    pub(crate) fn new(rt: &(impl Clock + Net)) -> Result<Line, Trouble> {
        let start = Instant::now(rt)?;
        let server = UdpSocket::bind(rt, "127.0.0.1:0")?;
        Ok(Line {
            server,
            answers: true,
            open: None,
            is_new: false,
            start,
        })
    }

    /// The moment, in microseconds since the start.
    pub(crate) fn moment(&self, rt: &impl Clock) -> Result<Moment, Trouble> {
        let micros = self.start.elapsed(rt)?.as_micros();
        Ok(Moment(u64::try_from(micros)?))
    }

    /// Opens a socket for a place.
    pub(crate) fn open(&mut self, rt: &impl Net, place: u64) -> Result<(), Trouble> {
        let socket = UdpSocket::bind(rt, "127.0.0.1:0")?;
        socket.connect(self.server.local_addr()?)?;
        self.open = Some((place, socket));
        self.is_new = true;
        Ok(())
    }

    /// Closes the socket that is open.
    pub(crate) fn close(&mut self) -> Result<(), Trouble> {
        self.open = None;
        Ok(())
    }

    /// Sends octets to the server, which answers the first that come.
    pub(crate) fn send(&mut self, octets: &[u8]) -> Result<(), Trouble> {
        let Some((_, socket)) = &self.open else {
            return Ok(());
        };
        socket.send(octets)?;
        if self.answers {
            self.answers = false;
            answer(&self.server)?;
        }
        Ok(())
    }

    /// Sleeps until something happens, but for no more than so many microseconds, after which only time has gone on.
    pub(crate) fn wait(&mut self, alloc: Global, micros: u128) -> Result<What, Trouble> {
        let Some((place, socket)) = &self.open else {
            return Ok(What::Tick);
        };
        if self.is_new {
            self.is_new = false;
            return Ok(What::Opened { place: *place });
        }
        // A socket can't be told to wait for no time at all.
        hear(alloc, *place, socket, u64::try_from(micros.max(1))?)
    }
}
