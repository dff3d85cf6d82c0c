//! Addresses of this host, and what an edge is told and tells.

use client_core::{Edge, Out, What};
use dns_base::{IpAddr, NoMemory, Octets, SocketAddr};
use resolv_conf::{ServerConf, Transport};
use std::alloc::Global;

/// How often an edge is polled for something that must come.
pub const POLLS: u32 = 1000;

/// This host by IPv4, at a port.
pub fn here(port: u16) -> SocketAddr {
    SocketAddr {
        ip: IpAddr::V4([127, 0, 0, 1]),
        port,
    }
}

/// This host by IPv6, at a port.
pub fn here_by_six(port: u16) -> SocketAddr {
    SocketAddr {
        ip: IpAddr::V6([0, 0, 0, 0, 0, 0, 0, 1]),
        port,
    }
}

/// A server that may be asked by datagrams and by streams.
pub fn server(addr: SocketAddr) -> ServerConf {
    ServerConf::new(addr, Transport::UdpTcp)
}

/// Lets an edge learn a server, and says whether it did.
pub fn learns<E: Edge>(edge: &mut E, addr: SocketAddr) -> bool {
    edge.learn_server(&server(addr)).is_ok()
}

/// Lets an edge open a place to a server for datagrams, or for a stream.
pub fn opens<E: Edge>(edge: &mut E, place: u64, server: u32) -> bool {
    edge.act(&Out::OpenDgram { place, server }).is_ok()
}

pub fn opens_stream<E: Edge>(edge: &mut E, place: u64, server: u32) -> bool {
    edge.act(&Out::OpenStream { place, server }).is_ok()
}

/// What an edge tells at once, or nothing where it finds no memory.
pub fn polled<E: Edge>(edge: &mut E) -> Option<What> {
    match edge.poll() {
        Ok(what) => what,
        Err(NoMemory) => None,
    }
}

/// The first event within so many polls.
pub fn next_within<E: Edge>(edge: &mut E, polls: u32) -> Option<What> {
    for _ in 0..polls {
        edge.wait(1_000);
        let what = polled(edge);
        if what.is_some() {
            return what;
        }
    }
    None
}

/// The first event within some polls.
pub fn next<E: Edge>(edge: &mut E) -> Option<What> {
    next_within(edge, POLLS)
}

/// Whether a place is open, or these octets came at place 0 by a datagram, or by a stream.
pub fn is_opened(what: &Option<What>, wanted: u64) -> bool {
    matches!(what, Some(What::Opened { place }) if *place == wanted)
}

pub fn is_datagram(what: &Option<What>, wanted: &[u8]) -> bool {
    matches!(what, Some(What::Datagram { place: 0, octets }) if octets.as_slice() == wanted)
}

pub fn is_bytes(what: &Option<What>, wanted: &[u8]) -> bool {
    matches!(what, Some(What::Bytes { place: 0, octets }) if octets.as_slice() == wanted)
}

/// Lets an edge send octets as a datagram.
pub fn sends<E: Edge>(edge: &mut E, alloc: Global, place: u64, octets: &[u8]) -> bool {
    match Octets::from_slice(alloc, octets) {
        Ok(octets) => {
            let out = Out::Send {
                place,
                request: 0,
                id: 258,
                octets,
            };
            edge.act(&out).is_ok()
        }
        Err(_) => false,
    }
}
