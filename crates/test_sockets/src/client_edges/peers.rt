//! Servers of this host, and edges with a place that opens to them.

use crate::client_edges::addresses::{here, here_by_six, learns, next, opens, opens_stream};
use client_core::What;
use client_edge::SocketEdge;
use dns_base::SocketAddr;
use std::io;
use std::net::{TcpListener, TcpStream, UdpSocket};

pub type RealEdge = SocketEdge<HostRuntime>;

/// A server by datagrams, and an edge whose place 0 opens to it.
#[derive(Drop)]
pub struct Pair {
    pub peer: UdpSocket,
    pub edge: RealEdge,
}

fn bound(rt: HostRuntime, addr: &str) -> io::Result<(UdpSocket, u16)> {
    let peer = UdpSocket::bind(&rt, addr)?;
    let port = peer.local_addr()?.port();
    Ok((peer, port))
}

/// A port of this host at which nobody listens for datagrams.
pub fn gone(rt: HostRuntime) -> Option<u16> {
    let (_, port) = bound(rt, "127.0.0.1:0").ok()?;
    Some(port)
}

/// A server by datagrams, by IPv4, with its address.
pub fn server_by_four(rt: HostRuntime) -> Option<(UdpSocket, SocketAddr)> {
    let (peer, port) = bound(rt, "127.0.0.1:0").ok()?;
    Some((peer, here(port)))
}

/// The same by IPv6, if this host has it.
pub fn server_by_six(rt: HostRuntime) -> Option<(UdpSocket, SocketAddr)> {
    let (peer, port) = bound(rt, "[::1]:0").ok()?;
    Some((peer, here_by_six(port)))
}

/// An edge whose place 0 opens to a server by datagrams.
pub fn paired(rt: HostRuntime, (peer, addr): (UdpSocket, SocketAddr)) -> Option<Pair> {
    let mut edge = SocketEdge::new(rt, rt.alloc());
    if learns(&mut edge, addr) && opens(&mut edge, 0, 0) {
        Some(Pair { peer, edge })
    } else {
        None
    }
}

fn listening(rt: HostRuntime, addr: &str) -> io::Result<(TcpListener, u16)> {
    let listener = TcpListener::bind(&rt, addr)?;
    let port = listener.local_addr()?.port();
    Ok((listener, port))
}

/// A port of this host at which nobody listens for streams.
pub fn gone_by_streams(rt: HostRuntime) -> Option<u16> {
    let (_, port) = listening(rt, "127.0.0.1:0").ok()?;
    Some(port)
}

/// A server by streams, by IPv4, with its address.
pub fn listener_by_four(rt: HostRuntime) -> Option<(TcpListener, SocketAddr)> {
    let (listener, port) = listening(rt, "127.0.0.1:0").ok()?;
    Some((listener, here(port)))
}

/// The same by IPv6, if this host has it.
pub fn listener_by_six(rt: HostRuntime) -> Option<(TcpListener, SocketAddr)> {
    let (listener, port) = listening(rt, "[::1]:0").ok()?;
    Some((listener, here_by_six(port)))
}

/// A stream, by its two ends: the server's, and an edge's at place 0.
#[derive(Drop)]
pub struct Joined {
    pub peer: TcpStream,
    pub edge: RealEdge,
}

/// An edge whose place 0 is open to a server by streams.
pub fn join_ends(rt: HostRuntime, (listener, addr): (TcpListener, SocketAddr)) -> Option<Joined> {
    let mut edge = SocketEdge::new(rt, rt.alloc());
    if !learns(&mut edge, addr) || !opens_stream(&mut edge, 0, 0) {
        return None;
    }
    match (next(&mut edge), listener.accept()) {
        (Some(What::Opened { place: 0 }), Ok((peer, _))) => Some(Joined { peer, edge }),
        _ => None,
    }
}
