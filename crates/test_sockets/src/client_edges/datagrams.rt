//! An edge and servers by datagrams.

use crate::client_edges::addresses::{
    here, is_datagram, is_opened, learns, next, opens, polled, sends,
};
use crate::client_edges::peers::{Pair, gone, paired, server_by_four, server_by_six};
use client_core::What;
use client_dgram::{Connect, DgramRecv, DgramSend};
use client_edge::{SocketEdge, UdpConnect};
use client_request::Fault;
use dns_base::SocketAddr;
use std::alloc::Global;
use std::io;
use std::net::UdpSocket;

/// Whether a server gets three octets, and gives two.
fn takes_and_gives(peer: &UdpSocket) -> io::Result<bool> {
    let mut buf = [0u8; 9];
    let (count, from) = peer.recv_from(&mut buf)?;
    peer.send_to(&[4, 5], from)?;
    Ok(buf[..count] == [1, 2, 3])
}

/// Whether a question goes to the server, and its answer comes.
fn there_and_back(alloc: Global, pair: &mut Pair) -> bool {
    is_opened(&polled(&mut pair.edge), 0)
        && sends(&mut pair.edge, alloc, 0, &[1, 2, 3])
        && polled(&mut pair.edge).is_none()
        && takes_and_gives(&pair.peer).is_ok_and(|so| so)
        && is_datagram(&next(&mut pair.edge), &[4, 5])
}

fn goes_by_four(rt: HostRuntime) -> bool {
    match server_by_four(rt).and_then(|server| paired(rt, server)) {
        Some(mut pair) => there_and_back(rt.alloc(), &mut pair),
        None => false,
    }
}

/// The same by IPv6, if this host has it.
fn goes_by_six(rt: HostRuntime) -> bool {
    let Some(server) = server_by_six(rt) else {
        return true;
    };
    match paired(rt, server) {
        Some(mut pair) => there_and_back(rt.alloc(), &mut pair),
        None => false,
    }
}

#[test]
fn a_datagram_goes_there_and_back(rt: HostRuntime) {
    assert!(rt; goes_by_four(rt));
    assert!(rt; goes_by_six(rt));
}

/// Whether receiving failed at place 0, since nobody listens.
fn is_refused(what: &Option<What>) -> bool {
    matches!(
        what,
        Some(What::RecvFailed {
            place: 0,
            fault: Fault::Refused
        })
    )
}

/// Whether an edge tells that nobody listens for datagrams at an address.
fn tells_of_nobody(rt: HostRuntime, addr: SocketAddr) -> bool {
    let mut edge = SocketEdge::new(rt, rt.alloc());
    learns(&mut edge, addr)
        && opens(&mut edge, 0, 0)
        && is_opened(&polled(&mut edge), 0)
        && sends(&mut edge, rt.alloc(), 0, &[1, 2, 3])
        && is_refused(&next(&mut edge))
}

#[test]
fn nobody_listens_for_datagrams(rt: HostRuntime) {
    assert!(rt; gone(rt).is_some_and(|port| tells_of_nobody(rt, here(port))));
}

/// Whether a server gets two octets, and gives twelve.
fn gives_many(peer: &UdpSocket) -> io::Result<bool> {
    let mut buf = [0u8; 9];
    let (count, from) = peer.recv_from(&mut buf)?;
    peer.send_to(&[7; 12], from)?;
    Ok(buf[..count] == [1, 2])
}

/// Whether a socket sends, waits in vain, and receives as much as there is room for.
fn sends_and_receives<S: DgramSend + DgramRecv>(socket: &mut S, peer: &UdpSocket) -> bool {
    let mut buf = [0u8; 9];
    socket.send(&[1, 2]) == Ok(2)
        && socket.recv(&mut buf) == Err(Fault::Expired)
        && gives_many(peer).is_ok_and(|so| so)
        && socket.recv(&mut buf) == Ok(9)
        && buf == [7; 9]
}

fn connects(rt: HostRuntime, (peer, addr): (UdpSocket, SocketAddr)) -> bool {
    match UdpConnect::new(rt, addr).connect() {
        Ok(mut socket) => sends_and_receives(&mut socket, &peer),
        Err(_) => false,
    }
}

#[test]
fn a_socket_by_itself(rt: HostRuntime) {
    assert!(rt; server_by_four(rt).is_some_and(|server| connects(rt, server)));
}
