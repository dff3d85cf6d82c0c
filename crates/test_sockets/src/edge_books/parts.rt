//! Sockets and a network in memory by themselves.

use crate::edge_books::scenes::address;
use client_request::Via;
use socket_places::{Answer, AnySocket, Asked, Deal, ListNetwork, ListSocket, Network, Socket};
use std::alloc::Global;

/// A socket that does all that it is asked for.
fn willing(alloc: Global, descriptor: i32) -> ListSocket {
    ListSocket::new(
        alloc,
        descriptor,
        Vec::new(alloc),
        Vec::new(alloc),
        Vec::new(alloc),
    )
}

/// Whether a socket opens, takes all octets and has none to give.
fn is_willing<K: Socket>(socket: &mut K, alloc: Global) -> bool {
    matches!(socket.opened(), Ok(Answer::Done(())))
        && matches!(socket.put(&[1, 2]), Ok(Answer::Done(2)))
        && matches!(socket.take(alloc, &mut []), Ok(Answer::Later))
}

#[test]
fn sockets_of_both_kinds(rt: HostRuntime) {
    let alloc = rt.alloc();
    let mut dgram: AnySocket<ListSocket, ListSocket> = AnySocket::Dgram(willing(alloc, 3));
    let mut stream: AnySocket<ListSocket, ListSocket> = AnySocket::Stream(willing(alloc, 4));
    assert!(rt; is_willing(&mut dgram, alloc) && dgram.descriptor() == 3);
    assert!(rt; is_willing(&mut stream, alloc) && stream.descriptor() == 4);
}

/// Whether a socket opened, was handed two octets and gave what it had.
fn is_kept(deals: &[Deal]) -> bool {
    match deals {
        [
            Deal::Opened { .. },
            Deal::Put { octets, .. },
            Deal::Took { .. },
        ] => octets.as_slice() == [1u8, 2].as_slice(),
        _ => false,
    }
}

#[test]
fn a_socket_keeps_what_was_done_with_it(rt: HostRuntime) {
    let mut socket = willing(rt.alloc(), 3);
    assert!(rt; is_willing(&mut socket, rt.alloc()));
    assert!(rt; is_kept(socket.deals()));
}

/// Whether a network without sockets opens none, finds nothing, and keeps that it was asked.
fn keeps_what_was_asked(network: &mut ListNetwork) -> bool {
    let asked = Asked {
        descriptor: 3,
        reads: true,
        writes: false,
    };
    matches!(network.open(Via::Dgram, address(1)), Ok(Err(_)))
        && network.ready(&[asked], 1).is_ok()
        && !network.is_found(0)
        && network.openings().len() == 1
        && network.asks().len() == 1
}

#[test]
fn a_network_keeps_what_was_asked_of_it(rt: HostRuntime) {
    let alloc = rt.alloc();
    let mut network = ListNetwork::new(alloc, Vec::new(alloc), Vec::new(alloc));
    assert!(rt; keeps_what_was_asked(&mut network));
}
