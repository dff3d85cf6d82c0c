//! An edge and servers by streams.

use crate::client_edges::addresses::{
    POLLS, here, is_bytes, is_opened, learns, next, next_within, opens, opens_stream, polled, sends,
};
use crate::client_edges::peers::{
    Joined, RealEdge, gone_by_streams, join_ends, listener_by_four, listener_by_six, server_by_four,
};
use client_core::{Edge, Out, What};
use client_dgram::Connect;
use client_edge::{SocketEdge, TcpConnect};
use client_request::Fault;
use dns_base::{Octets, SocketAddr};
use std::alloc::Global;
use std::io::{self, Read, Write};
use std::net::{TcpStream, UdpSocket};

/// More octets than the system keeps for the two ends of a stream.
const MANY: usize = 16_000_000;

/// More streams than a listener takes on by itself.
const CROWD: u32 = 200;

/// What an edge has to tell within a few polls.
fn soon<E: Edge>(edge: &mut E) -> Option<What> {
    next_within(edge, 20)
}

fn resumes<E: Edge>(edge: &mut E, octets: &Octets) -> bool {
    match octets.try_clone() {
        Ok(octets) => edge.act(&Out::Resume { place: 0, octets }).is_ok(),
        Err(_) => false,
    }
}

/// How many octets were written at place 0, of some at least.
fn written(what: &Option<What>) -> Option<u64> {
    match what {
        Some(What::Wrote { place: 0, count }) if *count > 0 => Some(*count),
        _ => None,
    }
}

/// Writes to place 0 until it takes no more: how many octets it took. Those written last wait.
fn fill<E: Edge>(edge: &mut E, octets: &Octets) -> Option<u64> {
    let mut taken = 0u64;
    for _ in 0..POLLS {
        if !resumes(edge, octets) {
            return None;
        }
        let what = soon(edge);
        if what.is_none() {
            return Some(taken);
        }
        taken = taken.saturating_add(written(&what)?);
    }
    None
}

/// Whether the server reads so many octets.
fn reads_many(alloc: Global, peer: &mut TcpStream, count: u64) -> bool {
    let Ok(count) = usize::try_from(count) else {
        return false;
    };
    match vec![in alloc; 0u8; count] {
        Ok(mut buf) => peer.read_exact(&mut buf).is_ok(),
        Err(_) => false,
    }
}

fn many(alloc: Global) -> Option<Octets> {
    let octets = vec![in alloc; 7u8; MANY].ok()?;
    Octets::from_vec(octets).ok()
}

/// Whether a stream that was full goes on once the server has read what it took.
fn goes_on(alloc: Global, ends: &mut Joined, octets: &Octets) -> bool {
    match fill(&mut ends.edge, octets) {
        Some(taken) => {
            taken > 0
                && reads_many(alloc, &mut ends.peer, taken)
                && written(&next(&mut ends.edge)).is_some()
        }
        None => false,
    }
}

fn goes_on_by_four(rt: HostRuntime) -> bool {
    let ends = listener_by_four(rt).and_then(|listener| join_ends(rt, listener));
    match (ends, many(rt.alloc())) {
        (Some(mut ends), Some(octets)) => goes_on(rt.alloc(), &mut ends, &octets),
        _ => false,
    }
}

#[test]
fn a_full_stream_goes_on(rt: HostRuntime) {
    assert!(rt; goes_on_by_four(rt));
}

/// Whether an edge writes three octets at once.
fn writes(alloc: Global, edge: &mut RealEdge) -> bool {
    let Ok(octets) = Octets::from_slice(alloc, &[1, 2, 3]) else {
        return false;
    };
    let out = Out::Write {
        place: 0,
        request: 0,
        id: 258,
        octets,
    };
    edge.act(&out).is_ok() && written(&polled(edge)) == Some(3)
}

/// Whether a server reads them, and writes two.
fn reads_and_writes(peer: &mut TcpStream) -> io::Result<bool> {
    let mut buf = [0u8; 3];
    peer.read_exact(&mut buf)?;
    peer.write_all(&[4, 5])?;
    Ok(buf == [1, 2, 3])
}

/// Whether the end of a stream is told once.
fn ends_once(edge: &mut RealEdge) -> bool {
    matches!(next(edge), Some(What::Ended { place: 0 })) && polled(edge).is_none()
}

/// Whether what one end writes comes to the other, and so does the end.
fn there_and_back(alloc: Global, ends: Joined) -> bool {
    let Joined { mut peer, mut edge } = ends;
    let came = writes(alloc, &mut edge)
        && reads_and_writes(&mut peer).is_ok_and(|so| so)
        && is_bytes(&next(&mut edge), &[4, 5]);
    drop(peer);
    came && ends_once(&mut edge)
}

fn goes_by_four(rt: HostRuntime) -> bool {
    match listener_by_four(rt).and_then(|listener| join_ends(rt, listener)) {
        Some(ends) => there_and_back(rt.alloc(), ends),
        None => false,
    }
}

/// The same by IPv6, if this host has it.
fn goes_by_six(rt: HostRuntime) -> bool {
    let Some(listener) = listener_by_six(rt) else {
        return true;
    };
    match join_ends(rt, listener) {
        Some(ends) => there_and_back(rt.alloc(), ends),
        None => false,
    }
}

#[test]
fn octets_go_there_and_back(rt: HostRuntime) {
    assert!(rt; goes_by_four(rt));
    assert!(rt; goes_by_six(rt));
}

/// Whether place 0 could not be opened, since nobody listens.
fn is_refused(what: &Option<What>) -> bool {
    matches!(
        what,
        Some(What::OpenFailed {
            place: 0,
            fault: Fault::Refused
        })
    )
}

/// Whether an edge tells once that nobody listens for streams at an address.
fn tells_of_nobody(rt: HostRuntime, addr: SocketAddr) -> bool {
    let mut edge = SocketEdge::new(rt, rt.alloc());
    learns(&mut edge, addr)
        && opens_stream(&mut edge, 0, 0)
        && is_refused(&next(&mut edge))
        && polled(&mut edge).is_none()
}

#[test]
fn nobody_listens_for_streams(rt: HostRuntime) {
    assert!(rt; gone_by_streams(rt).is_some_and(|port| tells_of_nobody(rt, here(port))));
}

/// Lets so many streams connect to a listener that takes none on that it is silent to the next.
fn crowd(rt: HostRuntime, addr: SocketAddr) -> Option<Vec<TcpStream>> {
    let mut streams = Vec::new(rt.alloc());
    for _ in 0..CROWD {
        let stream = TcpConnect::new(rt, addr).connect().ok()?;
        streams.push(stream).ok()?;
    }
    Some(streams)
}

/// Whether a server gets what comes, and gives two octets.
fn gives(peer: &UdpSocket) -> io::Result<usize> {
    let mut buf = [0u8; 9];
    let (_, from) = peer.recv_from(&mut buf)?;
    peer.send_to(&[4, 5], from)
}

/// Whether an edge that opens a stream to the first server hears of the second alone.
fn delays_no_other(alloc: Global, edge: &mut RealEdge, peer: &UdpSocket) -> bool {
    opens_stream(edge, 0, 0)
        && opens(edge, 1, 1)
        && is_opened(&polled(edge), 1)
        && sends(edge, alloc, 1, &[1, 2, 3])
        && gives(peer).is_ok()
        && matches!(next(edge), Some(What::Datagram { place: 1, .. }))
        && soon(edge).is_none()
}

/// Whether a server that is silent delays none that answers by datagrams.
fn silence_delays_no_other(rt: HostRuntime, silent: SocketAddr) -> bool {
    let (Some(_crowd), Some((peer, addr))) = (crowd(rt, silent), server_by_four(rt)) else {
        return false;
    };
    let mut edge = SocketEdge::new(rt, rt.alloc());
    learns(&mut edge, silent)
        && learns(&mut edge, addr)
        && delays_no_other(rt.alloc(), &mut edge, &peer)
}

fn a_listener_delays_no_other(rt: HostRuntime) -> bool {
    match listener_by_four(rt) {
        Some((_listener, addr)) => silence_delays_no_other(rt, addr),
        None => false,
    }
}

#[test]
fn a_silent_server_delays_no_other(rt: HostRuntime) {
    assert!(rt; a_listener_delays_no_other(rt));
}
