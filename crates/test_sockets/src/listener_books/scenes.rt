//! Books over listeners in memory, and what these give.

use dns_values::{IpAddr, NoMemory, Octets, Seq, SocketAddr};
use listener_peers::{
    DgramDoor, Heard, Letter, ListDgrams, ListListener, PeerBooks, ServerBooks, StreamDoor, Told,
};
use socket_places::{Answer, Books, ListNetwork, ListSocket};
use std::alloc::Global;

pub type ListServer = ServerBooks<ListNetwork, ListDgrams, ListListener>;

/// A peer's address.
pub const FROM: SocketAddr = SocketAddr {
    ip: IpAddr::V4([192, 0, 2, 1]),
    port: 53,
};

/// A listener that gives these octets once, as a datagram.
pub fn dgrams(alloc: Global, octets: &[u8]) -> Result<ListDgrams, NoMemory> {
    let mut letters = Vec::new(alloc);
    letters.push(Answer::Done(Letter {
        from: FROM,
        octets: Octets::from_slice(alloc, octets)?,
    }))?;
    Ok(ListDgrams::new(alloc, 3, letters, Vec::new(alloc)))
}

/// A listener that gives a stream, which gives these octets once and answers so to what it is handed.
pub fn streams(
    alloc: Global,
    octets: &[u8],
    puts: Vec<Answer<usize>>,
) -> Result<ListListener, NoMemory> {
    let mut takes = Vec::new(alloc);
    takes.push(Answer::Done(Octets::from_slice(alloc, octets)?))?;
    let mut streams = Vec::new(alloc);
    let stream = ListSocket::new(alloc, 5, Vec::new(alloc), puts, takes);
    streams.push(Answer::Done(stream))?;
    Ok(ListListener::new(alloc, 4, streams))
}

/// A server of two listeners and no place, at whose waits something is found at these positions.
pub fn server(
    alloc: Global,
    dgrams: ListDgrams,
    streams: ListListener,
    rounds: &[&[bool]],
) -> Result<ListServer, NoMemory> {
    let mut waits = Vec::new(alloc);
    for round in rounds {
        waits.push(Seq::from_vec(Vec::from_slice(alloc, round)?))?;
    }
    let network = ListNetwork::new(alloc, Vec::new(alloc), waits);
    let mut peers = PeerBooks::new(alloc);
    peers.listen_dgrams(DgramDoor::new(dgrams))?;
    peers.listen_streams(StreamDoor::new(streams))?;
    Ok(ServerBooks::new(alloc, Books::new(alloc, network), peers))
}

/// What the books tell of a peer, by its number; octets are 7 and 8.
#[derive(Clone, Copy)]
pub enum Tells {
    Datagram(u64),
    Accepted(u64),
    Bytes(u64),
    Gone(u64),
    Nothing,
    Other,
}

fn heard(heard: &Heard) -> Tells {
    match heard {
        Heard::Datagram { peer, octets } if octets.as_slice() == [7u8, 8].as_slice() =>
            Tells::Datagram(*peer),
        Heard::Bytes { peer, octets } if octets.as_slice() == [7u8, 8].as_slice() => Tells::Bytes(
            *peer,
        ),
        Heard::Accepted { peer } => Tells::Accepted(*peer),
        Heard::Gone { peer } => Tells::Gone(*peer),
        _ => Tells::Other,
    }
}

pub fn told_by(server: &mut ListServer) -> Tells {
    match server.poll() {
        Ok(None) => Tells::Nothing,
        Ok(Some(Told::Peer { heard: it })) => heard(&it),
        _ => Tells::Other,
    }
}

/// Whether a peer is answered with three octets.
pub fn answers(alloc: Global, server: &mut ListServer, peer: u64) -> bool {
    match Octets::from_slice(alloc, &[1, 2, 3]) {
        Ok(octets) => server.answer(peer, &octets).is_ok(),
        Err(_) => false,
    }
}
