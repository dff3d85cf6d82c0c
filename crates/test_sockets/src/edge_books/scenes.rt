//! Books over a network in memory, and sockets for it.

use client_request::{Fault, Out, What};
use dns_values::{IpAddr, NoMemory, Octets, Seq, SocketAddr};
use socket_places::{Answer, Books, ListNetwork, ListSocket};
use std::alloc::Global;

pub type ListBooks = Books<ListNetwork>;

/// A server's address.
pub fn address(last: u8) -> SocketAddr {
    SocketAddr {
        ip: IpAddr::V4([192, 0, 2, last]),
        port: 53,
    }
}

/// A wait that finds something at the first place.
fn found(alloc: Global) -> Option<Seq<bool>> {
    let found = Vec::from_slice(alloc, &[true]).ok()?;
    Some(Seq::from_vec(found))
}

/// So many waits of that kind.
fn rounds(alloc: Global, count: u32) -> Option<Vec<Seq<bool>>> {
    let mut rounds = Vec::new(alloc);
    for _ in 0..count {
        rounds.push(found(alloc)?).ok()?;
    }
    Some(rounds)
}

/// A network that opens one socket, at which each of nine waits finds something.
fn network(alloc: Global, socket: ListSocket) -> Option<ListNetwork> {
    let mut sockets = Vec::new(alloc);
    sockets.push(Ok(socket)).ok()?;
    Some(ListNetwork::new(alloc, sockets, rounds(alloc, 9)?))
}

/// Books that have learned two servers, over that network.
pub fn books(alloc: Global, socket: Option<ListSocket>) -> Option<ListBooks> {
    let mut books = Books::new(alloc, network(alloc, socket?)?);
    if books.learn(address(1)).is_ok() && books.learn(address(2)).is_ok() {
        Some(books)
    } else {
        None
    }
}

/// A socket that gives these octets once.
pub fn giving(alloc: Global, octets: &[u8]) -> Option<ListSocket> {
    let octets = Octets::from_slice(alloc, octets).ok()?;
    let mut takes = Vec::new(alloc);
    takes.push(Answer::Done(octets)).ok()?;
    Some(ListSocket::new(alloc, 7, Vec::new(alloc), Vec::new(alloc), takes))
}

/// A stream that takes nothing at first, and then two octets.
pub fn slow(alloc: Global) -> Option<ListSocket> {
    let mut puts = Vec::new(alloc);
    puts.push(Answer::Later).ok()?;
    puts.push(Answer::Done(2)).ok()?;
    Some(ListSocket::new(alloc, 7, Vec::new(alloc), puts, Vec::new(alloc)))
}

/// Whether place 0 is to be opened to a server, for datagrams or as a stream.
pub fn opens(books: &mut ListBooks, server: u32) -> bool {
    books.act(&Out::OpenDgram { place: 0, server }).is_ok()
}

pub fn opens_stream(books: &mut ListBooks, server: u32) -> bool {
    books.act(&Out::OpenStream { place: 0, server }).is_ok()
}

/// Whether three octets are put at place 0.
pub fn puts(books: &mut ListBooks, alloc: Global) -> bool {
    match Octets::from_slice(alloc, &[1, 2, 3]) {
        Ok(octets) => books.act(&Out::Resume { place: 0, octets }).is_ok(),
        Err(_) => false,
    }
}

/// What the books tell of place 0; a datagram's octets are 4 and 5.
#[derive(Clone, Copy)]
pub enum Tells {
    Opened,
    Datagram,
    Wrote(u64),
    OpenFailed,
    Nothing,
    Other,
}

fn told(what: &What) -> Tells {
    match what {
        What::Opened { place: 0 } => Tells::Opened,
        What::Datagram { place: 0, octets } if octets.as_slice() == [4u8, 5].as_slice() =>
            Tells::Datagram,
        What::Wrote { place: 0, count } => Tells::Wrote(*count),
        What::OpenFailed {
            place: 0,
            fault: Fault::Other,
        } => Tells::OpenFailed,
        _ => Tells::Other,
    }
}

pub fn told_by(books: &mut ListBooks) -> Tells {
    match books.poll() {
        Ok(None) => Tells::Nothing,
        Ok(Some(what)) => told(&what),
        Err(NoMemory) => Tells::Other,
    }
}
