//! What comes of peers, and where a wait found it.

use dns_values::Octets;

/// Something that came of a peer.
#[derive(Debug, Drop)]
pub enum Heard {
    /// It sent a datagram.
    Datagram { peer: u64, octets: Octets },
    /// Its stream was accepted.
    Accepted { peer: u64 },
    /// Its stream gave these octets, which come behind those that it gave before.
    Bytes { peer: u64, octets: Octets },
    /// Its stream is no more.
    Gone { peer: u64 },
}

/// Where a wait found something, of which nobody was told.
#[derive(Clone, Copy, Debug, PartialEq, Eq)]
pub enum Spot {
    /// At the listener for datagrams at this position, which may give so many more behind the next.
    Dgrams { at: usize, left: u32 },
    /// At the listener for streams at this position, which may give so many more behind the next.
    Streams { at: usize, left: u32 },
    /// At the stream of this peer.
    Stream { number: u64 },
}
