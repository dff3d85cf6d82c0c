//! Messages.

use client_request::What;
use dns_base::{NoMemory, Octets};
use front_peers::FrontWhat;
use std::alloc::Global;

/// A question for the address of example.com, under the id 0xbeef, and RD.
pub const QUERY: [u8; 29] = [
    0xbe, 0xef, 1, 0, 0, 1, 0, 0, 0, 0, 0, 0, 7, 101, 120, 97, 109, 112, 108, 101, 3, 99, 111, 109,
    0, 0, 1, 0, 1,
];

/// Its answer, 192.0.2.1 for 100 seconds, under the id 0x1234.
pub const ANSWER: [u8; 45] = [
    0x12, 0x34, 0x81, 0x80, 0, 1, 0, 1, 0, 0, 0, 0, 7, 101, 120, 97, 109, 112, 108, 101, 3, 99,
    111, 109, 0, 0, 1, 0, 1, 0xc0, 12, 0, 1, 0, 1, 0, 0, 0, 100, 0, 4, 192, 0, 2, 1,
];

/// The octets with this id, and this last octet of their first TTL, if they have one.
pub fn with_id(alloc: Global, octets: &[u8], id: [u8; 2], ttl: u8) -> Result<Octets, NoMemory> {
    let mut octets = Vec::from_slice(alloc, octets)?;
    if octets.len() > 12 {
        octets[0] = id[0];
        octets[1] = id[1];
    }
    if octets.len() > 38 {
        octets[38] = ttl;
    }
    Octets::from_vec(octets)
}

/// The question came of a peer under this id.
pub fn asked(alloc: Global, peer: u64, id: [u8; 2]) -> Result<FrontWhat, NoMemory> {
    let octets = with_id(alloc, &QUERY, id, 0)?;
    Ok(FrontWhat::Datagram { peer, octets })
}

/// The answer came at place 0.
pub fn answered(alloc: Global) -> Result<FrontWhat, NoMemory> {
    let octets = Octets::from_slice(alloc, &ANSWER)?;
    Ok(FrontWhat::Core {
        what: What::Datagram { place: 0, octets },
    })
}
