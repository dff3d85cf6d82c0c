//! What happens to a forwarder, and what it puts out.

ghost use Rattle.std.specs.Prelude.{◌≡◌, IfOk};

use client_request::{Moment, Out, What};
use dns_base::{NoMemory, Octets, Seq};
use std::alloc::Global;

/// What happened: something came of a DNS client, or something happened to the client within.
///
/// A peer is a DNS client by a number: from 2^62 on by a stream, and below it by datagrams. An event that names a peer of the
/// other kind counts as `Tick`.
#[derive(Drop)]
pub enum FrontWhat {
    /// A datagram came of this peer.
    Datagram { peer: u64, octets: Octets },
    /// A stream of this peer was accepted. One whose number isn't above all that were accepted counts as `Tick`.
    Accepted { peer: u64 },
    /// A stream of this peer gave these octets, which come behind those that it gave before.
    Bytes { peer: u64, octets: Octets },
    /// The stream of this peer is no more. One that isn't open counts as `Tick`.
    Gone { peer: u64 },
    /// Something happened to the client within. A request that is asked counts as `Tick`.
    Core { what: What },
}

/// What happened, and when.
#[derive(Drop)]
pub struct FrontEvent {
    /// In microseconds.
    pub moment: Moment,
    /// What happened then.
    pub what: FrontWhat,
}

/// What is to be done.
#[derive(Drop)]
pub enum FrontOut {
    /// What the client within puts out, but for its replies.
    Core { out: Out },
    /// These octets are to be sent to a peer: as a datagram, or behind what went by its stream.
    Answer { peer: u64, octets: Octets },
    /// The stream of a peer is to be closed.
    Drop { peer: u64 },
}

/// What was put out, in order.
pub type FrontOuts = Seq<FrontOut>;

/// An event and what was put out for it.
#[derive(Drop)]
pub struct FrontRow {
    /// The event, as it was told.
    pub event: FrontEvent,
    /// What was put out for it, in order.
    pub outs: FrontOuts,
}

impl FrontWhat {
    /// The same once more.
    pub fn try_clone(&self, alloc: Global) -> Result<FrontWhat, NoMemory>
        ensures { IfOk result (λ copy. copy ≡ self.now) }
    {
        match self {
            FrontWhat::Datagram { peer, octets } => {
                let octets = octets.try_clone()?;
                Ok(FrontWhat::Datagram {
                    peer: *peer,
                    octets,
                })
            }
            FrontWhat::Accepted { peer } => Ok(FrontWhat::Accepted { peer: *peer }),
            FrontWhat::Bytes { peer, octets } => {
                let octets = octets.try_clone()?;
                Ok(FrontWhat::Bytes {
                    peer: *peer,
                    octets,
                })
            }
            FrontWhat::Gone { peer } => Ok(FrontWhat::Gone { peer: *peer }),
            FrontWhat::Core { what } => {
                let what = what.try_clone(alloc)?;
                Ok(FrontWhat::Core { what })
            }
        }
    }
}

impl FrontOut {
    /// The same once more.
    pub fn try_clone(&self) -> Result<FrontOut, NoMemory>
        ensures { IfOk result (λ copy. copy ≡ self.now) }
    {
        match self {
            FrontOut::Core { out } => {
                let out = out.try_clone()?;
                Ok(FrontOut::Core { out })
            }
            FrontOut::Answer { peer, octets } => {
                let octets = octets.try_clone()?;
                Ok(FrontOut::Answer {
                    peer: *peer,
                    octets,
                })
            }
            FrontOut::Drop { peer } => Ok(FrontOut::Drop { peer: *peer }),
        }
    }
}
