//! What an event of a front comes to, one thing behind another.

ghost use Rattle.std.specs.Prelude.{◌≡◌, ◌++◌, OnOk, IfOk};
ghost use Rattle.front_peers.specs.Items as spec;
ghost use Rattle.front_peers.specs.Items.{Pushes};

use client_request::What;
use client_stream::Framer;
use dns_base::{NoMemory, Octets, Seq};
use front_queries::{Query, Sorted, framed, sort};
use std::alloc::Global;

/// A query that was taken, and of whom it came.
#[derive(Drop)]
pub struct Asker {
    /// Of whom it came.
    pub peer: u64,
    /// Whether it came by a stream.
    pub by_stream: bool,
    /// The query.
    pub query: Query,
}

/// One thing that an event comes to.
#[derive(Drop)]
pub enum Item {
    /// A query is asked.
    Asks(Asker),
    /// A query is refused by these octets.
    Refuses { peer: u64, octets: Octets },
    /// A stream is to be closed.
    Drops { peer: u64 },
    /// Something happens to the client within.
    Happens(What),
}

/// Things, in order.
pub type Items = Seq<Item>;

/// Adds what a datagram comes to.
pub(crate) fn push_datagram(peer: u64, sorted: Sorted, items: &mut Items) -> Result<(), NoMemory>
    ensures { OnOk result (items.new ≡ items.old ++ spec.of_datagram peer sorted) }
{
    match sorted {
        Sorted::Ignored => Ok(()),
        Sorted::Refused { octets } => items.push(Item::Refuses { peer, octets }),
        Sorted::Taken { query } => items.push(Item::Asks(Asker {
            peer,
            by_stream: false,
            query,
        })),
    }
}

/// Adds what a frame comes to. Whether its stream goes on.
fn push_frame(alloc: Global, peer: u64, sorted: Sorted, items: &mut Items) -> Result<bool, NoMemory>
    ensures { IfOk result (λ on. Pushes peer sorted items.old items.new on) }
{
    match sorted {
        Sorted::Ignored => {
            items.push(Item::Drops { peer })?;
            Ok(false)
        }
        Sorted::Refused { octets } => {
            let octets = framed(alloc, octets.as_slice())?;
            items.push(Item::Refuses { peer, octets })?;
            Ok(true)
        }
        Sorted::Taken { query } => {
            items.push(Item::Asks(Asker {
                peer,
                by_stream: true,
                query,
            }))?;
            Ok(true)
        }
    }
}

/// Takes so many frames that stand whole, up to one that is no query.
pub(crate) fn take_frames(
    alloc: Global,
    peer: u64,
    framer: &mut Framer,
    most: usize,
    items: &mut Items,
) -> Result<(), NoMemory>
    ensures items { OnOk result (items.new ≡ items.old ++ (spec.of_frames most peer framer.old).0) }
    ensures left { OnOk result (framer.new ≡ (spec.of_frames most peer framer.old).1) }
{
    let mut left = most;
    while left > 0 {
        let Some(octets) = framer.next_frame()? else {
            return Ok(());
        };
        let sorted = sort(alloc, octets)?;
        if !push_frame(alloc, peer, sorted, items)? {
            return Ok(());
        }
        left -= 1;
    }
    Ok(())
}
