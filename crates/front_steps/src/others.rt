//! The queries that wait for the reply to a request that was made of another one.

ghost use Rattle.std.specs.Prelude.{◌≡◌, ◌++◌, [], ◌∷◌, length, OnOk};
ghost use Rattle.front_steps.specs.Askers as spec;

use dns_base::{NoMemory, Seq};
use front_peers::Asker;
use std::alloc::Global;
use std::marker::Model;

/// Queries in the order in which they came.
#[derive(Drop)]
pub struct Others {
    askers: Seq<Asker>,
    /// How many of them came by streams.
    by_streams: u64,
}

impl Model for Others {
    ghost use Rattle.std.specs.Prelude.{◌≡◌, List};
    ghost use Rattle.front_peers.specs.declared.items.Asker.{Asker};
    ghost use Rattle.front_steps.specs.Askers.{count_by_streams};

    ghost Value = { List Asker };

    ghost view = { λ o. o.askers };

    ghost invariant = { λ o. o.by_streams ≡ count_by_streams o.askers };
}

impl Others {
    /// No query.
    pub(crate) fn new(alloc: Global) -> Others
        ensures { result ≡ [] }
    {
        Others {
            askers: Seq::new(alloc),
            by_streams: 0,
        }
    }

    /// How many there are.
    pub(crate) fn len(&self) -> usize
        ensures { result ≡ length self.now }
    {
        self.askers.len()
    }

    /// How many came by streams.
    pub(crate) fn by_streams(&self) -> u64
        ensures { result ≡ spec.count_by_streams self.now }
    {
        self.by_streams
    }

    /// The queries, in order.
    pub(crate) fn as_slice(&self) -> &[Asker]
        ensures { result.now ≡ self.now }
    {
        self.askers.as_slice()
    }

    /// One more comes. More by streams than can be counted count as want of memory.
    pub(crate) fn push(&mut self, asker: Asker) -> Result<(), NoMemory>
        ensures { OnOk result (self.new ≡ self.old ++ asker ∷ []) }
    {
        let one = u64::from(asker.by_stream);
        let Some(by_streams) = self.by_streams.checked_add(one) else {
            return Err(NoMemory);
        };
        self.askers.push(asker)?;
        self.by_streams = by_streams;
        Ok(())
    }
}
