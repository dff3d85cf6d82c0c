//! Octets that a socket has not taken yet.

ghost use Rattle.std.specs.Prelude.{◌≡◌, ◌≤◌, [], ◌++◌, length, drop, OnOk, nat_lt};

use dns_values::NoMemory;
use std::alloc::Global;
use std::marker::Model;

/// Octets that a socket has not taken yet. Contracts see the list of them.
///
/// What was taken is dropped once it is more than what is left, so that many octets are not moved for each few that are taken.
#[derive(Drop)]
pub(crate) struct Unsent {
    octets: Vec<u8>,
    /// How many of the octets at the front were taken.
    taken: usize,
}

impl Model for Unsent {
    ghost use Rattle.std.specs.Prelude.{List, ℕ, ◌+◌, ◌≤◌, length, drop};

    ghost Value = { List ℕ };

    ghost view = { λ u. drop u.taken u.octets.items };

    ghost invariant = { λ u. u.taken + u.taken ≤ length u.octets.items };
}

impl Unsent {
    pub(crate) fn new(alloc: Global) -> Unsent
        ensures { result ≡ [] }
    {
        Unsent {
            octets: Vec::new(alloc),
            taken: 0,
        }
    }

    pub(crate) fn len(&self) -> usize
        ensures { result ≡ length self.now }
    {
        self.octets.len() - self.taken
    }

    pub(crate) fn as_slice(&self) -> &[u8]
        ensures { result.now ≡ self.now }
    {
        &self.octets[self.taken..]
    }

    /// Octets stand behind them.
    pub(crate) fn push(&mut self, octets: &[u8]) -> Result<(), NoMemory>
        ensures { OnOk result (self.new ≡ self.old ++ octets.now) }
    {
        self.octets.extend_from_slice(octets)?;
        Ok(())
    }

    /// So many of them were taken.
    pub(crate) fn drop_front(&mut self, count: usize)
        requires { count ≤ length self.old }
        ensures { self.new ≡ drop count self.old }
    {
        let taken = self.taken + count;
        if taken > self.octets.len() - taken {
            let _ = self.octets.drain(..taken);
            self.taken = 0;
        } else {
            self.taken = taken;
        }
    }
}
