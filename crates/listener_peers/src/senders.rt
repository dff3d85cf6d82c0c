//! Where datagrams came from.

ghost use Rattle.std.specs.Prelude.{◌≡◌, [], IfOk, OnOk};
ghost use Rattle.listener_peers.specs.Senders.{and_next, but_sender, sender_at, with_room};

use dns_values::{NoMemory, SocketAddr};
use number_table::NumberTable;
use std::alloc::Global;
use std::marker::Model;

/// How many senders are kept at most.
const MOST_KEPT: usize = 20_000;

/// Where a datagram came from.
#[derive(Clone, Copy, Debug, PartialEq, Eq)]
pub struct Sender {
    /// The position of the listener at which it came, counted from 0.
    pub door: usize,
    /// The address from which it came.
    pub from: SocketAddr,
}

/// The senders of datagrams that have had no answer yet. Each datagram has a number of its own; the oldest sender is forgotten where
/// there are more than can be kept.
pub struct Senders {
    next: u64,
    by_number: NumberTable<Sender>,
}

impl Drop for Senders {
    fn drop(self) {
        let Senders {
            next: _,
            by_number: _,
        } = self;
    }
}

impl Model for Senders {
    ghost use Rattle.listener_peers.specs.Senders.{Senders};

    ghost Value = { Senders };

    ghost view = { λ s. record { next = s.next; kept = s.by_number } };
}

impl Senders {
    /// No sender. The first will have this number.
    pub fn new(alloc: Global, first: u64) -> Senders
        ensures { result ≡ record { next = first; kept = [] } }
    {
        Senders {
            next: first,
            by_number: NumberTable::new(alloc),
        }
    }

    /// Keeps a sender: the number of its datagram.
    pub fn keep(&mut self, sender: Sender) -> Result<u64, NoMemory>
        ensures number { IfOk result (λ number. number ≡ self.old.next) }
        ensures kept { OnOk result (self.new ≡ and_next sender self.old) }
    {
        let number = self.next;
        self.make_room();
        self.by_number.insert(number, sender)?;
        self.next = number.saturating_add(1);
        Ok(number)
    }

    /// The sender of a datagram by its number, which is forgotten.
    pub fn take(&mut self, number: u64) -> Option<Sender>
        ensures sender { result ≡ sender_at number self.old.kept }
        ensures forgotten { self.new ≡ record { next = self.old.next; kept = but_sender number self.old.kept } }
    {
        self.by_number.remove(number)
    }

    /// Forgets the oldest sender where there are as many as can be kept.
    fn make_room(&mut self)
        ensures { self.new ≡ record { next = self.old.next; kept = with_room self.old.kept } }
    {
        if self.by_number.len() >= MOST_KEPT {
            drop(self.by_number.pop_first());
        }
    }
}
