//! What one caller has of a shared forwarder.

ghost use Rattle.std.specs.Prelude.{◌≡◌, ◌<◌};
ghost use Rattle.front_shared.specs.History.{IsLegal};

use crate::entry::Item;
use crate::key::ForwarderKey;
use joint_history::Seat;
use std::marker::{Model, PhantomData};

/// A caller's part in a shared forwarder: its number, and what it has seen of the history.
#[derive(Drop)]
pub struct Pass<L: ForwarderKey> {
    pub(crate) number: u32,
    pub(crate) seat: Seat<Item>,
    pub(crate) of: PhantomData<L>,
}

impl<L: ForwarderKey> Model for Pass<L> {
    ghost use Rattle.front_shared.specs.History.{Passed, IsPassSeat};

    ghost Value = { Passed };

    ghost view = { λ p. record { number = p.number; seen = p.seat.me.0.seen } };

    ghost invariant = { λ p. IsPassSeat L.table L.opening p.number p.seat };
}

impl<L: ForwarderKey> Pass<L> {
    /// The caller's number. The first caller has 0.
    pub fn number(&self) -> u32
        ensures number { result ≡ self.now.number }
        ensures below { result < L.opening.callers }
    {
        self.number
    }

    /// What a pass has seen is a legal history of its forwarder. It does nothing.
    pub fn history_is_legal(&self)
        ensures { IsLegal L.opening self.now.seen }
    {
        let _number = self.number;
    }
}
