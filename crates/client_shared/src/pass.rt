//! What one caller has of a shared client.

ghost use Rattle.std.specs.Prelude.{◌≡◌, ◌<◌};
ghost use mathlib.Core.List.{IsPrefix};
ghost use Rattle.client_shared.specs.History.{IsLegal, AreOfCallers, calls, is_lost};
ghost use Rattle.joint_history.specs.Words.{word_of};

use crate::entry::Item;
use crate::key::ClientKey;
use joint_history::{Joint, Seat};
use std::marker::{Model, PhantomData};

/// A caller's part in a shared client: its number, and what it has seen of the history.
#[derive(Drop)]
pub struct Pass<L: ClientKey> {
    pub(crate) number: u32,
    pub(crate) seat: Seat<Item>,
    pub(crate) of: PhantomData<L>,
}

impl<L: ClientKey> Model for Pass<L> {
    ghost use Rattle.client_shared.specs.History.{Passed, IsPassSeat};

    ghost Value = { Passed };

    ghost view = { λ p. record { number = p.number; seen = p.seat.me.0.seen } };

    ghost invariant = { λ p. IsPassSeat L.table L.opening p.number p.seat };
}

impl<L: ClientKey> Pass<L> {
    /// The caller's number, from 0.
    pub fn number(&self) -> u32
        ensures number { result ≡ self.now.number }
        ensures below { result < L.opening.callers }
    {
        self.number
    }

    /// What a pass has seen is a legal history of its client. It does nothing.
    pub fn history_is_legal(&self)
        ensures legal { IsLegal L.opening self.now.seen }
        ensures callers { AreOfCallers L.opening.callers self.now.seen }
    {
        let _number = self.number;
    }
}

/// Each of two callers has then seen what both had.
pub(crate) fn meet<L: ClientKey>(joint: &Joint<Item>, one: &mut Pass<L>, other: &mut Pass<L>)
    requires { word_of joint.now ≡ L.table }
    ensures same { one.new.seen ≡ other.new.seen }
    ensures numbers { (one.new.number ≡ one.old.number) × (other.new.number ≡ other.old.number) }
    ensures begins { IsPrefix one.old.seen one.new.seen × IsPrefix other.old.seen other.new.seen }
    ensures calls { (calls one.new ≡ calls one.old) × (calls other.new ≡ calls other.old) }
    ensures lost { (is_lost one.new ≡ is_lost one.old) × (is_lost other.new ≡ is_lost other.old) }
{
    joint.tell(&mut one.seat, &mut other.seat);
    joint.tell(&mut other.seat, &mut one.seat);
}
