//! What stands in the history of a shared forwarder.

use front_peers::{FrontOuts, FrontRow};
use joint_history::Owned;

/// What one call did: who made it, and the row of its event.
#[derive(Drop)]
pub struct Entry {
    pub caller: u32,
    pub row: FrontRow,
}

/// What a call left in the history: an entry, or its end, behind which nothing follows.
#[derive(Drop)]
pub enum Item {
    Made { entry: Entry },
    Ended { caller: u32 },
}

impl Owned for Item {
    ghost use Rattle.front_shared.specs.History.{caller_of};

    ghost by = { caller_of };
}

/// What a call is told.
#[derive(Drop)]
pub struct Receipt {
    /// Where its entry stands in the history, counted from 0.
    pub number: u64,
    /// The row of its event.
    pub row: FrontRow,
    /// What the rows of others put out since the first caller's last call that is the first caller's to do, in order. Others are told
    /// nothing here.
    pub before: FrontOuts,
    /// Whether something waits for the first caller for which nothing waited before.
    pub wakes: bool,
}
