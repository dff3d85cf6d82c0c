//! Which shared forwarder it is.

ghost use Rattle.std.specs.Prelude.{◌≡◌, [], IfOk};
ghost use Rattle.joint_history.specs.Views.{first};
ghost use Rattle.joint_history.specs.Words.{word_of};

use crate::entry::Item;
use dns_values::NoMemory;
use joint_history::{Joint, Seat};
use std::alloc::Global;
use std::marker::Brand;

/// Names one shared forwarder: the table of its history, and what it was opened with. A function that makes one, uses it and closes
/// it is generic in its key, and is called with `Brand`, for which each call picks them.
pub trait ForwarderKey {
    ghost use Rattle.atomic_table.specs.Seated.{TableId};
    ghost use Rattle.front_shared.specs.History.{Opening};

    ghost table: { TableId };

    ghost opening: { Opening };
}

impl ForwarderKey for Brand {
    ghost use Rattle.front_shared.specs.Nothing.{no_opening, no_table};

    ghost table = { no_table };

    ghost opening = { no_opening };
}

/// A history without items, which belongs to no forwarder yet.
#[derive(Drop)]
pub struct Opened {
    pub joint: Joint<Item>,
    pub seat: Seat<Item>,
    pub ghost fresh: { seat.me ≡ (first, []) },
    pub ghost same: { seat.table_id ≡ word_of joint },
}

impl Opened {
    /// `NoMemory` where there is none for the word that counts the history.
    pub fn new(alloc: Global) -> Result<Opened, NoMemory> {
        let Ok((joint, seat)) = Joint::open(alloc) else {
            return Err(NoMemory);
        };
        Ok(Opened { joint, seat })
    }
}
