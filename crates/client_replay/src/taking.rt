//! What takes the rows of a replay as they are made.

ghost use Rattle.std.specs.Prelude.{◌≡◌, ◌++◌, [], ◌∷◌, List, OnOk};
ghost use Rattle.client_request.specs.declared.event.Row.{Row};

use client_request::{Row, Rows};
use dns_base::NoMemory;

/// Takes the rows of a replay, one behind another.
pub trait TakeRow {
    /// It has taken just these rows, in this order.
    ghost has: { Self → List Row → Type 0 };

    /// Takes the next row. After `NoMemory` it is of no more use.
    fn take(&mut self, row: Row) -> Result<(), NoMemory>
        ensures taken { OnOk result ((rows : List Row) → has self.old rows → has self.new (rows ++ row ∷ [])) };
}

/// They are kept.
impl TakeRow for Rows {
    ghost has = { λ taken rows. taken ≡ rows };

    fn take(&mut self, row: Row) -> Result<(), NoMemory> {
        self.push(row)
    }
}
