//! How much of the last write at each stream place was not taken.

ghost use Rattle.std.specs.Prelude.{◌≡◌, OnOk};
ghost use Rattle.number_table.specs.Entries.{entry_at};
ghost use Rattle.trace_tables.specs.writes.Writing as plain;

use client_request::{Out, What};
use dns_base::NoMemory;
use number_table::NumberTable;
use std::alloc::Global;

/// What is left of the last write at a place.
#[derive(Clone, Copy, Debug, Drop)]
pub struct Left {
    /// How many of its octets were not taken.
    pub missing: u64,
    /// Whether nothing was missing when the row began.
    pub was_free: bool,
    /// How many octets the row's event says were taken.
    pub takes: u64,
    /// Whether the row has a write there.
    pub again: bool,
}

/// What is left, and the row in which that was changed last.
#[derive(Clone, Copy, Debug, Drop)]
pub struct Entry {
    pub row: u64,
    pub left: Left,
}

/// What is left of the last writes.
pub struct Writing {
    /// By place.
    pub places: NumberTable<Entry>,
    /// How many rows began.
    pub row: u64,
}

impl Drop for Writing {
    fn drop(self) {
        let Writing { places: _, row: _ } = self;
    }
}

/// A row begins, and its event takes so many octets.
fn waits(taken: u64, left: Left) -> Left
    ensures { result ≡ plain.waits taken left }
{
    Left {
        missing: left.missing.saturating_sub(taken),
        was_free: left.missing == 0,
        takes: taken,
        again: false,
    }
}

/// What is left of a new write.
fn writes_more(count: u64, left: Left) -> Left
    ensures { result ≡ plain.writes_more count left }
{
    let taken = if left.was_free && !left.again {
        left.takes
    } else {
        0
    };
    Left {
        missing: count.saturating_sub(taken),
        was_free: left.was_free,
        takes: left.takes,
        again: true,
    }
}

impl Writing {
    /// Before the first row.
    pub fn new(alloc: Global) -> Writing
        ensures { result ≡ plain.nothing }
    {
        Writing {
            places: NumberTable::new(alloc),
            row: 0,
        }
    }

    /// What is left at a place.
    fn left(&self, place: u64) -> Left
        ensures { result ≡ plain.left_seen place self.now }
    {
        match self.places.get(place) {
            None => Left {
                missing: 0,
                was_free: true,
                takes: 0,
                again: false,
            },
            Some(entry) => {
                if entry.row == self.row {
                    entry.left
                } else {
                    waits(0, entry.left)
                }
            }
        }
    }

    /// What is left at a place changes in this row.
    fn change(&mut self, place: u64, left: Left) -> Result<(), NoMemory>
        ensures { OnOk result (self.new ≡ plain.changes place left self.old) }
    {
        let entry = Entry {
            row: self.row,
            left,
        };
        if self.places.insert(place, entry).is_err() {
            return Err(NoMemory);
        }
        Ok(())
    }

    /// An event comes.
    pub fn meet(&mut self, what: &What) -> Result<(), NoMemory>
        ensures { OnOk result (self.new ≡ plain.takes_in what.now self.old) }
    {
        let Some(row) = self.row.checked_add(1) else {
            return Err(NoMemory);
        };
        match what {
            What::Wrote { place, count } => {
                let left = waits(*count, self.left(*place));
                self.row = row;
                self.change(*place, left)
            }
            _ => {
                self.row = row;
                Ok(())
            }
        }
    }

    /// An out is put.
    pub fn put(&mut self, out: &Out) -> Result<(), NoMemory>
        ensures { OnOk result (self.new ≡ plain.has_put out.now self.old) }
    {
        match out {
            Out::Write { place, octets, .. } => {
                let count = octets.as_slice().len() as u64;
                let left = writes_more(count, self.left(*place));
                self.change(*place, left)
            }
            _ => Ok(()),
        }
    }

    /// Whether less was taken than the last write at a place has.
    pub fn is_unwritten(&self, place: u64) -> bool
        ensures { result ≡ plain.unwritten_seen place self.now }
    {
        self.left(place).missing != 0
    }
}
