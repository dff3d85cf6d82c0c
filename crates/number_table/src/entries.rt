//! The entries of a table, one after another.

ghost use Rattle.std.specs.Iterator.{YieldsFirstBy, item_count};

use crate::slots::Slot;
use std::iter::FusedIterator;
use std::marker::Model;

/// The entries of a table that are left, from the least key on.
#[derive(Drop)]
pub struct Entries<'a, V> {
    pub(crate) slots: &'a [Slot<V>],
}

impl<'a, V> Model for Entries<'a, V> {
    ghost use Rattle.std.specs.Prelude.{ℕ, List};
    ghost use Rattle.number_table.specs.Slots.{entries_in};

    ghost Value = { List (ℕ × V) };

    ghost view = { λ e. entries_in e.slots.now };
}

impl<'a, V> Iterator for Entries<'a, V> {
    type Item = (u64, &'a V);

    ghost next_gives = { YieldsFirstBy (λ entry. (entry.0, entry.1.now)) (λ rest. rest) };

    ghost remaining = { item_count (λ rest. rest) };

    fn next(&mut self) -> Option<(u64, &'a V)> {
        while let Some((slot, rest)) = self.slots.split_first() {
            self.slots = rest;
            if let Some(value) = &slot.value {
                return Some((slot.key, value));
            }
        }
        None
    }
}

impl<'a, V> FusedIterator for Entries<'a, V> {}
