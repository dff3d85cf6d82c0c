//! The table.

ghost use Rattle.std.specs.Prelude.{◌≡◌, ◌==◌, ◌∷◌, [], None, length, slice_get, option_copied, option_map, is_some, IsSome, IfSome, IfNone, IfOk, IfErr, OnOk, OnErr};
ghost use Rattle.number_table.specs.Entries.{puts, frees, entry_at};

use crate::entries::Entries;
use crate::slots::{Slot, drop_empty, find, first_place, insert_at, replace_at};
use std::alloc::{AllocFailed, Global};
use std::marker::Model;

/// Slots that are no more than this are not compacted.
const COMPACT_ABOVE: usize = 16;

/// A table by number. It is quick where keys are mostly inserted in rising order, and mostly removed from the
/// least on: a key above all others is added at the end, and an entry that is removed leaves an empty slot,
/// which goes once more than half of the slots are empty.
#[derive(Debug)]
pub struct NumberTable<V> {
    slots: Vec<Slot<V>>,
    // The slots before this place are empty.
    front: usize,
    // How many slots are not empty.
    len: usize,
}

impl<V: Drop> Drop for NumberTable<V> {
    fn drop(self) {
        let NumberTable {
            slots: _,
            front: _,
            len: _,
        } = self;
    }
}

impl<V> Model for NumberTable<V> {
    ghost use Rattle.std.specs.Prelude.{ℕ, List};
    ghost use Rattle.number_table.specs.Slots.{entries_in, AreSlots};

    ghost Value = { List (ℕ × V) };

    ghost view = { λ t. entries_in t.slots.items };

    ghost invariant = { λ t. AreSlots t.len t.front t.slots.items };
}

impl<V> NumberTable<V> {
    /// An empty table. It takes no memory.
    pub fn new(alloc: Global) -> NumberTable<V>
        ensures { result ≡ [] }
    {
        NumberTable {
            slots: Vec::new(alloc),
            front: 0,
            len: 0,
        }
    }

    /// How many entries the table has.
    pub fn len(&self) -> usize
        ensures { result ≡ length self.now }
    {
        self.len
    }

    /// Whether the table has no entry.
    pub fn is_empty(&self) -> bool
        ensures { result ≡ (length self.now == 0) }
    {
        self.len == 0
    }

    /// The least key.
    pub fn first(&self) -> Option<u64>
        ensures { result ≡ option_map (λ e. e.0) (slice_get self.now 0) }
    {
        let place = first_place(self.slots.as_slice(), self.front);
        let slot = self.slots.get(place)?;
        Some(slot.key)
    }

    /// Whether a key has an entry.
    pub fn contains_key(&self, key: u64) -> bool
        ensures { result ≡ is_some (entry_at key self.now) }
    {
        self.get(key).is_some()
    }

    /// The value under a key.
    pub fn get(&self, key: u64) -> Option<&V>
        ensures { option_copied result ≡ entry_at key self.now }
    {
        match find(self.slots.as_slice(), self.front, key) {
            Ok(at) => self.slots[at].value.as_ref(),
            Err(_) => None,
        }
    }
}

impl<'a, V> IntoIterator for &'a NumberTable<V> {
    type Item = (u64, &'a V);

    type IntoIter = Entries<'a, V>;

    ghost into_iter_gives = { λ table entries. entries ≡ table.now };

    fn into_iter(self) -> Entries<'a, V> {
        Entries {
            slots: self.slots.as_slice(),
        }
    }
}

impl<V: Drop> NumberTable<V> {
    /// Puts a value under a key, and returns the one that stood there. Only a new key can fail, for want of
    /// memory: then the pair comes back and the entries stay.
    pub fn insert(&mut self, key: u64, value: V) -> Result<Option<V>, AllocFailed<(u64, V)>>
        ensures old { IfOk result (λ old. old ≡ entry_at key self.old) }
        ensures entries { OnOk result (self.new ≡ puts key value self.old) }
        ensures value_returned { IfErr result (λ refused. refused.value ≡ (key, value)) }
        ensures absent { OnErr result (entry_at key self.old ≡ None) }
        ensures err { OnErr result (self.new ≡ self.old) }
    {
        let slot = Slot {
            key,
            value: Some(value),
        };
        match find(self.slots.as_slice(), self.front, key) {
            Ok(at) => {
                let old = replace_at(&mut self.slots, at, slot);
                self.front = self.front.min(at);
                if old.is_none() {
                    self.len += 1;
                }
                Ok(old)
            }
            Err(at) => {
                if let Err(refused) = insert_at(&mut self.slots, at, slot) {
                    return Err(handed_back(refused.value));
                }
                self.front = self.front.min(at);
                self.len += 1;
                Ok(None)
            }
        }
    }

    /// Takes out the entry of a key.
    pub fn remove(&mut self, key: u64) -> Option<V>
        ensures value { result ≡ entry_at key self.old }
        ensures entries { self.new ≡ frees key self.old }
        ensures none { IfNone result (self.new ≡ self.old) }
    {
        let Ok(at) = find(self.slots.as_slice(), self.front, key) else {
            return None;
        };
        let value = replace_at(&mut self.slots, at, Slot { key, value: None })?;
        self.len -= 1;
        self.front = first_place(self.slots.as_slice(), self.front);
        self.compact();
        Some(value)
    }

    /// Takes the empty slots out where they are more than half of slots that are not few, so that each that is
    /// taken out pays for less than one that stays. It takes no memory.
    fn compact(&mut self)
        ensures { self.new ≡ self.old }
    {
        if COMPACT_ABOVE < self.slots.len() && self.len < self.slots.len() / 2 {
            drop_empty(&mut self.slots);
            self.front = 0;
        }
    }

    /// Takes out the entry with the least key.
    pub fn pop_first(&mut self) -> Option<(u64, V)>
        ensures removal { IfSome result (λ first. self.old ≡ first ∷ self.new) }
        ensures empty { IfNone result (self.old ≡ []) }
        ensures none { IfNone result (self.new ≡ self.old) }
    {
        self.front = first_place(self.slots.as_slice(), self.front);
        let key = self.first()?;
        let value = self.remove(key)?;
        Some((key, value))
    }

    /// Takes out all entries.
    pub fn clear(&mut self)
        ensures { self.new ≡ [] }
    {
        self.slots.clear();
        self.front = 0;
        self.len = 0;
    }
}

/// The entry of a slot that was not stored.
fn handed_back<V>(slot: Slot<V>) -> AllocFailed<(u64, V)>
    requires { IsSome slot.value }
    ensures { IfSome slot.value (λ value. result.value ≡ (slot.key, value)) }
{
    let Slot { key, value } = slot;
    match value {
        Some(value) => AllocFailed {
            value: (key, value),
        },
        None => unreachable!(),
    }
}
