//! The timers that are set: a binary heap, in which those that were cancelled stay until they come to its
//! top, or until they are more than half of it.

ghost use Rattle.std.specs.Prelude.{◌≡◌, ◌+◌, ◌*◌, ◌==◌, ◌<◌, ◌≤◌, true, false, [], nat_eq, length, slice_get, option_map, OnOk, OnErr, IfOk, IfErr, IsErrOf};
ghost use Rattle.std.specs.List.{All, Contains, IsDistinct};
ghost use Rattle.client_request.specs.Timers.{next_due, with_timer, cancelled, due_now, fired, can_draw, IsWant, entry_of, numbers_of, IsSetOrCancelled, ParentsGoFirst};

use crate::error::Error;
use crate::event::Moment;
use crate::timer_heap::{add, compact, settle};
use number_table::NumberTable;
use std::alloc::Global;
use std::marker::Model;

/// The number of a timer. Numbers rise from 0 in the order in which timers are set.
#[derive(Clone, Copy, Debug, PartialEq, Eq, PartialOrd, Ord, Hash)]
pub struct TimerId(pub u64);

/// A timer that is set: when it is due, in microseconds, and its number.
#[derive(Clone, Copy, Debug, PartialEq, Eq)]
pub struct Timer {
    /// The moment at which it is due, in microseconds.
    pub due: u128,
    /// Its number.
    pub id: u64,
}

/// The timers that are set and neither fired nor cancelled: the due moment of each by its number, and the
/// heap, in which cancelled ones may stand too, but not at its top.
pub struct Timers {
    heap: Vec<(u128, TimerId)>,
    table: NumberTable<u128>,
    next: u64,
}

impl Drop for Timers {
    fn drop(self) {
        let Timers {
            heap: _,
            table: _,
            next: _,
        } = self;
    }
}

impl Model for Timers {
    ghost use Rattle.client_request.specs.Timers.{TimerList};
    ghost use Rattle.client_request.specs.TimerHeap.{timers_of, IsHeapOf};

    ghost Value = { TimerList };

    ghost view = { λ t. record { next = t.next; set = timers_of t.table } };

    ghost invariant = { λ t. IsHeapOf t.next t.table t.heap.items };
}

impl Timers {
    /// No timers; the first that is set has the number 0.
    pub fn new(alloc: Global) -> Timers
        ensures { result ≡ record { next = 0; set = [] } }
    {
        Timers {
            heap: Vec::new(alloc),
            table: NumberTable::new(alloc),
            next: 0,
        }
    }

    /// Sets a timer that is due at `due` microseconds. After a refusal nothing was set.
    pub fn set(&mut self, due: u128) -> Result<TimerId, Error>
        ensures id { IfOk result (λ id. id.0 ≡ self.old.next) }
        ensures set { OnOk result (self.new ≡ with_timer due self.old) }
        ensures draws { OnOk result (can_draw self.old.next ≡ true) }
        ensures used { IsErrOf result Error.NumbersUsed → can_draw self.old.next ≡ false }
        ensures refused { IfErr result IsWant }
        ensures err { OnErr result (self.new ≡ self.old) }
    {
        let Some(next) = self.next.checked_add(1) else {
            return Err(Error::NumbersUsed);
        };
        let id = TimerId(self.next);
        add(&mut self.heap, &mut self.table, due, id)?;
        self.next = next;
        Ok(id)
    }

    /// How many timers are set.
    pub fn len(&self) -> usize
        ensures { result ≡ length self.now.set }
    {
        self.table.len()
    }

    /// Drops a timer, if it is still set.
    pub fn cancel(&mut self, id: TimerId)
        ensures { self.new ≡ cancelled id.0 self.old }
    {
        let _ = self.table.remove(id.0);
        compact(&mut self.heap, &self.table);
        settle(&mut self.heap, &self.table);
    }

    /// The least due moment, and the timer that has it: of several the one with the least number.
    pub fn next_due(&self) -> Option<(u128, TimerId)>
        ensures { result ≡ option_map (λ t. (t.due, record { 0 = t.id })) (next_due self.now.set) }
    {
        self.heap.first().copied()
    }

    /// Takes out the timer that goes first, where it is due at `now`.
    pub fn fire(&mut self, now: Moment) -> Option<TimerId>
        ensures value { result ≡ option_map (λ t. record { 0 = t.id }) (due_now now.0 self.old.set) }
        ensures after { self.new ≡ fired now.0 self.old }
    {
        let (due, id) = self.next_due()?;
        if u128::from(now.0) < due {
            return None;
        }
        self.cancel(id);
        Some(id)
    }

    /// The heap: each timer that is set, and cancelled ones, at most as many as are set and 16.
    pub fn heap(&self) -> &[(u128, TimerId)]
        ensures set { All (λ t. Contains result.now (entry_of t)) self.now.set }
        ensures once { IsDistinct nat_eq (numbers_of result.now) }
        ensures rest { All (IsSetOrCancelled self.now) result.now }
        ensures top { slice_get result.now 0 ≡ option_map entry_of (next_due self.now.set) }
        ensures parents { ParentsGoFirst result.now }
        ensures bound { length result.now ≤ 2 * length self.now.set + 16 }
    {
        self.heap.as_slice()
    }
}
