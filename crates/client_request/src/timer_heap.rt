//! A binary heap of timers: the one that goes first stands at its top. Timers that were cancelled stay in
//! it until they come to the top, or until they are more than half of it.

ghost use Rattle.std.specs.Prelude.{◌≡◌, ◌+◌, ◌*◌, ◌<◌, ◌≤◌, ◌∷◌, false, nat_eq, length, vec_len, slice_index_or, IsSome, OnOk, OnErr, IsErrOf, IfErr, Err};
ghost use Rattle.std.specs.Ordering.{nat_cmp};
ghost use Rattle.std.specs.List.{All, IsDistinct};
ghost use Rattle.std.specs.List.Sorted.{IsPermutation};
ghost use Rattle.std.specs.BinaryHeap.{IsHeap, KeepsHeap};
ghost use Rattle.std.specs.BinaryHeap.Sift.{IsGreaterChild, SiftsUp, SiftsDown};
ghost use Rattle.client_request.specs.Timers.{goes_before, numbers_of, Entry};
ghost use Rattle.client_request.specs.TimerHeap.{urgency_cmp, top_is_cancelled, DropsCancelled};
ghost use Rattle.client_request.specs.Numbered.{entry_at, puts};

use crate::error::Error;
use crate::timers::TimerId;
use number_table::NumberTable;

/// When a timer is due, and its number.
type Entry = (u128, TimerId);

/// A heap of at most this many entries is not compacted.
const COMPACT_ABOVE: usize = 16;

/// Whether the entry at a place goes before the one at another.
fn goes_first(heap: &[Entry], place: usize, other: usize) -> bool
    requires place_within { place < length heap.now }
    requires other_within { other < length heap.now }
    ensures { (d : Entry) → goes_before (slice_index_or heap.now place d) (slice_index_or heap.now other d) ≡ result }
{
    let (a, b) = (heap[place], heap[other]);
    a.0 < b.0 || (a.0 == b.0 && a.1.0 < b.1.0)
}

/// Moves the entry at a place up, until its parent goes before it.
fn rise(heap: &mut [Entry], mut at: usize)
    requires { at < length heap.old }
    ensures moves { IsPermutation heap.old heap.new }
    ensures rises { SiftsUp urgency_cmp heap.old at heap.new }
{
    while 0 < at {
        let parent = (at - 1) / 2;
        if !goes_first(heap, at, parent) {
            return;
        }
        heap.swap(parent, at);
        at = parent;
    }
}

/// The one of the two children of a place that goes first.
fn first_child(heap: &[Entry], at: usize) -> usize
    requires { 2 * at + 1 < length heap.now }
    ensures within { result < length heap.now }
    ensures from { at * 2 + 1 ≤ result }
    ensures to { result ≤ at * 2 + 2 }
    ensures first { IsGreaterChild urgency_cmp heap.now at result (length heap.now) }
{
    let left = 2 * at + 1;
    let right = left + 1;
    if heap.len() <= right {
        return left;
    }
    if goes_first(heap, left, right) {
        left
    } else {
        right
    }
}

/// Moves the entry at a place down, until it goes before its children.
fn sink(heap: &mut [Entry], mut at: usize)
    ensures moves { IsPermutation heap.old heap.new }
    ensures sinks { SiftsDown urgency_cmp heap.old at (length heap.old) heap.new }
{
    let parents = heap.len() / 2;
    while at < parents {
        let child = first_child(heap, at);
        if !goes_first(heap, child, at) {
            return;
        }
        heap.swap(at, child);
        at = child;
    }
}

/// Puts the entries in the order of a heap, in a time that is linear in their number.
fn rebuild(heap: &mut [Entry])
    ensures moves { IsPermutation heap.old heap.new }
    ensures order { IsHeap urgency_cmp heap.new }
{
    for at in (0..heap.len() / 2).rev() {
        sink(heap, at);
    }
}

/// Takes the top out.
fn pop_top(heap: &mut Vec<Entry>) -> Entry
    requires { 0 < vec_len heap.old }
    ensures top { result ≡ slice_index_or heap.old.items 0 result }
    ensures taken { IsPermutation heap.old.items (result ∷ heap.new.items) }
    ensures order { KeepsHeap urgency_cmp heap.old.items heap.new.items }
{
    let top = heap.swap_remove(0);
    sink(heap.as_mut_slice(), 0);
    top
}

/// Whether the timer at the top is cancelled.
fn is_cancelled_at_top(heap: &[Entry], table: &NumberTable<u128>) -> bool
    ensures { result ≡ top_is_cancelled table.now heap.now }
{
    match heap {
        [] => false,
        [top, ..] => !table.contains_key(top.1.0),
    }
}

/// Drops the cancelled timers at the top, until one that is set stands there or none is left.
pub(crate) fn settle(heap: &mut Vec<Entry>, table: &NumberTable<u128>)
    ensures drops { DropsCancelled table.now heap.old.items heap.new.items }
    ensures top { top_is_cancelled table.now heap.new.items ≡ false }
{
    while is_cancelled_at_top(heap, table) {
        let _cancelled = pop_top(heap);
    }
}

/// Drops all cancelled timers.
fn drop_cancelled(heap: &mut Vec<Entry>, table: &NumberTable<u128>)
    ensures drops { DropsCancelled table.now heap.old.items heap.new.items }
    ensures set { All (λ e. IsSome (entry_at e.1.0 table.now)) heap.new.items }
{
    heap.retain(|entry| table.contains_key(entry.1.0));
    rebuild(heap.as_mut_slice());
}

/// Drops all cancelled timers where they are more than half of a heap that is not small: each that is dropped
/// pays for less than one that stays. It takes no memory.
pub(crate) fn compact(heap: &mut Vec<Entry>, table: &NumberTable<u128>)
    ensures drops { DropsCancelled table.now heap.old.items heap.new.items }
    ensures bound { IsDistinct nat_eq (numbers_of heap.old.items) → length heap.new.items ≤ 2 * length table.now + 16 }
{
    if COMPACT_ABOVE < heap.len() && table.len() < heap.len() / 2 {
        drop_cancelled(heap, table);
    }
}

/// Puts a timer into the table and the heap. After a refusal both are as they were.
pub(crate) fn add(
    heap: &mut Vec<Entry>,
    table: &mut NumberTable<u128>,
    due: u128,
    id: TimerId,
) -> Result<(), Error>
    ensures table { OnOk result (table.new ≡ puts id.0 due table.old) }
    ensures order { OnOk result (KeepsHeap urgency_cmp heap.old.items heap.new.items) }
    ensures added { OnOk result (IsPermutation ((due, id) ∷ heap.old.items) heap.new.items) }
    ensures refused { IfErr result (λ e. e ≡ Error.NoMemory) }
    ensures table_err { OnErr result (table.new ≡ table.old) }
    ensures heap_err { OnErr result (heap.new.items ≡ heap.old.items) }
{
    let last = heap.len();
    if heap.push((due, id)).is_err() {
        return Err(Error::NoMemory);
    }
    if table.insert(id.0, due).is_err() {
        let _ = heap.pop();
        return Err(Error::NoMemory);
    }
    rise(heap.as_mut_slice(), last);
    Ok(())
}
