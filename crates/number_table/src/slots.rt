//! The slots of a table: one for each key, in rising order of keys. A slot stays, empty, where its value was
//! taken out.

ghost use Rattle.std.specs.Prelude.{◌≡◌, ◌<◌, ◌≤◌, false, slice_set, vec_len, is_ok, IsTrue, IfOk, IfErr, slice_index_or, if◌then◌else◌};
ghost use Rattle.std.specs.List.{insert};
ghost use Rattle.number_table.specs.declared.slots.Slot.{Slot};
ghost use Rattle.number_table.specs.Slots.{entries_in, Rising, HasKeyAt, IsGapFor, AreEmptyBefore, empty_at};

use std::alloc::AllocFailed;
use std::mem;

/// A key, and what stands under it.
#[derive(Debug, Drop)]
pub(crate) struct Slot<V> {
    pub(crate) key: u64,
    pub(crate) value: Option<V>,
}

/// Whether the slot of a key is at a place.
fn is_key_at<V>(slots: &[Slot<V>], place: usize, key: u64) -> bool
    ensures { IsTrue result → HasKeyAt key slots.now place }
{
    match slots.get(place) {
        Some(slot) => slot.key == key,
        None => false,
    }
}

/// Where the slot of a key stands among so many, if each number from it to the last key has a slot.
fn place_from_last(count: usize, last: u64, key: u64) -> usize {
    let behind = last.saturating_sub(key);
    count.saturating_sub(1).saturating_sub(behind as usize)
}

/// The place of the slot of a key, or the place at which it would go. A key at the place that is looked at first, one behind
/// which no number lacks a slot, and one above all others are found at once.
pub(crate) fn find<V>(slots: &[Slot<V>], first: usize, key: u64) -> Result<usize, usize>
    requires { Rising 0 slots.now }
    ensures found { IfOk result (HasKeyAt key slots.now) }
    ensures gap { IfErr result (IsGapFor key slots.now) }
{
    if is_key_at(slots, first, key) {
        return Ok(first);
    }
    match slots.last() {
        Some(last) if key <= last.key => {
            let likely = place_from_last(slots.len(), last.key, key);
            if is_key_at(slots, likely, key) {
                return Ok(likely);
            }
            slots.binary_search_by_key(&key, |slot| slot.key)
        }
        _ => Err(slots.len()),
    }
}

/// Puts a slot at a place: mostly at the end, where nothing has to move.
#[tactic(auto, using(std::proofs::lemmas::List::Edits::insert_end))]
pub(crate) fn insert_at<V>(
    slots: &mut Vec<Slot<V>>,
    at: usize,
    slot: Slot<V>,
) -> Result<(), AllocFailed<Slot<V>>>
    requires { at ≤ vec_len slots.old }
    ensures items { slots.new.items ≡ (if is_ok result then insert slots.old.items at slot else slots.old.items) }
    ensures value_returned { IfErr result (λ refused. refused.value ≡ slot) }
{
    if at == slots.len() {
        slots.push(slot)
    } else {
        slots.insert(at, slot)
    }
}

/// Puts a slot in the place of one, whose value it returns.
pub(crate) fn replace_at<V>(slots: &mut Vec<Slot<V>>, at: usize, slot: Slot<V>) -> Option<V>
    requires { at < vec_len slots.old }
    ensures old { (d : Slot V) → (slice_index_or slots.old.items at d).value ≡ result }
    ensures slots { slots.new.items ≡ slice_set slots.old.items at slot }
{
    let Slot { key: _, value } = mem::replace(&mut slots[at], slot);
    value
}

/// Whether a slot is at a place, and empty.
fn is_empty_at<V>(slots: &[Slot<V>], place: usize) -> bool
    ensures { result ≡ empty_at place slots.now }
{
    match slots.get(place) {
        Some(slot) => slot.value.is_none(),
        None => false,
    }
}

/// The place of the first slot that is not empty, from a place on, or a place behind all.
pub(crate) fn first_place<V>(slots: &[Slot<V>], mut place: usize) -> usize
    ensures passed { AreEmptyBefore place slots.now → AreEmptyBefore result slots.now }
    ensures full { empty_at result slots.now ≡ false }
{
    while is_empty_at(slots, place) {
        place += 1;
    }
    place
}

/// Takes the empty slots out. It takes no memory.
pub(crate) fn drop_empty<V: Drop>(slots: &mut Vec<Slot<V>>)
    ensures entries { entries_in slots.new.items ≡ entries_in slots.old.items }
    ensures rising { Rising 0 slots.old.items → Rising 0 slots.new.items }
{
    slots.retain(|slot| slot.value.is_some());
}
