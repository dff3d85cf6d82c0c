//! The ids of the requests on a connection.

ghost use Rattle.std.specs.Prelude.{◌≡◌, ◌+◌, ◌↔◌, ◌==◌, ◌<◌, ◌≤◌, length, List, ℕ, Option, Some, None, Err, IsSome, IfOk, IfErr, OnOk, OnErr, OnSome, if◌then◌else◌, slice_set, slice_index_or, [], map};
ghost use Rattle.std.specs.Vec.{vec_capacity};
ghost use Rattle.client_request.specs.Numbered.{entry_at, puts};
ghost use Rattle.client_stream.specs.IdTable.{no_ids, reuses, least_free, next_id, inserted, inserted_at, removed, items_of, item_of, AreSlotsOf, held_from, full_front};

use dns_base::NoMemory;
use std::alloc::Global;
use std::marker::Model;
use std::mem;

/// How many ids may be held at a time.
const MAX_HELD: usize = 32768;

/// Why an item got no id. It is handed back.
#[derive(Debug, Drop)]
pub enum InsertFault<T> {
    /// 32768 ids are held.
    Full(T),
    /// Memory ran out.
    NoMemory(T),
}

/// Items by id, and a mark above all ids that are held.
///
/// An id is given again only where at most half of those below the mark are held, so that an answer
/// that comes late seldom meets another request.
#[derive(Drop)]
pub struct Queries<T> {
    alloc: Global,
    slots: Vec<Option<T>>,
    /// How many slots hold an item.
    held: usize,
    /// No slot below this one is free.
    full_below: usize,
}

impl<T> Model for Queries<T> {
    ghost use Rattle.std.specs.Prelude.{◌≡◌, ◌≤◌, length};
    ghost use Rattle.client_stream.specs.IdTable.{IdTable, held_from, full_front};

    ghost Value = { IdTable T };

    ghost view = { λ q. record { held = held_from 0 q.slots.items; mark = length q.slots.items } };

    ghost invariant = { λ q. (q.held ≡ length (held_from 0 q.slots.items)) × (q.full_below ≤ full_front q.slots.items) × (q.held ≤ 32768) × (length q.slots.items ≤ 65536) };
}

/// The first free slot, of which it is known that it does not come before a place.
fn first_free<T>(slots: &[Option<T>], from: usize) -> usize
    requires { from ≤ full_front slots.now }
    ensures { result ≡ full_front slots.now }
{
    let mut id = from;
    while id < slots.len() && slots[id].is_some() {
        id += 1;
    }
    id
}

/// Puts an item into a slot.
fn put_slot<T: Drop>(slots: &mut Vec<Option<T>>, id: usize, item: T)
    requires { id < length slots.old.items }
    ensures { slots.new.items ≡ slice_set slots.old.items id (Some item) }
{
    slots[id] = Some(item);
}

/// Takes the item out of a slot, if there is one.
fn take_slot<T: Drop>(slots: &mut Vec<Option<T>>, id: usize) -> Option<T>
    ensures item { result ≡ slice_index_or slots.old.items id None }
    ensures taken { slots.new.items ≡ slice_set slots.old.items id None }
{
    let slot = slots.get_mut(id)?;
    slot.take()
}

/// The items of slots, in order, in memory that is there for them. They are taken from the back.
fn gather<T: Drop>(mut slots: Vec<Option<T>>, mut items: Vec<T>) -> Vec<T>
    requires empty { items.items ≡ [] }
    requires room { length (held_from 0 slots.items) ≤ vec_capacity items }
    ensures { result.items ≡ map (λ entry. entry.1) (held_from 0 slots.items) }
{
    while let Some(slot) = slots.pop() {
        match slot {
            Some(item) => items.push_reserved(item),
            None => {}
        }
    }
    items.reverse();
    items
}

impl<T: Drop> Queries<T> {
    pub fn new(alloc: Global) -> Queries<T>
        ensures { result ≡ no_ids }
    {
        Queries {
            alloc,
            slots: Vec::new(alloc),
            held: 0,
            full_below: 0,
        }
    }

    /// Whether no id is held.
    pub fn is_empty(&self) -> bool
        ensures { result ≡ (length self.now.held == 0) }
    {
        self.held == 0
    }

    /// How many ids are held: at most 32768.
    pub fn count(&self) -> usize
        ensures count { result ≡ length self.now.held }
        ensures limit { result ≤ 32768 }
    {
        self.held
    }

    /// As many slots as the mark: each holds the item that has its place for id.
    pub fn slots(&self) -> &[Option<T>]
        ensures { AreSlotsOf self.now result.now }
    {
        self.slots.as_slice()
    }

    /// Gives an item an id: the least free one below the mark where the mark is at least twice the count
    /// and one is free there, else the mark, which then rises by one. `Full` exactly where 32768 ids are
    /// held. A refusal changes nothing, and hands the item back.
    pub fn insert(&mut self, item: T) -> Result<u16, InsertFault<T>>
        ensures id { IfOk result (λ id. id ≡ next_id self.old) }
        ensures ok { OnOk result (self.new ≡ inserted item self.old) }
        ensures full { (result ≡ Err (InsertFault.Full item)) ↔ (length self.old.held ≡ 32768) }
        ensures back { IfErr result (λ fault. item_of fault ≡ item) }
        ensures err { OnErr result (self.new ≡ self.old) }
    {
        if self.held == MAX_HELD {
            return Err(InsertFault::Full(item));
        }
        match self.reusable() {
            Some(id) => {
                self.fill(id, item);
                Ok(id as u16)
            }
            None => self.append(item),
        }
    }

    /// The id that comes next, unless 32768 ids are held.
    pub fn next_id(&self) -> Option<u16>
        ensures { result ≡ (if length self.now.held == 32768 then None else Some (next_id self.now)) }
    {
        if self.held == MAX_HELD {
            return None;
        }
        match self.reusable() {
            Some(id) => Some(id as u16),
            None => Some(self.slots.len() as u16),
        }
    }

    /// The id that is given again, if one is.
    fn reusable(&self) -> Option<usize>
        ensures { result ≡ (if reuses self.now then Some (least_free self.now) else None) }
    {
        if 2 * self.held > self.slots.len() {
            return None;
        }
        let id = first_free(&self.slots, self.full_below);
        if id < self.slots.len() {
            Some(id)
        } else {
            None
        }
    }

    /// Gives an item the least free id, which is below the mark.
    fn fill(&mut self, id: usize, item: T)
        requires least { id ≡ least_free self.old }
        requires below { id < self.old.mark }
        requires room { length self.old.held < 32768 }
        ensures { self.new ≡ inserted_at id item self.old }
    {
        put_slot(&mut self.slots, id, item);
        self.held += 1;
        self.full_below = id + 1;
    }

    /// Gives an item the id at the mark.
    fn append(&mut self, item: T) -> Result<u16, InsertFault<T>>
        requires few { length self.old.held < 32768 }
        requires short { self.old.mark < 65536 }
        ensures id { IfOk result (λ id. id ≡ self.old.mark) }
        ensures held { OnOk result (self.new.held ≡ puts self.old.mark item self.old.held) }
        ensures mark { OnOk result (self.new.mark ≡ self.old.mark + 1) }
        ensures memory { IfErr result (λ fault. fault ≡ InsertFault.NoMemory item) }
        ensures err { OnErr result (self.new ≡ self.old) }
    {
        let id = self.slots.len();
        match self.slots.push(Some(item)) {
            Ok(()) => {
                self.held += 1;
                Ok(id as u16)
            }
            Err(failed) => match failed.value {
                Some(item) => Err(InsertFault::NoMemory(item)),
                None => unreachable!(),
            },
        }
    }

    /// Gives an item an id that is free below the mark. It takes no memory.
    pub fn insert_at(&mut self, id: u16, item: T)
        requires below { id < self.old.mark }
        requires free { entry_at id self.old.held ≡ None }
        requires room { length self.old.held < 32768 }
        ensures { self.new ≡ inserted_at id item self.old }
    {
        put_slot(&mut self.slots, usize::from(id), item);
        self.held += 1;
    }

    /// Takes out the item with an id, which is then free.
    pub fn try_remove(&mut self, id: u16) -> Option<T>
        ensures item { result ≡ entry_at id self.old.held }
        ensures removed { self.new ≡ removed id self.old }
        ensures below { OnSome result (id < self.new.mark) }
        ensures free { OnSome result (entry_at id self.new.held ≡ None) }
        ensures room { OnSome result (length self.new.held < 32768) }
        ensures none { result ≡ None → self.new ≡ self.old }
    {
        let id = usize::from(id);
        let item = take_slot(&mut self.slots, id)?;
        self.held -= 1;
        self.full_below = self.full_below.min(id);
        Some(item)
    }

    /// Takes out all items, in order of ids. The mark becomes 0. After want of memory nothing was taken.
    pub fn drain(&mut self) -> Result<Vec<T>, NoMemory>
        ensures items { IfOk result (λ items. items.items ≡ items_of self.old) }
        ensures ok { OnOk result (self.new ≡ no_ids) }
        ensures err { OnErr result (self.new ≡ self.old) }
    {
        let items = match Vec::with_capacity(self.alloc, self.held) {
            Ok(items) => items,
            Err(_) => return Err(NoMemory),
        };
        let slots = mem::replace(&mut self.slots, Vec::new(self.alloc));
        self.held = 0;
        self.full_below = 0;
        Ok(gather(slots, items))
    }
}
