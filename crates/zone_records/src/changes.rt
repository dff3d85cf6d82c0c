//! What is changed of the records of a list. SOAs of it stay out.

ghost use Rattle.std.specs.Prelude.{◌≡◌, ◌≤◌, not, ◌&&◌, false, List, filter, OnOk, OnErr, IfOk};
ghost use Rattle.std.specs.List.Sorted.{IsStrictlySortedBy};
ghost use Rattle.std.specs.Vec.{vec_capacity, vec_len};
ghost use Rattle.zone_records.specs.Changing.{Adds, Removes, present, stays};
ghost use Rattle.zone_records.specs.Folding.{has};
ghost use Rattle.zone_records.specs.Records.{is_soa, record_cmp};

use crate::keyed::Keyed;
use crate::ordering::order;
use crate::record::ZoneRecord;
use dns_base::NoMemory;
use std::alloc::Global;
use std::collections::BTreeSet;

/// What is changed of the records of a list, which is left as it is until then.
pub(crate) struct Changes {
    /// Whether none of the list stays.
    all_gone: bool,
    /// Those of the list that don't.
    gone: BTreeSet<ZoneRecord>,
    come: BTreeSet<Keyed>,
}

impl Drop for Changes {
    fn drop(self) {
        let Changes {
            all_gone: _,
            gone: _,
            come: _,
        } = self;
    }
}

/// Whether a record is in a list in order.
#[tactic(auto, using(crate::proofs::Searching::searched))]
fn is_in(base: &[ZoneRecord], item: &ZoneRecord) -> bool
    requires { IsStrictlySortedBy record_cmp base.now }
    ensures { result ≡ has base.now item.now }
{
    base.binary_search(item).is_ok()
}

/// Adds a record to those that came, and tells whether it is new there.
#[tactic(auto, using(crate::proofs::Changed::inserted))]
fn insert_keyed(set: &mut BTreeSet<Keyed>, new: Keyed) -> Result<bool, NoMemory>
    ensures added { OnOk result (Adds (has set.old.keys) new (has set.new.keys)) }
    ensures told { IfOk result (λ is_new. is_new ≡ not (has set.old.keys new)) }
{
    match set.insert(new) {
        Ok(is_new) => Ok(is_new),
        Err(_) => Err(NoMemory),
    }
}

/// Adds a record to those that are gone.
#[tactic(auto, using(crate::proofs::Changed::inserted))]
fn insert(set: &mut BTreeSet<ZoneRecord>, gone: ZoneRecord) -> Result<(), NoMemory>
    ensures { OnOk result (Adds (has set.old.keys) gone (has set.new.keys)) }
{
    match set.insert(gone) {
        Ok(_) => Ok(()),
        Err(_) => Err(NoMemory),
    }
}

/// Removes a record from those that came, and tells whether it was there.
#[tactic(auto, using(crate::proofs::Changed::removed))]
fn remove(set: &mut BTreeSet<Keyed>, gone: &Keyed) -> bool
    ensures removed { Removes (has set.old.keys) gone.now (has set.new.keys) }
    ensures told { result ≡ has set.old.keys gone.now }
{
    set.remove(gone)
}

/// Whether a record of a list stays where these are gone.
fn stays(gone: &BTreeSet<ZoneRecord>, item: &ZoneRecord) -> bool
    ensures { result ≡ stays gone.now.keys item.now }
{
    !gone.contains(item) && !item.is_soa()
}

/// Leaves the records that don't stay out of a list.
fn leave_out(records: &mut Vec<ZoneRecord>, gone: &BTreeSet<ZoneRecord>)
    ensures left { records.new.items ≡ filter (stays gone.now.keys) records.old.items }
    ensures fewer { vec_len records.new ≤ vec_len records.old }
    ensures capacity { vec_capacity records.new ≡ vec_capacity records.old }
{
    records.retain(|item| stays(gone, item));
}

/// The same, or leaves out all.
#[tactic(auto, using(crate::proofs::Changed::none_left, crate::proofs::Changed::some_left))]
fn leave(records: &mut Vec<ZoneRecord>, all_gone: bool, gone: &BTreeSet<ZoneRecord>)
    ensures left { (r : ZoneRecord) → has records.new.items r ≡ (not all_gone && (stays gone.now.keys r && has records.old.items r)) }
    ensures fewer { vec_len records.new ≤ vec_len records.old }
    ensures capacity { vec_capacity records.new ≡ vec_capacity records.old }
{
    if all_gone {
        records.clear();
    } else {
        leave_out(records, gone);
    }
}

/// The records of a set, in order.
fn listed(alloc: Global, set: BTreeSet<Keyed>) -> Result<Vec<ZoneRecord>, NoMemory>
    ensures { IfOk result (λ v. v.items ≡ set.keys) }
{
    let mut records = Vec::with_capacity(alloc, set.len())?;
    for item in set {
        records.push(item.into_record())?;
    }
    Ok(records)
}

impl Changes {
    /// No change.
    pub(crate) fn new(alloc: Global) -> Changes
        ensures { (base : List ZoneRecord) (r : ZoneRecord) → present base result r ≡ (not (is_soa r) && has base r) }
    {
        Changes {
            all_gone: false,
            gone: BTreeSet::new(alloc),
            come: BTreeSet::new(alloc),
        }
    }

    /// Leaves no record.
    pub(crate) fn clear(&mut self)
        ensures { (base : List ZoneRecord) (r : ZoneRecord) → present base self.new r ≡ false }
    {
        self.all_gone = true;
        self.come.clear();
    }

    /// Whether a record of the list is there.
    fn stands(&self, base: &[ZoneRecord], item: &ZoneRecord) -> bool
        requires { IsStrictlySortedBy record_cmp base.now }
        ensures { result ≡ (not self.now.all_gone && (stays self.now.gone.keys item.now && has base.now item.now)) }
    {
        !self.all_gone && stays(&self.gone, item) && is_in(base, item)
    }

    /// Adds a record, and tells whether it was there, of the list or by the changes.
    #[tactic(auto, using(crate::proofs::Changed::was_put))]
    pub(crate) fn put(&mut self, base: &[ZoneRecord], new: ZoneRecord) -> Result<bool, NoMemory>
        requires { IsStrictlySortedBy record_cmp base.now }
        ensures added { OnOk result (Adds (present base.now self.old) new (present base.now self.new)) }
        ensures told { IfOk result (λ was_there. was_there ≡ present base.now self.old new) }
    {
        let stood = self.stands(base, &new);
        let is_new = insert_keyed(&mut self.come, Keyed::new(new))?;
        Ok(!is_new || stood)
    }

    /// Removes a record, and tells whether it was there.
    pub(crate) fn take(&mut self, base: &[ZoneRecord], gone: ZoneRecord) -> Result<bool, NoMemory>
        requires { IsStrictlySortedBy record_cmp base.now }
        ensures removed { OnOk result (Removes (present base.now self.old) gone (present base.now self.new)) }
        ensures told { IfOk result (λ was_there. was_there ≡ present base.now self.old gone) }
    {
        let stood = self.stands(base, &gone);
        let keyed = Keyed::new(gone);
        let came = remove(&mut self.come, &keyed);
        insert(&mut self.gone, keyed.into_record())?;
        Ok(came || stood)
    }

    /// Makes the changes of a list, in its own memory. It stays as it is where there is none for more.
    #[tactic(auto, using(crate::proofs::Changed::come_in))]
    pub(crate) fn make(self, alloc: Global, records: &mut Vec<ZoneRecord>) -> Result<(), NoMemory>
        ensures made { OnOk result ((r : ZoneRecord) → has records.new.items r ≡ present records.old.items self r) }
        ensures sorted { OnOk result (IsStrictlySortedBy record_cmp records.new.items) }
        ensures kept { OnErr result (records.new.items ≡ records.old.items) }
    {
        let Changes {
            all_gone,
            gone,
            come,
        } = self;
        let mut come = listed(alloc, come)?;
        records.reserve(come.len())?;
        leave(records, all_gone, &gone);
        let is_appended = records.append(&mut come).is_ok();
        prove!(is_appended);
        order(records);
        Ok(())
    }
}
