//! What updates do to the records of a list. SOAs stay out of it.

ghost use Rattle.std.specs.Prelude.{◌≡◌, not, ◌&&◌, IfOk, OnOk, OnErr};
ghost use Rattle.std.specs.List.Sorted.{IsStrictlySortedBy};
ghost use Rattle.zone_records.specs.Changing.{AddsPlain, AreMade, Folds, FoldsOne, Removes, present};
ghost use Rattle.zone_records.specs.Folding.{has, missing};
ghost use Rattle.zone_records.specs.Records.{record_cmp, is_soa};

use crate::Update;
use crate::changes::Changes;
use crate::record::ZoneRecord;
use dns_base::NoMemory;
use std::alloc::Global;

/// Adds a record unless it is an SOA, and tells whether it is none and was there.
#[tactic(auto, using(crate::proofs::Folds::not_added, crate::proofs::Folds::is_added))]
fn put(base: &[ZoneRecord], changes: &mut Changes, new: ZoneRecord) -> Result<bool, NoMemory>
    requires { IsStrictlySortedBy record_cmp base.now }
    ensures added { OnOk result (AddsPlain (present base.now changes.old) new (present base.now changes.new)) }
    ensures told { IfOk result (λ was_there. was_there ≡ (not (is_soa new) && present base.now changes.old new)) }
{
    if new.is_soa() {
        return Ok(false);
    }
    let was_there = changes.put(base, new)?;
    Ok(was_there)
}

/// Removes a record, and tells whether it is no SOA and wasn't there.
fn take(base: &[ZoneRecord], changes: &mut Changes, gone: ZoneRecord) -> Result<bool, NoMemory>
    requires { IsStrictlySortedBy record_cmp base.now }
    ensures removed { OnOk result (Removes (present base.now changes.old) gone (present base.now changes.new)) }
    ensures missed { IfOk result (λ missed. missed ≡ (not (is_soa gone) && not (present base.now changes.old gone))) }
{
    let is_soa = gone.is_soa();
    let was_there = changes.take(base, gone)?;
    Ok(!is_soa && !was_there)
}

/// What one update does. Tells whether a record was to be deleted that wasn't there, or added that was.
#[tactic(auto, using(crate::proofs::Folds::cleared, crate::proofs::Folds::removed, crate::proofs::Folds::added, crate::proofs::Folds::batch_begun, crate::proofs::Folds::batch_added, crate::proofs::Folds::finished))]
fn fold_one(base: &[ZoneRecord], changes: &mut Changes, update: Update) -> Result<bool, NoMemory>
    requires { IsStrictlySortedBy record_cmp base.now }
    ensures { IfOk result (FoldsOne (present base.now changes.old) update (present base.now changes.new)) }
{
    match update {
        Update::DeleteAllRecords => {
            changes.clear();
            Ok(false)
        }
        Update::DeleteRecord(gone) => {
            let is_missed = take(base, changes, gone)?;
            Ok(is_missed)
        }
        Update::AddRecord(new) => {
            let was_there = put(base, changes, new)?;
            Ok(was_there)
        }
        Update::BeginBatchDelete { .. } => Ok(false),
        Update::BeginBatchAdd { soa, .. } | Update::Finished { soa, .. } => {
            put(base, changes, soa)?;
            Ok(false)
        }
    }
}

/// What updates do, in order. Tells how many records were to be deleted that weren't there, or added that were.
fn fold(base: &[ZoneRecord], changes: &mut Changes, updates: Vec<Update>) -> Result<u64, NoMemory>
    requires { IsStrictlySortedBy record_cmp base.now }
    ensures { IfOk result (Folds (present base.now changes.old) updates.items (present base.now changes.new)) }
{
    let mut missing = 0;
    for update in updates {
        if fold_one(base, changes, update)? {
            missing += 1;
        }
    }
    Ok(missing)
}

/// Changes records in order by updates, and adds an SOA. Tells how many were to be deleted that weren't there, or added that were.
#[tactic(auto, using(crate::proofs::Changed::are_counted))]
pub(crate) fn change(
    alloc: Global,
    records: &mut Vec<ZoneRecord>,
    updates: Vec<Update>,
    soa: ZoneRecord,
) -> Result<u64, NoMemory>
    requires { IsStrictlySortedBy record_cmp records.old.items }
    ensures made { OnOk result (AreMade (has records.old.items) updates.items soa records.new.items) }
    ensures told { IfOk result (λ n. n ≡ missing updates.items (has records.old.items)) }
    ensures sorted { IsStrictlySortedBy record_cmp records.new.items }
    ensures kept { OnErr result (records.new.items ≡ records.old.items) }
{
    let mut changes = Changes::new(alloc);
    let missing = fold(records.as_slice(), &mut changes, updates)?;
    changes.put(records.as_slice(), soa)?;
    changes.make(alloc, records)?;
    Ok(missing)
}
