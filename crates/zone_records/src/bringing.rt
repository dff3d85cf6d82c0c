//! What updates make of the records of a zone: those of a whole zone that comes, or those before, changed.

ghost use Rattle.std.specs.Prelude.{◌≡◌, if◌then◌else◌, IfOk, OnOk, OnErr};
ghost use Rattle.std.specs.List.Sorted.{IsStrictlySortedBy};
ghost use Rattle.zone_records.specs.Changing.{AreMade};
ghost use Rattle.zone_records.specs.Folding.{has, is_whole, misfits};
ghost use Rattle.zone_records.specs.Records.{record_cmp};

use crate::Update;
use crate::folding::change;
use crate::record::ZoneRecord;
use crate::whole::{is_plain, whole};
use dns_base::NoMemory;
use std::alloc::Global;

/// Whether the whole zone comes.
fn is_whole(updates: &[Update]) -> bool
    ensures { result ≡ is_whole updates.now }
{
    matches!(updates.first(), Some(Update::DeleteAllRecords))
}

/// How many changes did not fit, where so many did not fit if they were changes: a whole zone has none.
fn misfits_of(whole: bool, missing: u64) -> u64
    ensures { result ≡ (if whole then 0 else missing) }
{
    if whole { 0 } else { missing }
}

/// Makes updates of records in order, and adds an SOA. Tells how many changes did not fit; a whole zone has none.
#[tactic(auto, using(crate::proofs::Wholes::none_misfits))]
pub(crate) fn bring(
    alloc: Global,
    records: &mut Vec<ZoneRecord>,
    updates: Vec<Update>,
    soa: ZoneRecord,
) -> Result<u64, NoMemory>
    requires { IsStrictlySortedBy record_cmp records.old.items }
    ensures made { OnOk result (AreMade (has records.old.items) updates.items soa records.new.items) }
    ensures told { IfOk result (λ n. n ≡ misfits updates.items (has records.old.items)) }
    ensures sorted { IsStrictlySortedBy record_cmp records.new.items }
    ensures kept { OnErr result (records.new.items ≡ records.old.items) }
{
    if is_plain(updates.as_slice()) {
        *records = whole(alloc, updates, soa)?;
        return Ok(0);
    }
    let is_whole = is_whole(updates.as_slice());
    let missing = change(alloc, records, updates, soa)?;
    Ok(misfits_of(is_whole, missing))
}
