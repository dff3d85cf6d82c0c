//! A whole zone that comes.

ghost use Rattle.std.specs.Prelude.{◌≡◌, ◌++◌, true, IfOk, OnOk};
ghost use Rattle.std.specs.List.Sorted.{IsStrictlySortedBy};
ghost use Rattle.zone_records.specs.Changing.{AreMade, added_by, all_added, are_additions, is_plain};
ghost use Rattle.zone_records.specs.Folding.{Records, has};
ghost use Rattle.zone_records.specs.Records.{record_cmp};

use crate::Update;
use crate::keyed::Keyed;
use crate::record::ZoneRecord;
use dns_base::NoMemory;
use std::alloc::Global;

/// Whether all updates are additions.
fn are_additions(updates: &[Update]) -> bool
    ensures { result ≡ are_additions updates.now }
{
    let mut rest = updates;
    while let [Update::AddRecord(_), behind @ ..] = rest {
        rest = behind;
    }
    rest.is_empty()
}

/// Whether the whole zone comes, and nothing but its records.
pub(crate) fn is_plain(updates: &[Update]) -> bool
    ensures { result ≡ is_plain updates.now }
{
    match updates {
        [Update::DeleteAllRecords, behind @ ..] => are_additions(behind),
        _ => false,
    }
}

/// Appends the record that an update adds, if it is no SOA.
fn push_added(records: &mut Vec<Keyed>, update: Update) -> Result<(), NoMemory>
    ensures { OnOk result (records.new.items ≡ records.old.items ++ added_by update) }
{
    if let Update::AddRecord(new) = update {
        if !new.is_soa() {
            records.push(Keyed::new(new))?;
        }
    }
    Ok(())
}

/// The records that updates add, but for SOAs, as they come.
fn added(alloc: Global, updates: Vec<Update>) -> Result<Vec<Keyed>, NoMemory>
    ensures { IfOk result (λ v. v.items ≡ all_added updates.items) }
{
    let mut records = Vec::with_capacity(alloc, updates.len())?;
    for update in updates {
        push_added(&mut records, update)?;
    }
    Ok(records)
}

/// Puts records in order, each once. It takes no memory.
fn order(records: &mut Vec<Keyed>)
    ensures same { (r : ZoneRecord) → has records.new.items r ≡ has records.old.items r }
    ensures sorted { IsStrictlySortedBy record_cmp records.new.items }
{
    records.sort_unstable();
    records.dedup();
}

/// The records alone.
fn unkeyed(alloc: Global, keyed: Vec<Keyed>) -> Result<Vec<ZoneRecord>, NoMemory>
    ensures { IfOk result (λ v. v.items ≡ keyed.items) }
{
    let mut records = Vec::with_capacity(alloc, keyed.len())?;
    for item in keyed {
        records.push(item.into_record())?;
    }
    Ok(records)
}

/// The records of a whole zone and its SOA, in order.
pub(crate) fn whole(
    alloc: Global,
    updates: Vec<Update>,
    soa: ZoneRecord,
) -> Result<Vec<ZoneRecord>, NoMemory>
    requires { is_plain updates.items ≡ true }
    ensures made { IfOk result (λ v. (old : Records) → AreMade old updates.items soa v.items) }
    ensures sorted { IfOk result (λ v. IsStrictlySortedBy record_cmp v.items) }
{
    let mut records = added(alloc, updates)?;
    records.push(Keyed::new(soa))?;
    order(&mut records);
    unkeyed(alloc, records)
}
