//! Records in order, each once.

ghost use Rattle.std.specs.Prelude.{◌≡◌};
ghost use Rattle.std.specs.List.Sorted.{IsPermutation, IsSorted, IsStrictlySortedBy};
ghost use Rattle.zone_records.specs.Folding.{has};
ghost use Rattle.zone_records.specs.Records.{record_cmp};

use crate::record::ZoneRecord;

/// Sorts records: in one walk where they come in few runs, and without memory where there is none.
fn sort(records: &mut Vec<ZoneRecord>)
    ensures permutation { IsPermutation records.old.items records.new.items }
    ensures sorted { IsSorted record_cmp records.new.items }
{
    if records.sort().is_err() {
        records.sort_unstable();
    }
}

/// Puts records in order, each once. It takes no memory that it needs.
pub(crate) fn order(records: &mut Vec<ZoneRecord>)
    ensures same { (r : ZoneRecord) → has records.new.items r ≡ has records.old.items r }
    ensures sorted { IsStrictlySortedBy record_cmp records.new.items }
{
    sort(records);
    records.dedup();
}
