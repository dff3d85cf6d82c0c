//! A record beside the first octets of its owner, by which most records are told apart.

ghost use Rattle.std.specs.Prelude.{◌≡◌, ℕ, ◌<◌, slice_index};
ghost use Rattle.std.proofs.Common.{refl};
ghost use Rattle.std.specs.Cmp.{eq_by_cmp_equiv, partial_equiv_from_equiv, partial_order_from_total};
ghost use Rattle.std.specs.Ordering.{as_partial_cmp, eq_by_cmp};
ghost use Rattle.zone_records.specs.Heads.{octets_from};
ghost use Rattle.zone_records.specs.Records.{record_cmp, record_total};

use crate::record::ZoneRecord;
use std::cmp::Ordering;
use std::marker::Model;

/// How many octets of the owner stand beside the record.
const HEAD: usize = 8;

/// A record beside the first octets of its owner as one number, the highest first and 0 past the end. Where two numbers differ,
/// they are ordered as the records are. A contract sees the record.
#[derive(Drop)]
pub(crate) struct Keyed {
    head: u64,
    item: ZoneRecord,
}

impl Model for Keyed {
    ghost use Rattle.std.specs.Prelude.{◌≡◌};
    ghost use Rattle.zone_records.specs.Heads.{octets_from};
    ghost use Rattle.zone_records.specs.declared.record.ZoneRecord.{ZoneRecord};

    ghost Value = { ZoneRecord };

    ghost view = { λ k. k.item };

    ghost invariant = { λ k. k.head ≡ octets_from 8 k.item.owner };
}

/// The octet at an index, and 0 past the end.
fn octet_at(octets: &[u8], at: usize) -> u64
    ensures value { result ≡ slice_index octets.now at }
    ensures range { result < 256 }
{
    match octets.get(at) {
        Some(octet) => u64::from(*octet),
        None => 0,
    }
}

/// Each octet is one.
fn are_octets(octets: &[u8])
    ensures { (i : ℕ) → slice_index octets.now i < 256 }
{
    let _octets = octets;
}

/// The first octets as one number.
fn head_of(octets: &[u8]) -> u64
    ensures { result ≡ octets_from 8 octets.now }
{
    are_octets(octets);
    let mut head = 0;
    for at in 0..HEAD {
        head = head * 256 + octet_at(octets, at);
    }
    head
}

impl Keyed {
    pub(crate) fn new(item: ZoneRecord) -> Keyed
        ensures { result ≡ item }
    {
        Keyed {
            head: head_of(item.owner.as_slice()),
            item,
        }
    }

    pub(crate) fn into_record(self) -> ZoneRecord
        ensures { result ≡ self }
    {
        self.item
    }
}

impl PartialEq for Keyed {
    ghost eq = { eq_by_cmp record_cmp };

    ghost laws = { partial_equiv_from_equiv (eq_by_cmp_equiv record_total) };

    fn eq(&self, other: &Keyed) -> bool {
        self.item == other.item
    }
}

impl Eq for Keyed {
    ghost laws = { eq_by_cmp_equiv record_total };
}

impl PartialOrd for Keyed {
    ghost partial_cmp = { as_partial_cmp record_cmp };

    ghost laws = { partial_order_from_total record_total };

    fn partial_cmp(&self, other: &Keyed) -> Option<Ordering> {
        Some(self.cmp(other))
    }
}

impl Ord for Keyed {
    ghost cmp = { record_cmp };

    ghost total = { record_total };

    ghost matches_partial_cmp = { λ a b. refl };

    ghost matches_eq = { λ a b. refl };

    #[tactic(auto, using(crate::proofs::Heads::decided_less, crate::proofs::Heads::decided_greater))]
    fn cmp(&self, other: &Keyed) -> Ordering {
        are_octets(self.item.owner.as_slice());
        are_octets(other.item.owner.as_slice());
        match self.head.cmp(&other.head) {
            Ordering::Equal => self.item.cmp(&other.item),
            Ordering::Less => Ordering::Less,
            Ordering::Greater => Ordering::Greater,
        }
    }
}
