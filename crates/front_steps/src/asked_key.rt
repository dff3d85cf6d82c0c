//! What a query asks, as a key of a table.

ghost use Rattle.std.specs.Prelude.{◌≡◌, ℕ, List, IfOk};
ghost use Rattle.std.proofs.Common.{refl};
ghost use Rattle.std.specs.Cmp.{eq_by_cmp_equiv, partial_equiv_from_equiv, partial_order_from_total};
ghost use Rattle.std.specs.Cmp.Lexicographic.{slice_cmp, nat_list_cmp_total};
ghost use Rattle.std.specs.Ordering.{as_partial_cmp, eq_by_cmp, nat_cmp};

use dns_base::NoMemory;
use std::alloc::Global;
use std::cmp::Ordering;
use std::marker::Model;

/// The octets that are the same of queries which one result serves.
#[derive(Drop)]
pub struct AskedKey {
    octets: Vec<u8>,
}

impl Model for AskedKey {
    ghost Value = { List ℕ };

    ghost view = { λ k. k.octets.items };
}

impl AskedKey {
    /// The key of these octets.
    pub(crate) fn new(octets: Vec<u8>) -> AskedKey
        ensures { result ≡ octets.items }
    {
        AskedKey { octets }
    }

    /// The same key.
    pub(crate) fn try_clone(&self, alloc: Global) -> Result<AskedKey, NoMemory>
        ensures { IfOk result (λ k. k ≡ self.now) }
    {
        let octets = Vec::from_slice(alloc, self.octets.as_slice())?;
        Ok(AskedKey { octets })
    }
}

impl PartialEq for AskedKey {
    ghost eq = { eq_by_cmp (slice_cmp nat_cmp) };

    ghost laws = { partial_equiv_from_equiv (eq_by_cmp_equiv nat_list_cmp_total) };

    fn eq(&self, other: &AskedKey) -> bool {
        self.cmp(other) == Ordering::Equal
    }
}

impl Eq for AskedKey {
    ghost laws = { eq_by_cmp_equiv nat_list_cmp_total };
}

impl PartialOrd for AskedKey {
    ghost partial_cmp = { as_partial_cmp (slice_cmp nat_cmp) };

    ghost laws = { partial_order_from_total nat_list_cmp_total };

    fn partial_cmp(&self, other: &AskedKey) -> Option<Ordering> {
        Some(self.cmp(other))
    }
}

impl Ord for AskedKey {
    ghost cmp = { slice_cmp nat_cmp };

    ghost total = { nat_list_cmp_total };

    ghost matches_partial_cmp = { λ a b. refl };

    ghost matches_eq = { λ a b. refl };

    fn cmp(&self, other: &AskedKey) -> Ordering {
        self.octets.as_slice().cmp(&other.octets.as_slice())
    }
}
