//! A record of a zone.

ghost use Rattle.std.specs.Prelude.{◌≡◌, IfOk};
ghost use Rattle.std.proofs.Common.{refl};
ghost use Rattle.std.specs.Cmp.{eq_by_cmp_equiv, partial_equiv_from_equiv, partial_order_from_total};
ghost use Rattle.std.specs.Ordering.{as_partial_cmp, eq_by_cmp};
ghost use Rattle.zone_records.specs.Records.{record_cmp, record_total, data_cmp, type_cmp, is_soa};

use crate::octets::OctetList;
use dns_base::{Class, NoMemory, Rtype, Ttl};
use std::alloc::Global;
use std::cmp::Ordering;

/// A record as a zone keeps it. Records are ordered by the owner's octets, the type, the class, the data and the TTL, and equal
/// only where all five are.
#[derive(Debug, Drop)]
pub struct ZoneRecord {
    /// The owner without compression, in lower case (RFC 4034 6.2).
    pub owner: OctetList,
    pub rtype: Rtype,
    pub class: Class,
    /// In seconds.
    pub ttl: Ttl,
    /// The data. Names in it have no compression and are in lower case, where the type is one whose data is read.
    pub rdata: OctetList,
}

impl ZoneRecord {
    /// Whether it is an SOA.
    pub fn is_soa(&self) -> bool
        ensures { result ≡ is_soa self.now }
    {
        self.rtype == Rtype::SOA
    }

    /// The same record.
    pub fn try_clone(&self, alloc: Global) -> Result<ZoneRecord, NoMemory>
        ensures { IfOk result (λ r. r ≡ self.now) }
    {
        let owner = self.owner.try_clone(alloc)?;
        let rdata = self.rdata.try_clone(alloc)?;
        Ok(ZoneRecord {
            owner,
            rtype: self.rtype,
            class: self.class,
            ttl: self.ttl,
            rdata,
        })
    }

    fn data_order(&self, other: &ZoneRecord) -> Ordering
        ensures { result ≡ data_cmp self.now other.now }
    {
        match self.rdata.as_slice().cmp(&other.rdata.as_slice()) {
            Ordering::Equal => self.ttl.0.cmp(&other.ttl.0),
            differ => differ,
        }
    }

    fn type_order(&self, other: &ZoneRecord) -> Ordering
        ensures { result ≡ type_cmp self.now other.now }
    {
        match self.rtype.0.cmp(&other.rtype.0) {
            Ordering::Equal => match self.class.0.cmp(&other.class.0) {
                Ordering::Equal => self.data_order(other),
                differ => differ,
            },
            differ => differ,
        }
    }
}

impl PartialEq for ZoneRecord {
    ghost eq = { eq_by_cmp record_cmp };

    ghost laws = { partial_equiv_from_equiv (eq_by_cmp_equiv record_total) };

    fn eq(&self, other: &ZoneRecord) -> bool {
        self.cmp(other) == Ordering::Equal
    }
}

impl Eq for ZoneRecord {
    ghost laws = { eq_by_cmp_equiv record_total };
}

impl PartialOrd for ZoneRecord {
    ghost partial_cmp = { as_partial_cmp record_cmp };

    ghost laws = { partial_order_from_total record_total };

    fn partial_cmp(&self, other: &ZoneRecord) -> Option<Ordering> {
        Some(self.cmp(other))
    }
}

impl Ord for ZoneRecord {
    ghost cmp = { record_cmp };

    ghost total = { record_total };

    ghost matches_partial_cmp = { λ a b. refl };

    ghost matches_eq = { λ a b. refl };

    fn cmp(&self, other: &ZoneRecord) -> Ordering {
        match self.owner.as_slice().cmp(&other.owner.as_slice()) {
            Ordering::Equal => self.type_order(other),
            differ => differ,
        }
    }
}
