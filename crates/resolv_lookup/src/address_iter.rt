//! The addresses that an answer gives.

ghost use Rattle.std.specs.Prelude.{◌≡◌, [], ◌∷◌, unwrap_or, MatchOption};
ghost use Rattle.std.specs.Iterator.{YieldsFirst, item_count};
ghost use Rattle.resolv_lookup.specs.Asked.{octets_in};
ghost use Rattle.resolv_lookup.specs.Addresses.{address_said, addresses_said};
ghost use Rattle.resolv_lookup.specs.Hosts.{addresses_got};
ghost use Rattle.resolv_lookup.specs.Services.{either_address};

use crate::fault::QueryFault;
use crate::owned::OwnedRecords;
use crate::resolver::AsMessage;
use dns_base::{IpAddr, Record, RecordData};
use std::marker::Model;
use std::net::Ipv6Addr;

/// Which addresses are looked for.
#[derive(Clone, Copy)]
pub enum Kind {
    /// Those of A records.
    Ipv4,
    /// Those of AAAA records.
    Ipv6,
}

/// The address of a kind that a record says, if its data is read.
pub(crate) fn address_of(kind: Kind, known: &Record<'_>) -> Option<IpAddr>
    ensures { result ≡ address_said kind known.now.says }
{
    match (kind, known.data().ok()?) {
        (Kind::Ipv4, RecordData::A(octets)) => Some(IpAddr::V4(octets)),
        (Kind::Ipv6, RecordData::Aaaa(octets)) => {
            Some(IpAddr::V6(Ipv6Addr::from_octets(octets).segments()))
        }
        _ => None,
    }
}

/// The address that a record says, of either kind.
pub(crate) fn either_address(known: &Record<'_>) -> Option<IpAddr>
    ensures { result ≡ either_address known.now.says }
{
    match address_of(Kind::Ipv4, known) {
        Some(address) => Some(address),
        None => address_of(Kind::Ipv6, known),
    }
}

/// The addresses of a kind that are left to give, of the records that an answer's canonical name owns.
#[derive(Drop)]
pub(crate) struct AddressIter<'a> {
    kind: Kind,
    records: Option<OwnedRecords<'a>>,
}

impl<'a> Model for AddressIter<'a> {
    ghost use Rattle.std.specs.Prelude.{List, [], unwrap_or};
    ghost use Rattle.dns_values.specs.declared.address.IpAddr.{IpAddr};
    ghost use Rattle.resolv_lookup.specs.Addresses.{addresses_said};

    ghost Value = { List IpAddr };

    ghost view = { λ a. addresses_said a.kind (unwrap_or a.records []) };
}

impl<'a> AddressIter<'a> {
    /// The addresses in what a question got.
    pub(crate) fn of<A: AsMessage>(kind: Kind, got: &'a Result<A, QueryFault>) -> AddressIter<'a>
        ensures { result ≡ addresses_got kind (octets_in A.octets_of got.now) }
    {
        let records = match got {
            Ok(answer) => OwnedRecords::of(answer.as_message()),
            Err(_) => None,
        };
        AddressIter { kind, records }
    }
}

impl<'a> AddressIter<'a> {
    /// What is left to give, again.
    pub(crate) fn again(&self) -> AddressIter<'a>
        ensures { result ≡ self.now }
    {
        let records = match &self.records {
            Some(records) => Some(records.again()),
            None => None,
        };
        AddressIter {
            kind: self.kind,
            records,
        }
    }
}

/// The next address of a kind that records say.
fn next_address(kind: Kind, records: &mut OwnedRecords<'_>) -> Option<IpAddr>
    ensures { MatchOption result ((addresses_said kind records.old ≡ []) × (addresses_said kind records.new ≡ []))
        (λ ip. addresses_said kind records.old ≡ ip ∷ addresses_said kind records.new) }
{
    'records: while let Some(record) = records.next() {
        if let Some(address) = address_of(kind, &record) {
            return Some(address);
        }
    }
    None
}

impl<'a> Iterator for AddressIter<'a> {
    type Item = IpAddr;

    ghost next_gives = { YieldsFirst (λ s. s) };

    ghost remaining = { item_count (λ s. s) };

    fn next(&mut self) -> Option<IpAddr> {
        match &mut self.records {
            None => None,
            Some(records) => next_address(self.kind, records),
        }
    }
}
