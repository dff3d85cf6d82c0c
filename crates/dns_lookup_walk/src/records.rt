//! What the records of a section say of a zone's servers.

ghost use Rattle.std.specs.Prelude.{◌≡◌};
ghost use Rattle.std.specs.List.{list_any};
ghost use Rattle.dns_lookup_walk.specs.Records.{address_in, address_said, is_of, is_server, is_server_of, is_start, lead_in, lead_of, target_in, target_said};

use crate::names::leads_on;
use dns_base::{
    Class, IpAddr, ParseError, ParsedName, Record, RecordData, RecordSection, Rtype, is_same_name,
};
use std::net::Ipv6Addr;

/// A record as it is read, or that one can't be read.
pub(crate) type ReadRecord<'a> = Result<Record<'a>, ParseError>;

/// Whether a record is of a type and of the class IN.
fn is_of(rtype: Rtype, known: &Record<'_>) -> bool
    ensures { result ≡ is_of rtype.0 known.now }
{
    known.rtype() == rtype && known.class() == Class::IN
}

/// Whether it is the start of a zone.
fn is_start(item: &ReadRecord<'_>) -> bool
    ensures { result ≡ is_start item.now }
{
    match item {
        Ok(known) => is_of(Rtype::SOA, known),
        Err(_) => false,
    }
}

/// Whether it names a server of any zone.
fn is_server(item: &ReadRecord<'_>) -> bool
    ensures { result ≡ is_server item.now }
{
    match item {
        Ok(known) => is_of(Rtype::NS, known),
        Err(_) => false,
    }
}

/// Whether it names a server of this zone.
fn is_server_of(owner: &ParsedName<'_>, item: &ReadRecord<'_>) -> bool
    ensures { result ≡ is_server_of owner.now item.now }
{
    match item {
        Ok(known) => is_of(Rtype::NS, known) && is_same_name(&known.owner(), owner),
        Err(_) => false,
    }
}

/// The zone below whose server it names, if a walk may go there.
fn lead_in<'a>(
    zone: &ParsedName<'_>,
    name: &ParsedName<'_>,
    item: &ReadRecord<'a>,
) -> Option<ParsedName<'a>>
    ensures { result ≡ lead_in zone.now name.now item.now }
{
    match item {
        Ok(known) => {
            let owner = known.owner();
            if is_of(Rtype::NS, known) && leads_on(zone, name, &owner) {
                Some(owner)
            } else {
                None
            }
        }
        Err(_) => None,
    }
}

/// Whether records hold the start of a zone.
pub(crate) fn has_start(records: RecordSection<'_>) -> bool
    ensures { result ≡ list_any is_start records.entry }
{
    for item in records {
        if is_start(&item) {
            return true;
        }
    }
    false
}

/// Whether records name a server of any zone.
pub(crate) fn has_server(records: RecordSection<'_>) -> bool
    ensures { result ≡ list_any is_server records.entry }
{
    for item in records {
        if is_server(&item) {
            return true;
        }
    }
    false
}

/// Whether records name a server of this zone.
pub(crate) fn has_server_of(owner: &ParsedName<'_>, records: RecordSection<'_>) -> bool
    ensures { result ≡ list_any (is_server_of owner.now) records.entry }
{
    for item in records {
        if is_server_of(owner, &item) {
            return true;
        }
    }
    false
}

/// The first zone below to which a walk may go.
pub(crate) fn lead_of<'a>(
    zone: &ParsedName<'_>,
    name: &ParsedName<'_>,
    records: RecordSection<'a>,
) -> Option<ParsedName<'a>>
    ensures { result ≡ lead_of zone.now name.now records.entry }
{
    for item in records {
        if let Some(owner) = lead_in(zone, name, &item) {
            return Some(owner);
        }
    }
    None
}

/// The name of a server that data says, if it is read.
fn target_said<'a>(known: &Record<'a>) -> Option<ParsedName<'a>>
    ensures { result ≡ target_said known.now.says }
{
    match known.data() {
        Ok(RecordData::Ns(name)) => Some(name),
        _ => None,
    }
}

/// The name of a server of a zone.
pub(crate) fn target_in<'a>(owner: &ParsedName<'_>, item: &ReadRecord<'a>) -> Option<ParsedName<'a>>
    ensures { result ≡ target_in owner.now item.now }
{
    match item {
        Ok(known) => {
            if is_of(Rtype::NS, known) && is_same_name(&known.owner(), owner) {
                target_said(known)
            } else {
                None
            }
        }
        Err(_) => None,
    }
}

/// The address that data says, if it is read.
fn address_said(known: &Record<'_>) -> Option<IpAddr>
    ensures { result ≡ address_said known.now.says }
{
    match known.data() {
        Ok(RecordData::A(octets)) => Some(IpAddr::V4(octets)),
        Ok(RecordData::Aaaa(octets)) => {
            Some(IpAddr::V6(Ipv6Addr::from_octets(octets).segments()))
        }
        _ => None,
    }
}

/// The address of a host.
pub(crate) fn address_in(host: &ParsedName<'_>, item: &ReadRecord<'_>) -> Option<IpAddr>
    ensures { result ≡ address_in host.now item.now }
{
    match item {
        Ok(known) => {
            if known.class() == Class::IN && is_same_name(&known.owner(), host) {
                address_said(known)
            } else {
                None
            }
        }
        Err(_) => None,
    }
}
