//! The servers that a referral names.

ghost use Rattle.std.specs.Prelude.{◌≡◌, ◌++◌, filter, flat_map, map, not, is_some, IfOk, OnOk};
ghost use Rattle.std.specs.List.{filter_map, list_any};
ghost use Rattle.dns_base.specs.Message.{additional_items, answer_items, authority_items};
ghost use Rattle.dns_lookup_walk.specs.Records.{address_in, found_in};
ghost use Rattle.dns_lookup_walk.specs.Targets.{glue_of, has_glue, names_in, server_at, targets_by, targets_of};

use crate::names::is_within;
use crate::records::{address_in, target_in};
use crate::server::NameServer;
use crate::station::Station;
use crate::targets::Targets;
use dns_base::{IpAddr, Message, Name, NoMemory, RecordSection, Seq, ToName};
use std::alloc::Global;

/// The server of a name at an address.
pub(crate) fn server_at(alloc: Global, name: &Name, ip: IpAddr) -> Result<NameServer, NoMemory>
    ensures { IfOk result (λ server. server ≡ server_at name.now ip) }
{
    let name = name.try_clone(alloc)?;
    Ok(NameServer {
        name: Some(name),
        ip,
    })
}

/// The names of a zone's servers, in order.
fn names_in(alloc: Global, owner: &Name, records: RecordSection<'_>) -> Result<Seq<Name>, NoMemory>
    ensures { IfOk result (λ names. names ≡ names_in owner.now records.entry) }
{
    let mut names = Seq::new(alloc);
    for item in records {
        if let Some(name) = target_in(&owner.parsed(), &item) {
            let name = name.to_name(alloc)?;
            names.push(name)?;
        }
    }
    Ok(names)
}

/// Adds the servers of a name at the addresses that records have.
fn push_addresses(
    alloc: Global,
    name: &Name,
    records: RecordSection<'_>,
    servers: &mut Seq<NameServer>,
) -> Result<(), NoMemory>
    ensures { OnOk result (servers.new ≡ servers.old ++ map (server_at name.now) (filter_map (address_in name.now) records.entry)) }
{
    for item in records {
        if let Some(ip) = address_in(&name.parsed(), &item) {
            let server = server_at(alloc, name, ip)?;
            servers.push(server)?;
        }
    }
    Ok(())
}

/// Whether records have an address of a name.
fn has_address(name: &Name, records: RecordSection<'_>) -> bool
    ensures { result ≡ list_any (λ item. is_some (address_in name.now item)) records.entry }
{
    for item in records {
        if address_in(&name.parsed(), &item).is_some() {
            return true;
        }
    }
    false
}

/// Adds the servers of a name at the addresses that a message has beside a referral, where the name is in the bailiwick of a zone.
fn push_glue(
    alloc: Global,
    zone: &Name,
    message: &Message,
    name: &Name,
    servers: &mut Seq<NameServer>,
) -> Result<(), NoMemory>
    ensures { OnOk result (servers.new ≡ servers.old ++ glue_of zone.now (found_in (additional_items message.now)) name.now) }
{
    let in_bailiwick = is_within(&zone.parsed(), &name.parsed());
    if !in_bailiwick {
        return Ok(());
    }
    match message.additional() {
        Ok(records) => push_addresses(alloc, name, records, servers),
        Err(_) => Ok(()),
    }
}

/// Whether a message has such addresses.
fn has_glue(zone: &Name, message: &Message, name: &Name) -> bool
    ensures { result ≡ has_glue zone.now (found_in (additional_items message.now)) name.now }
{
    if !is_within(&zone.parsed(), &name.parsed()) {
        return false;
    }
    match message.additional() {
        Ok(records) => has_address(name, records),
        Err(_) => false,
    }
}

/// The servers of names at the addresses that stand beside a referral.
fn glue(
    alloc: Global,
    zone: &Name,
    message: &Message,
    names: &[Name],
) -> Result<Seq<NameServer>, NoMemory>
    ensures { IfOk result (λ servers. servers ≡ flat_map (glue_of zone.now (found_in (additional_items message.now))) names.now) }
{
    let mut servers = Seq::new(alloc);
    for name in names {
        push_glue(alloc, zone, message, name, &mut servers)?;
    }
    Ok(servers)
}

/// The names that have no address there.
fn without_glue(
    alloc: Global,
    zone: &Name,
    message: &Message,
    names: &[Name],
) -> Result<Seq<Name>, NoMemory>
    ensures { IfOk result (λ bare. bare ≡ filter (λ name. not (has_glue zone.now (found_in (additional_items message.now)) name)) names.now) }
{
    let mut bare = Seq::new(alloc);
    for name in names {
        if !has_glue(zone, message, name) {
            let name = name.try_clone(alloc)?;
            bare.push(name)?;
        }
    }
    Ok(bare)
}

/// The servers of these names: by their addresses, or else by name.
fn targets_by(
    alloc: Global,
    zone: &Name,
    message: &Message,
    names: &[Name],
) -> Result<Targets, NoMemory>
    ensures { IfOk result (λ targets. targets ≡ targets_by zone.now (found_in (additional_items message.now)) names.now) }
{
    let glue = glue(alloc, zone, message, names)?;
    let names = without_glue(alloc, zone, message, names)?;
    Ok(Targets { glue, names })
}

/// The names of the root's servers in an answer.
fn names_of_answer(alloc: Global, owner: &Name, message: &Message) -> Result<Seq<Name>, NoMemory>
    ensures { IfOk result (λ names. names ≡ names_in owner.now (found_in (answer_items message.now))) }
{
    match message.answer() {
        Ok(records) => names_in(alloc, owner, records),
        Err(_) => Ok(Seq::new(alloc)),
    }
}

/// The names of a zone's servers in an authority section.
fn names_of_authority(alloc: Global, owner: &Name, message: &Message) -> Result<Seq<Name>, NoMemory>
    ensures { IfOk result (λ names. names ≡ names_in owner.now (found_in (authority_items message.now))) }
{
    match message.authority() {
        Ok(records) => names_in(alloc, owner, records),
        Err(_) => Ok(Seq::new(alloc)),
    }
}

/// The servers of a zone that a message of a server at a station names.
pub(crate) fn targets_of(
    alloc: Global,
    station: &Station,
    owner: &Name,
    message: &Message,
) -> Result<Targets, NoMemory>
    ensures { IfOk result (λ targets. targets ≡ targets_of station.now owner.now message.now) }
{
    match station {
        Station::Given => {
            let names = names_of_answer(alloc, owner, message)?;
            targets_by(alloc, &Name::root(alloc), message, names.as_slice())
        }
        Station::Zone(zone) => {
            let names = names_of_authority(alloc, owner, message)?;
            targets_by(alloc, zone, message, names.as_slice())
        }
    }
}
