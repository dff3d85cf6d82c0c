//! The addresses of hosts, found by the host's name.

ghost use Rattle.std.specs.Prelude.{◌≡◌, ◌++◌, [], ◌∷◌, Ok, IfOk, OnOk};
ghost use Rattle.std.specs.List.{filter_map};
ghost use Rattle.dns_names.specs.Name.{IsLegal, Labels};
ghost use Rattle.resolv_lookup.specs.Services.{address_in};
ghost use Rattle.resolv_lookup.specs.HostTable.{addresses_at, addresses_in, address_if, key_of};

use crate::address_iter::either_address;
use dns_base::{Class, IpAddr, Name, NoMemory, ParsedName, Record, RecordSection, ToName};
use std::alloc::Global;
use std::collections::BTreeMap;
use std::sync::Arc;

/// The addresses of each host, under its name's octets in lower case. Servers of one host share them, so that an answer with
/// many of either takes no more memory than its size asks for.
pub(crate) type HostTable = BTreeMap<Vec<u8>, Arc<Vec<IpAddr>>>;

/// What a name is found by: its octets uncompressed, in lower case.
fn key_of(alloc: Global, name: &ParsedName<'_>) -> Result<Vec<u8>, NoMemory>
    ensures key { IfOk result (λ key. key.items ≡ key_of name.now) }
    ensures legal { OnOk result (IsLegal name.now) }
{
    let name = name.to_name(alloc)?;
    let mut key = Vec::new(alloc);
    for octet in name.as_octets() {
        key.push(octet.to_ascii_lowercase())?;
    }
    Ok(key)
}

/// The addresses that were taken out of a table, or none.
fn taken(alloc: Global, all: Option<Arc<Vec<IpAddr>>>) -> Result<Vec<IpAddr>, NoMemory>
    ensures { IfOk result (λ v. v.items ≡ addresses_in all) }
{
    match all {
        None => Ok(Vec::new(alloc)),
        // No one shares it yet.
        Some(all) => Arc::into_inner(all).ok_or(NoMemory),
    }
}

/// Adds an address to those of its owner.
fn add(
    alloc: Global,
    table: &mut HostTable,
    owner: &ParsedName<'_>,
    address: IpAddr,
) -> Result<(), NoMemory>
    ensures { OnOk result ((host : Labels) → IsLegal host → addresses_at (key_of host) table.new ≡ addresses_at (key_of host) table.old ++ address_if host owner.now address) }
{
    let key = key_of(alloc, owner)?;
    let mut all = taken(alloc, table.remove(&key))?;
    all.push(address)?;
    table.insert(key, Arc::new(alloc, all)?)?;
    Ok(())
}

/// Adds the address that a record of the class IN says, of either kind.
fn add_known(alloc: Global, table: &mut HostTable, known: &Record<'_>) -> Result<(), NoMemory>
    ensures { OnOk result ((host : Labels) → IsLegal host → addresses_at (key_of host) table.new ≡ addresses_at (key_of host) table.old ++ filter_map (address_in host) (Ok known.now ∷ [])) }
{
    if known.class() != Class::IN {
        return Ok(());
    }
    match either_address(known) {
        Some(address) => add(alloc, table, &known.owner(), address),
        None => Ok(()),
    }
}

/// The addresses in a section, by host.
pub(crate) fn host_table(alloc: Global, section: RecordSection<'_>) -> Result<HostTable, NoMemory>
    ensures { IfOk result (λ table. (host : Labels) → IsLegal host → addresses_at (key_of host) table ≡ filter_map (address_in host) section.entry) }
{
    let mut table = BTreeMap::new(alloc);
    for entry in section {
        if let Ok(known) = entry {
            add_known(alloc, &mut table, &known)?;
        }
    }
    Ok(table)
}

/// The addresses of a host.
pub(crate) fn addresses_of(
    alloc: Global,
    table: &HostTable,
    host: &Name,
) -> Result<Arc<Vec<IpAddr>>, NoMemory>
    ensures at { IfOk result (λ all. all.value.items ≡ addresses_at (key_of host.now) table.now) }
    ensures legal { OnOk result (IsLegal host.now) }
{
    let key = key_of(alloc, &host.parsed())?;
    match table.get(&key) {
        Some(all) => Ok(Arc::try_clone(all)?),
        None => Ok(Arc::new(alloc, Vec::new(alloc))?),
    }
}
