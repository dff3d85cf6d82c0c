//! The search of a host by the suffixes that a resolver knows.

ghost use Rattle.std.specs.Prelude.{◌≡◌, ◌≤◌, IfOk, IfErr};
ghost use Rattle.resolv_lookup.specs.Asked.{AsksBoth};
ghost use Rattle.resolv_lookup.specs.Hosts.{HostIsCounted};
ghost use Rattle.resolv_lookup.specs.Search.{chained, is_of_use, Searches, SearchesHost};

use crate::fault::HostFault;
use crate::host::{FoundHosts, lookup_host};
use crate::resolver::{Resolver, SearchNames};
use crate::search_iter::SearchIter;
use dns_base::{ChainFault, Name, NoMemory, RelativeName};
use std::alloc::Global;

/// Looks a host up behind each suffix of the resolver in order, and else by its name alone. The first
/// answer that is found and not empty is taken; a suffix with which the name passes 255 octets is
/// passed over. After `NoMemory` nothing was asked.
pub fn search_host<R: Resolver + SearchNames>(
    alloc: Global,
    resolver: &mut R,
    name: &RelativeName,
) -> Result<FoundHosts<R>, HostFault>
    ensures asked { SearchesHost (AsksBoth R.says R.together R.asked) (R.suffixes resolver.old) name.now resolver.old resolver.new result }
    ensures count { R.faults resolver.old ≤ R.faults resolver.new }
    ensures failed { IfErr result (HostIsCounted (R.faults resolver.old) (R.faults resolver.new)) }
{
    let last = name.chain_root(alloc)?;
    let names = chained_names(alloc, name, resolver.search_iter())?;
    first_of_use(alloc, resolver, &names, &last)
}

/// Looks names up in order, up to the first that is found and not empty, and else the last one.
fn first_of_use<R: Resolver>(
    alloc: Global,
    resolver: &mut R,
    names: &[Name],
    last: &Name,
) -> Result<FoundHosts<R>, HostFault>
    ensures asked { Searches (AsksBoth R.says R.together R.asked) last.now names.now resolver.old resolver.new result }
    ensures count { R.faults resolver.old ≤ R.faults resolver.new }
    ensures failed { IfErr result (HostIsCounted (R.faults resolver.old) (R.faults resolver.new)) }
{
    for name in names {
        let found = lookup_host(alloc, resolver, name);
        if is_of_use(&found) {
            return found;
        }
    }
    lookup_host(alloc, resolver, last)
}

/// Whether a host was found whose answers are not empty.
fn is_of_use<R: Resolver>(found: &Result<FoundHosts<R>, HostFault>) -> bool
    ensures { result ≡ is_of_use found.now }
{
    match found {
        Ok(hosts) => !hosts.is_empty(),
        Err(_) => false,
    }
}

/// The name before each suffix, where it keeps within 255 octets.
fn chained_names(
    alloc: Global,
    name: &RelativeName,
    suffixes: SearchIter<'_>,
) -> Result<Vec<Name>, NoMemory>
    ensures { IfOk result (λ names. names.items ≡ chained name.now suffixes.entry) }
{
    let mut names = Vec::new(alloc);
    for suffix in suffixes {
        match name.chain(alloc, suffix) {
            Ok(whole) => names.push(whole)?,
            Err(ChainFault::Long) => {}
            Err(ChainFault::NoMemory) => return Err(NoMemory),
        }
    }
    Ok(names)
}
