//! A step of a walk.

ghost use Rattle.std.specs.Prelude.{◌≡◌, ◌++◌, map, take, IfOk, OnOk};
ghost use Rattle.dns_lookup_walk.specs.Targets.{server_at};
ghost use Rattle.dns_lookup_walk.specs.Trying.{DidLookUp, DidStep};

use crate::server::NameServer;
use crate::station::Station;
use crate::targets::Targets;
use crate::targets_of::server_at;
use crate::trying::{UsefulAnswer, first_heard};
use crate::world::World;
use dns_base::{IpAddr, Name, NoMemory, Seq};
use dns_lookup_words::Ask;
use std::alloc::Global;

/// How many servers are asked in a step before names are looked up, and behind that.
const MOST_SERVERS: usize = 16;

/// How many names are looked up in a step.
const MOST_NAMES: usize = 8;

/// The first items, at most so many.
#[tactic(auto, using(std::proofs::lemmas::List::take_all))]
fn first_of<T>(most: usize, items: &[T]) -> &[T]
    ensures { result.now ≡ take most items.now }
{
    if items.len() < most {
        items
    } else {
        &items[..most]
    }
}

/// Adds the servers of a name at addresses.
fn push_servers(
    alloc: Global,
    name: &Name,
    addresses: &[IpAddr],
    servers: &mut Seq<NameServer>,
) -> Result<(), NoMemory>
    ensures { OnOk result (servers.new ≡ servers.old ++ map (server_at name.now) addresses.now) }
{
    for ip in addresses {
        let server = server_at(alloc, name, *ip)?;
        servers.push(server)?;
    }
    Ok(())
}

/// Looks names up, and adds the servers that are found.
fn look_up_all<W: World>(
    alloc: Global,
    world: &mut W,
    names: &[Name],
    servers: &mut Seq<NameServer>,
) -> Result<(), NoMemory>
    ensures { OnOk result (DidLookUp W.deeds names.now servers.old servers.new world.old world.new) }
{
    let mut rest = names;
    'names: while let Some((name, later)) = rest.split_first() {
        let addresses = world.look_up(name)?;
        push_servers(alloc, name, addresses.as_slice(), servers)?;
        rest = later;
    }
    Ok(())
}

/// Asks the servers of a station until one does not fail: those with addresses, and then those whose names are looked up. None where
/// each fails.
pub(crate) fn step<W: World>(
    alloc: Global,
    world: &mut W,
    ask: &Ask,
    station: &Station,
    targets: &Targets,
) -> Result<Option<UsefulAnswer>, NoMemory>
    ensures { IfOk result (λ heard. DidStep W.deeds ask.now station.now targets.now heard world.old world.new) }
{
    let glue = first_of(MOST_SERVERS, targets.glue.as_slice());
    let heard = first_heard(alloc, world, ask, station, glue)?;
    if let Some(heard) = heard {
        return Ok(Some(heard));
    }
    let mut found = Seq::new(alloc);
    let names = first_of(MOST_NAMES, targets.names.as_slice());
    look_up_all(alloc, world, names, &mut found)?;
    let servers = first_of(MOST_SERVERS, found.as_slice());
    first_heard(alloc, world, ask, station, servers)
}
