//! A walk, step by step.

ghost use Rattle.std.specs.Prelude.{◌≡◌, IfOk};
ghost use Rattle.dns_lookup_walk.specs.Walks.{Walked, given_targets};
ghost use Rattle.dns_lookup_walk.specs.declared.station.Station.TheVariants.{Given};

use crate::server::NameServer;
use crate::station::Station;
use crate::step::step;
use crate::targets::Targets;
use crate::targets_of::targets_of;
use crate::trying::UsefulAnswer;
use crate::verdict::{Ending, Verdict};
use crate::world::World;
use dns_base::{NoMemory, Seq};
use dns_lookup_words::Ask;
use std::alloc::Global;

/// The servers that are given, by their addresses.
fn given(alloc: Global, servers: Seq<NameServer>) -> Targets
    ensures { result ≡ given_targets servers }
{
    Targets {
        glue: servers,
        names: Seq::new(alloc),
    }
}

/// Walks from the root down to the name of an ask: asks the servers that are given for those of the root, and then the servers of each
/// zone for the name and the type, with no recursion desired. Each question has the other flags of the ask.
///
/// A referral leads on where its zone is strictly below the present one, and at or above the name (RFC 1034 5.3.3). Its servers are asked at
/// the addresses that stand beside it, where their names are in the bailiwick of the present zone; where all of these fail, the names
/// without such an address are looked up. A walk has at most as many steps as the name has labels, one for the root and one before that.
///
/// None where each server of a step failed, or there was none. `NoMemory` alone is answered, the world's own too. Then the world may have been asked, and not told.
pub fn walk<W: World>(
    alloc: Global,
    world: &mut W,
    ask: &Ask,
    servers: Seq<NameServer>,
) -> Result<Option<Ending>, NoMemory>
    ensures { IfOk result (λ ending. Walked W.deeds ask.now Given (given_targets servers) ending world.old world.new) }
{
    let mut station = Station::Given;
    let mut targets = given(alloc, servers);
    'steps: loop {
        let Some(heard) = step(alloc, world, ask, &station, &targets)? else {
            return Ok(None);
        };
        let UsefulAnswer { message, verdict } = heard;
        match verdict {
            Verdict::Ends(ending) => return Ok(Some(ending)),
            Verdict::Refers(zone) => {
                targets = targets_of(alloc, &station, &zone, &message)?;
                station = Station::Zone(zone);
            }
            // No such message is heard.
            Verdict::Fails(_) => return Ok(None),
        }
    }
}
