//! Turns, and how long is slept before each.

ghost use Rattle.std.specs.Prelude.{◌≡◌};
ghost use Rattle.zone_refresh_run.specs.Turns.{AreKept, IsTurned, due_of, wake_of};

use crate::visits::visit_all;
use crate::world::World;
use zone_refresh::{KeptZone, Phase};

/// The moment up to which nothing is to be done for a zone: 0 where something is to be done at once.
fn due(zone: &KeptZone) -> u64
    ensures { result ≡ due_of zone.now }
{
    match zone.phase {
        Phase::Waiting(_) => zone.next_due().unwrap_or(u64::MAX),
        Phase::Asking(_) | Phase::Fetching(_) => 0,
    }
}

/// The first moment at which something is to be done for one of the zones.
fn wake(zones: &[KeptZone]) -> u64
    ensures { result ≡ wake_of zones.now }
{
    let mut wake = u64::MAX;
    for zone in zones {
        wake = wake.min(due(zone));
    }
    wake
}

/// A turn: the world sleeps until something is to be done, and then each zone gets its turn.
fn turn<W: World>(zones: &mut [KeptZone], world: &mut W)
    ensures { IsTurned W.does zones.old zones.new world.old world.new }
{
    world.sleep_until(wake(zones));
    visit_all(zones, world);
}

/// Keeps zones for so many turns. In each the world sleeps until something is to be done for one of them, and then each zone gets its
/// turn, in order, in which one primary is asked or the zone is fetched from one, where it is time. So no zone waits for another longer
/// than one asking or fetching of each.
pub fn keep_zones<W: World>(zones: &mut [KeptZone], world: &mut W, turns: u64)
    ensures { AreKept W.does turns zones.old zones.new world.old world.new }
{
    for _ in 0..turns {
        turn(zones, world);
    }
}
