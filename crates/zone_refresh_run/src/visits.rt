//! The turn of one zone, and of each.

ghost use Rattle.std.specs.Prelude.{◌≡◌, true};
ghost use Rattle.zone_refresh_run.specs.Deeds.{Leads};
ghost use Rattle.zone_refresh_run.specs.Visits.{AreVisited, IsVisited, done_for, is_awaited, news_of, told_of};

use crate::world::{World, ZoneNews};
use zone_refresh::{Event, KeptZone, Phase};

/// Does what a zone waits for. What comes of it.
fn event_in<W: World>(zone: usize, phase: Phase, world: &mut W) -> Event
    ensures awaited { is_awaited phase result ≡ true }
    ensures deeds { Leads W.does (done_for zone phase result) world.old world.new }
{
    match phase {
        Phase::Waiting(_) => Event::Tick,
        Phase::Asking(primary) => match world.ask_soa(zone, primary) {
            Some(serial) => Event::Answered(serial),
            None => Event::Unanswered,
        },
        Phase::Fetching(primary) => match world.fetch(zone, primary) {
            Some(timers) => Event::Fetched(timers),
            None => Event::NotFetched,
        },
    }
}

/// What is to be told where this came of what a zone waited for.
fn news_of(phase: Phase, event: Event, moment: u64, zone: KeptZone) -> Option<ZoneNews>
    ensures { result ≡ news_of phase event moment zone }
{
    match phase {
        Phase::Waiting(_) => None,
        Phase::Asking(primary) | Phase::Fetching(primary) => Some(ZoneNews::Came {
            primary,
            event,
            moment,
            zone,
        }),
    }
}

/// Tells what there is to tell of a zone, and where it has expired that.
fn tell<W: World>(zone: usize, news: Option<ZoneNews>, expired: bool, world: &mut W)
    ensures { Leads W.does (told_of zone news expired) world.old world.new }
{
    if let Some(news) = news {
        world.tell(zone, news);
    }
    if expired {
        world.tell(zone, ZoneNews::Expired);
    }
}

/// A zone gets its turn: what it waits for is done, what comes of it leads the zone on, and it is told.
fn visit<W: World>(number: usize, zone: &mut KeptZone, world: &mut W)
    ensures { IsVisited W.does number zone.old zone.new world.old world.new }
{
    let phase = zone.phase;
    let event = event_in(number, phase, world);
    let moment = world.now();
    let outs = zone.step(moment, event);
    let news = news_of(phase, event, moment, *zone);
    tell(number, news, outs.expired, world);
}

/// Each zone gets its turn, in order.
pub(crate) fn visit_all<W: World>(zones: &mut [KeptZone], world: &mut W)
    ensures { AreVisited W.does zones.old zones.new world.old world.new }
{
    for (number, zone) in zones.iter_mut().enumerate() {
        visit(number, zone, world);
    }
}
