//! The world of zones that are kept.

ghost use Rattle.zone_refresh_run.specs.declared.world.Deed.{Deed};

use dns_values::Serial;
use zone_refresh::{Event, KeptZone, ZoneTimers};

/// What is told of a zone.
#[derive(Clone, Copy, Debug, PartialEq, Eq)]
pub enum ZoneNews {
    /// What came of the primary that was asked or fetched from, at a moment, and the zone as it is then.
    Came {
        primary: usize,
        event: Event,
        moment: u64,
        zone: KeptZone,
    },
    /// No primary has confirmed the zone for EXPIRE seconds (RFC 1034 4.3.5).
    Expired,
}

/// What was done with a world. Zones are counted from 0, in their order, and primaries in the order of their zone.
#[derive(Clone, Copy, Debug, PartialEq, Eq)]
pub enum Deed {
    /// It slept, until this moment at the latest.
    Slept(u64),
    /// It asked a primary for the SOA of a zone, and got one with this serial, or none.
    Asked {
        zone: usize,
        primary: usize,
        came: Option<Serial>,
    },
    /// It fetched a zone from a primary. The file of the zone has a zone with these times then, or is as it was.
    Fetched {
        zone: usize,
        primary: usize,
        came: Option<ZoneTimers>,
    },
    /// Its clock gave this moment.
    Looked(u64),
    /// It told this of a zone.
    Told {
        zone: usize,
        news: ZoneNews,
    },
}

/// Where zones are asked for and fetched, and what tells of them. How a deed changes it is its own to say (`does`).
///
/// A call that fails, for want of memory too, answers that nothing came.
pub trait World {
    ghost does: { Deed → Self → Self → Type 0 };

    /// The moment, in microseconds since any start.
    fn now(&mut self) -> u64
        ensures { does (Deed.Looked result) self.old self.new };

    /// Sleeps until its clock gives this moment. It may return sooner, and does at once where that moment is past.
    fn sleep_until(&mut self, moment: u64)
        ensures { does (Deed.Slept moment) self.old self.new };

    /// Asks a primary for the SOA of a zone: its serial, or none where there was no answer, or another one than an SOA.
    fn ask_soa(&mut self, zone: usize, primary: usize) -> Option<Serial>
        ensures { does (Deed.Asked zone primary result) self.old self.new };

    /// Fetches a zone from a primary into its file: the times of the zone that the file has then, or none where the file is as it was.
    fn fetch(&mut self, zone: usize, primary: usize) -> Option<ZoneTimers>
        ensures { does (Deed.Fetched zone primary result) self.old self.new };

    /// Tells what there is to tell of a zone.
    fn tell(&mut self, zone: usize, news: ZoneNews)
        ensures { does (Deed.Told zone news) self.old self.new };
}
