//! A zone that is kept.

ghost use Rattle.std.specs.Prelude.{◌≡◌, ◌<◌, ◌+◌, None, false, if◌then◌else◌};
ghost use Rattle.zone_refresh.specs.Timing.{asking_due, expiry, has_expired, next_due, retry_of, telling_due};
ghost use Rattle.zone_refresh.specs.Steps.{answered, asks, asks_next, confirmed, fetched, fetches, happens, is_to_tell, not_fetched, outs_after, ticks, unanswered, weighs, zone_after};

use crate::timing::{after_seconds, is_greater, least};
use dns_values::{Serial, Ttl};

/// The serial of a zone, and its times in seconds (RFC 1035 3.3.13).
#[derive(Clone, Copy, Debug, PartialEq, Eq)]
pub struct ZoneTimers {
    pub serial: Serial,
    /// So long what a primary said is good.
    pub refresh: Ttl,
    /// So long after no primary answered they are asked again.
    pub retry: Ttl,
    /// So long after a primary answered last the zone is good.
    pub expire: Ttl,
}

/// What is waited for.
#[derive(Clone, Copy, Debug, PartialEq, Eq)]
pub enum Phase {
    /// The moment at which the first primary is asked, in microseconds.
    Waiting(u64),
    /// The SOA of the primary of this number.
    Asking(usize),
    /// The zone of the primary of this number.
    Fetching(usize),
}

/// A zone that is kept: what is held of it, and what is waited for. Moments are microseconds since any start.
#[derive(Clone, Copy, Debug, PartialEq, Eq)]
pub struct KeptZone {
    /// How many primaries there are.
    pub primaries: usize,
    /// The zone's serial and times, once there is one.
    pub held: Option<ZoneTimers>,
    /// When a primary said last that this is what it has.
    pub confirmed: u64,
    pub phase: Phase,
    /// Whether it was told that the zone has expired.
    pub told: bool,
}

/// What happens to a zone.
#[derive(Clone, Copy, Debug, PartialEq, Eq)]
pub enum Event {
    /// Time went by.
    Tick,
    /// The primary that was asked answered with the serial of its SOA.
    Answered(Serial),
    /// It did not answer, or not with an SOA.
    Unanswered,
    /// The zone was fetched, and is in its place, with these times.
    Fetched(ZoneTimers),
    /// The zone was not fetched, or could not be put in its place.
    NotFetched,
}

/// What is to be done. Primaries are counted from 0.
#[derive(Clone, Copy, Debug, PartialEq, Eq)]
pub enum Task {
    /// Ask this primary for the SOA.
    AskSoa(usize),
    /// Fetch the zone from this primary.
    Fetch(usize),
}

/// What a step puts out.
#[derive(Clone, Copy, Debug, PartialEq, Eq)]
pub struct Outs {
    /// Whether it is to be told that the zone has expired.
    pub expired: bool,
    pub task: Option<Task>,
}

/// The seconds after which primaries are asked again.
fn retry_of(held: Option<ZoneTimers>) -> u32
    ensures { result ≡ retry_of held }
{
    match held {
        None => 60,
        Some(timers) => timers.retry.0.max(1),
    }
}

impl KeptZone {
    /// A zone with so many primaries, of which this is held, as a primary had it at this moment. It is due at once.
    pub fn new(primaries: usize, held: Option<ZoneTimers>, now: u64) -> KeptZone
        requires { 0 < primaries }
        ensures { result ≡ record { primaries = primaries; held = held; confirmed = now; phase = Phase.Waiting now; told = false } }
    {
        KeptZone {
            primaries,
            held,
            confirmed: now,
            phase: Phase::Waiting(now),
            told: false,
        }
    }

    fn expiry(&self) -> Option<u64>
        ensures { result ≡ expiry self.now }
    {
        match self.held {
            None => None,
            Some(timers) => Some(after_seconds(self.confirmed, timers.expire.0)),
        }
    }

    /// Whether no primary has confirmed it for EXPIRE seconds.
    pub fn has_expired(&self, now: u64) -> bool
        ensures { result ≡ has_expired now self.now }
    {
        match self.expiry() {
            None => false,
            Some(moment) => moment <= now,
        }
    }

    fn asking_due(&self) -> Option<u64>
        ensures { result ≡ asking_due self.now.phase }
    {
        match self.phase {
            Phase::Waiting(due) => Some(due),
            Phase::Asking(_) | Phase::Fetching(_) => None,
        }
    }

    fn telling_due(&self) -> Option<u64>
        ensures { result ≡ telling_due self.now }
    {
        if self.told { None } else { self.expiry() }
    }

    /// The moment up to which nothing is to be done, unless what is waited for comes. None where nothing is due then.
    pub fn next_due(&self) -> Option<u64>
        ensures { result ≡ next_due self.now }
    {
        least(self.asking_due(), self.telling_due())
    }

    fn ask(&mut self, primary: usize) -> Option<Task>
        ensures zone { self.new ≡ (asks self.old primary).zone }
        ensures task { result ≡ (asks self.old primary).task }
    {
        self.phase = Phase::Asking(primary);
        Some(Task::AskSoa(primary))
    }

    /// The next primary is asked, or behind the last one it is waited.
    fn ask_next(&mut self, now: u64, primary: usize) -> Option<Task>
        ensures zone { self.new ≡ (asks_next self.old now primary).zone }
        ensures task { result ≡ (asks_next self.old now primary).task }
    {
        if primary < self.primaries && self.primaries - primary > 1 {
            return self.ask(primary + 1);
        }
        self.phase = Phase::Waiting(after_seconds(now, retry_of(self.held)));
        None
    }

    fn confirm(&mut self, now: u64, timers: ZoneTimers) -> Option<Task>
        ensures zone { self.new ≡ (confirmed self.old now timers).zone }
        ensures task { result ≡ (confirmed self.old now timers).task }
    {
        self.held = Some(timers);
        self.confirmed = now;
        self.phase = Phase::Waiting(after_seconds(now, timers.refresh.0.max(1)));
        self.told = false;
        None
    }

    fn fetch(&mut self, primary: usize) -> Option<Task>
        ensures zone { self.new ≡ (fetches self.old primary).zone }
        ensures task { result ≡ (fetches self.old primary).task }
    {
        self.phase = Phase::Fetching(primary);
        Some(Task::Fetch(primary))
    }

    /// What the serial of a primary leads to.
    fn weigh(&mut self, now: u64, primary: usize, serial: u32) -> Option<Task>
        ensures zone { self.new ≡ (weighs self.old now primary serial self.old.held).zone }
        ensures task { result ≡ (weighs self.old now primary serial self.old.held).task }
    {
        let Some(timers) = self.held else {
            return self.fetch(primary);
        };
        if is_greater(serial, timers.serial.0) {
            self.fetch(primary)
        } else if serial == timers.serial.0 {
            self.confirm(now, timers)
        } else {
            self.ask_next(now, primary)
        }
    }

    /// What an event leads to, where it is waited for.
    fn happen(&mut self, now: u64, event: Event) -> Option<Task>
        ensures zone { self.new ≡ (happens self.old now event).zone }
        ensures task { result ≡ (happens self.old now event).task }
    {
        match (event, self.phase) {
            (Event::Tick, Phase::Waiting(due)) => { if due <= now { self.ask(0) } else { None } }
            (Event::Answered(serial), Phase::Asking(primary)) => self.weigh(now, primary, serial.0),
            (Event::Unanswered, Phase::Asking(primary)) => self.ask_next(now, primary),
            (Event::Fetched(timers), Phase::Fetching(_)) => self.confirm(now, timers),
            (Event::NotFetched, Phase::Fetching(primary)) => self.ask_next(now, primary),
            _ => None,
        }
    }

    /// What an event at a moment leads to. An event that isn't waited for changes nothing, but that the zone may have expired.
    pub fn step(&mut self, now: u64, event: Event) -> Outs
        ensures zone { self.new ≡ zone_after self.old now event }
        ensures outs { result ≡ outs_after self.old now event }
    {
        let task = self.happen(now, event);
        let expired = self.has_expired(now) && !self.told;
        if expired {
            self.told = true;
        }
        Outs { expired, task }
    }
}
