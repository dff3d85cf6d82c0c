//! The system in which zones are kept.

use crate::{random_words, world_of};
use client_core::Clock;
use client_edge::{FileOpener, RealClock, SocketEdge};
use command_parts::deliver;
use dns_base::{Name, Serial, SocketAddr, Status};
use dns_values::StdSink;
use std::thread;
use std::time::Duration;
use zone_fetch_run::{Command, fetch_for, tell_no_random};
use zone_refresh::ZoneTimers;
use zone_refresh_run::{NoSerial, System, ask_serial, held_at};

/// The real system.
#[derive(Drop)]
pub(crate) struct RealSystem {
    rt: HostRuntime,
    clock: RealClock<HostRuntime>,
    opener: FileOpener<HostRuntime>,
}

impl RealSystem {
    pub(crate) fn new(rt: HostRuntime) -> RealSystem {
        RealSystem {
            rt,
            clock: RealClock::new(rt),
            opener: FileOpener::new(rt),
        }
    }
}

impl System for RealSystem {
    ghost use Rattle.std.specs.Prelude.{None};

    ghost acts = { λ _. None };

    fn now(&mut self) -> u64 {
        self.clock.now().0
    }

    fn sleep(&mut self, micros: u64) {
        thread::sleep(&self.rt, Duration::from_micros(micros));
    }

    fn ask(&mut self, zone: &Name, primary: SocketAddr) -> Result<Serial, NoSerial> {
        let Some(random) = random_words(&self.rt) else {
            return Err(NoSerial::NotAsked);
        };
        let edge = SocketEdge::new(self.rt, self.rt.alloc());
        let clock = RealClock::new(self.rt);
        match ask_serial(self.rt.alloc(), zone, primary, edge, clock, random) {
            Ok(said) => said,
            Err(_) => Err(NoSerial::NotAsked),
        }
    }

    fn held(&mut self, zone: &Name, path: &str) -> Option<ZoneTimers> {
        held_at(self.rt.alloc(), &mut self.opener, zone, path)
    }

    fn fetch(&mut self, command: &Command) -> Status {
        let mut errors = StdSink::new(self.rt.stderr());
        let Some(random) = random_words(&self.rt) else {
            return tell_no_random(&mut errors);
        };
        let mut world = world_of(self.rt, random);
        let mut sink = StdSink::new(self.rt.stdout());
        fetch_for(self.rt.alloc(), command, &mut sink, &mut errors, &mut world)
    }

    fn tell(&mut self, sentence: &str) {
        deliver(&mut StdSink::new(self.rt.stderr()), sentence.as_bytes());
    }
}
