//! The system's clock.

ghost use Rattle.std.specs.Prelude.{◌≡◌, ◌≤◌, None};
ghost use Rattle.client_request.specs.Words.{IsGivenOn};

use client_core::Clock;
use client_request::Moment;
use std::marker::Model;
use std::rt;

/// A clock that counts the microseconds since it was made. What contracts see is the last moment that it gave.
///
/// It never falls. Where the system's clock can't be read it stands still.
#[derive(Drop)]
pub struct RealClock<R: rt::Clock + Drop> {
    rt: R,
    start: u64,
    last: u64,
}

impl<R: rt::Clock + Drop> Model for RealClock<R> {
    ghost use Rattle.std.specs.Prelude.{ℕ};

    ghost Value = { ℕ };

    ghost view = { λ c. c.last };
}

/// The system's microseconds, from wherever it counts them.
fn micros<R: rt::Clock>(rt: &R) -> Option<u64> {
    let time = rt.monotonic().ok()?;
    u64::try_from(time.as_micros()).ok()
}

impl<R: rt::Clock + Drop> RealClock<R> {
    /// A clock that begins at 0.
    pub fn new(rt: R) -> RealClock<R>
        ensures { result ≡ 0 }
    {
        let start = micros(&rt).unwrap_or(0);
        RealClock { rt, start, last: 0 }
    }
}

impl<R: rt::Clock + Drop> Clock for RealClock<R> {
    ghost given = { λ _. None };

    fn now(&mut self) -> Moment
        ensures given { IsGivenOn None None result.0 }
        ensures rises { self.old ≤ self.new }
        ensures gives { result.0 ≡ self.new }
    {
        if let Some(now) = micros(&self.rt) {
            self.last = self.last.max(now.saturating_sub(self.start));
        }
        Moment(self.last)
    }
}
