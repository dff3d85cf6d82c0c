//! A clock, and how much time it told.

ghost use Rattle.std.specs.Prelude.{◌≡◌, None};
ghost use Rattle.client_request.specs.Words.{IsGivenOn};
ghost use Rattle.dns_lookup_run.specs.Watched.{first_of};

use client_core::Clock;
use client_request::Moment;
use std::marker::Model;

/// A clock that remembers the moments that it gave first and last. It gives those of the clock that it is made of.
#[derive(Drop)]
pub struct WatchedClock<C: Clock + Drop> {
    clock: C,
    first: Option<u64>,
    last: u64,
}

impl<C: Clock + Drop> Model for WatchedClock<C> {
    ghost use Rattle.dns_lookup_run.specs.Watched.{Times};

    ghost Value = { Times C };

    ghost view = { λ w. record { clock = w.clock; first = w.first; last = w.last } };
}

impl<C: Clock + Drop> WatchedClock<C> {
    /// The clock, of which no moment was asked yet.
    pub fn new(clock: C) -> WatchedClock<C>
        ensures { result ≡ record { clock = clock; first = None; last = 0 } }
    {
        WatchedClock {
            clock,
            first: None,
            last: 0,
        }
    }

    /// Forgets the moments that it gave.
    pub fn forget(&mut self)
        ensures clock { self.new.clock ≡ self.old.clock }
        ensures first { self.new.first ≡ None }
    {
        self.first = None;
    }

    /// How many microseconds passed from the first moment that it gave to the last, since the last `forget`.
    pub fn passed(&self) -> u64 {
        match self.first {
            Some(first) => self.last.saturating_sub(first),
            None => 0,
        }
    }
}

impl<C: Clock + Drop> Clock for WatchedClock<C> {
    ghost given = { λ w. C.given w.clock };

    fn now(&mut self) -> Moment
        ensures given { IsGivenOn (C.given self.old.clock) (C.given self.new.clock) result.0 }
        ensures last { self.new.last ≡ result.0 }
        ensures first { self.new.first ≡ first_of self.old.first result.0 }
    {
        let moment = self.clock.now();
        if self.first.is_none() {
            self.first = Some(moment.0);
        }
        self.last = moment.0;
        moment
    }
}
