//! Lengths of time, in whole microseconds.

ghost use Rattle.std.specs.Prelude.{◌≡◌, ◌*◌, ◌/◌, ◌<◌, ◌^◌, ℕ};

use std::marker::Model;

const MICROS_IN_SECOND: u128 = 1_000_000;

const MICROS_IN_MILLI: u128 = 1_000;

/// A length of time: whole microseconds, of fewer than 2^64 seconds.
#[derive(Clone, Copy, Debug, PartialEq, Eq, PartialOrd, Ord, Hash)]
pub struct Duration {
    micros: u128,
}

impl Model for Duration {
    ghost Value = { ℕ };

    ghost view = { λ d. d.micros };

    ghost invariant = { λ d. d.micros / 1000000 < 2 ^ 64 };

    ghost inverse = { λ n. record { micros = n } };
}

impl Duration {
    /// No time at all.
    pub const ZERO: Duration = Duration { micros: 0 };

    /// So many seconds.
    pub const fn from_secs(secs: u64) -> Duration
        ensures { result ≡ secs * 1000000 }
    {
        Duration {
            micros: secs as u128 * MICROS_IN_SECOND,
        }
    }

    /// So many thousandths of a second.
    pub const fn from_millis(millis: u64) -> Duration
        ensures { result ≡ millis * 1000 }
    {
        Duration {
            micros: millis as u128 * MICROS_IN_MILLI,
        }
    }

    /// So many millionths of a second.
    pub const fn from_micros(micros: u64) -> Duration
        ensures { result ≡ micros }
    {
        Duration {
            micros: micros as u128,
        }
    }

    /// The whole of it in microseconds.
    pub const fn as_micros(&self) -> u128
        ensures micros { result ≡ self.now }
        ensures bounded { self.now / 1000000 < 2 ^ 64 }
    {
        self.micros
    }

    /// Its whole seconds; what is left of one is dropped.
    pub const fn as_secs(&self) -> u64
        ensures { result ≡ self.now / 1000000 }
    {
        (self.micros / MICROS_IN_SECOND) as u64
    }
}
