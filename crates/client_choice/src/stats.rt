//! How long a server is expected to take.

ghost use Rattle.std.specs.Prelude.{◌≡◌, ◌≤◌, ◌<◌, ◌^◌};
ghost use Rattle.client_choice.specs.Roots.{isqrt};
ghost use Rattle.client_choice.specs.Stats as plain;

use std::marker::Model;

/// An hour, in microseconds.
const HOUR: u64 = 3_600_000_000;

/// How long a server took so far, in microseconds: the mean, and the mean of the squares, of the last times
/// more than of those before.
#[derive(Clone, Copy, Debug, PartialEq, Eq)]
pub struct Stats {
    mean: u64,
    square: u64,
}

impl Model for Stats {
    ghost use Rattle.client_choice.specs.Stats.{Stats, IsInRange};

    ghost Value = { Stats };

    ghost view = { λ s. record { mean = s.mean; square = s.square } };

    ghost inverse = { λ s. record { mean = s.mean; square = s.square } };

    ghost invariant = { λ s. IsInRange (record { mean = s.mean; square = s.square }) };
}

/// A new value counts an eighth.
fn averaged(old: u64, new: u64) -> u64
    ensures { result ≡ plain.averaged old new }
{
    let sum = 7 * u128::from(old) + u128::from(new);
    (sum / 8) as u64
}

/// The greatest number whose square is at most `n`.
fn square_root(n: u64) -> u64
    ensures value { result ≡ isqrt n }
    ensures bound { result < 2 ^ 32 }
{
    match u16::try_from(n) {
        Ok(n) => u64::from(n.isqrt()),
        Err(_) => n.isqrt(),
    }
}

impl Stats {
    /// Of a server that was not asked yet 300 milliseconds are expected.
    pub fn new() -> Stats
        ensures { result ≡ plain.fresh }
    {
        Stats {
            mean: 300_000,
            square: 0,
        }
    }

    /// The server answered after so many microseconds. More than an hour counts as an hour.
    pub fn update(&mut self, elapsed: u64)
        ensures { self.new ≡ plain.updated elapsed self.old }
    {
        let time = elapsed.min(HOUR);
        *self = Stats {
            mean: averaged(self.mean, time),
            square: averaged(self.square, time * time),
        };
    }

    /// The server was waited for so many microseconds, and another one answered: that counts only where it
    /// is at least the mean.
    pub fn fail(&mut self, elapsed: u64)
        ensures { self.new ≡ plain.failed elapsed self.old }
    {
        if elapsed >= self.mean {
            self.update(elapsed);
        }
    }

    /// How long the server is expected to take, in microseconds: the mean and three times the deviation,
    /// four hours at most.
    pub fn estimate(&self) -> u64
        ensures value { result ≡ plain.estimate self.now }
        ensures bound { result ≤ 14400000000 }
    {
        let variance = self.square.saturating_sub(self.mean * self.mean);
        self.mean + 3 * square_root(variance)
    }
}

/// Whatever is heard of a server, at most four hours are expected of it, and nothing is reached.
#[tactic(auto, using(crate::proofs::StatsLaws::stats_law))]
pub fn stats_law()
    ensures { plain.StatsLaw }
{}
