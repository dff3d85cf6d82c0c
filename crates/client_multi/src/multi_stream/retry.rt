//! How long is backed off.

ghost use Rattle.std.specs.Prelude.{◌≡◌, ◌+◌, ◌≤◌};
ghost use Rattle.client_multi.specs.Retry as plain;

use client_request::Moment;
use dns_base::Duration;

const SECOND: u64 = 1_000_000;

const MINUTE: u64 = 60_000_000;

/// The longest time after `n` earlier ones, in microseconds.
fn retry_bound(n: u64) -> u64
    ensures value { result ≡ plain.retry_bound n }
    ensures least { 1 ≤ result }
    ensures most { result ≤ 64000000 }
{
    match n {
        0 => SECOND,
        1 => 2 * SECOND,
        2 => 4 * SECOND,
        3 => 8 * SECOND,
        4 => 16 * SECOND,
        5 => 32 * SECOND,
        6 => 64 * SECOND,
        _ => MINUTE,
    }
}

/// How long is backed off after `n` earlier times, drawn by a random word: between a microsecond and a
/// bound, which is a second at first, doubles up to 64 seconds, and then is a minute.
pub fn retry_time(n: u64, word: u64) -> Duration
    ensures value { result ≡ plain.retry_time n word }
    ensures least { 1 ≤ result }
    ensures most { result ≤ plain.retry_bound n }
{
    let bound = retry_bound(n);
    let share = u128::from(word) * u128::from(bound - 1) / (1 << 64);
    Duration::from_micros(1 + share as u64)
}

/// When it is over that is backed off from now on, in microseconds.
pub(crate) fn retry_due(now: Moment, n: u64, word: u64) -> u128
    ensures { result ≡ now.0 + plain.retry_time n word }
{
    u128::from(now.0) + retry_time(n, word).as_micros()
}
