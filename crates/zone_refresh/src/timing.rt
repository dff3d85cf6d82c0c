//! Moments, and serials.

ghost use Rattle.std.specs.Prelude.{◌≡◌};
ghost use Rattle.zone_refresh.specs.Timing.{after_seconds, is_greater, least};

/// So many seconds later, in microseconds, as far as 64 bits count them.
pub(crate) fn after_seconds(now: u64, seconds: u32) -> u64
    ensures { result ≡ after_seconds now seconds }
{
    now.saturating_add(u64::from(seconds) * 1_000_000)
}

/// Whether a serial is greater than another (RFC 1982 3.2).
pub(crate) fn is_greater(serial: u32, held: u32) -> bool
    ensures { result ≡ is_greater serial held }
{
    let distance = serial.wrapping_sub(held);
    0 < distance && distance < 1 << 31
}

/// The earlier of two moments.
pub(crate) fn least(one: Option<u64>, other: Option<u64>) -> Option<u64>
    ensures { result ≡ least one other }
{
    match (one, other) {
        (None, moment) | (moment, None) => moment,
        (Some(one), Some(other)) => Some(one.min(other)),
    }
}
