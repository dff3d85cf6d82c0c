//! The times of a zone, as its file has them.

ghost use Rattle.std.specs.Prelude.{◌≡◌, ◌+◌, ◌≤◌, length, find};
ghost use Rattle.std.specs.Option.{option_copied};
ghost use Rattle.dns_base.specs.Numbers.{u32_at};
ghost use Rattle.zone_records.specs.Records.{is_soa};
ghost use Rattle.zone_refresh_run.specs.Timers as spec;

use dns_base::{Serial, Ttl};
use zone_records::ZoneRecord;
use zone_refresh::ZoneTimers;

/// How many octets the numbers of an SOA have, which end its data (RFC 1035 3.3.13).
const NUMBERS: usize = 20;

/// The number of four octets from this place on.
fn number_at(octets: &[u8], at: usize) -> u32
    requires { at + 4 ≤ length octets.now }
    ensures { result ≡ u32_at octets.now at }
{
    u32::from_be_bytes([octets[at], octets[at + 1], octets[at + 2], octets[at + 3]])
}

/// The serial and the times in the data of an SOA.
fn timers_of(octets: &[u8]) -> Option<ZoneTimers>
    ensures { result ≡ spec.timers_of octets.now }
{
    let at = octets.len().checked_sub(NUMBERS)?;
    Some(ZoneTimers {
        serial: Serial(number_at(octets, at)),
        refresh: Ttl(number_at(octets, at + 4)),
        retry: Ttl(number_at(octets, at + 8)),
        expire: Ttl(number_at(octets, at + 12)),
    })
}

/// The first SOA among records.
fn soa_among(records: &[ZoneRecord]) -> Option<&ZoneRecord>
    ensures { option_copied result ≡ find is_soa records.now }
{
    records.iter().find(|item| item.is_soa())
}

/// The serial and the times that the first SOA among records says.
pub(crate) fn timers_among(records: &[ZoneRecord]) -> Option<ZoneTimers>
    ensures { result ≡ spec.timers_among records.now }
{
    match soa_among(records) {
        Some(soa) => timers_of(soa.rdata.as_slice()),
        None => None,
    }
}
