//! Octets that are written over others.

ghost use Rattle.std.specs.Prelude.{◌≡◌, ◌+◌, ◌≤◌, length, map};
ghost use Rattle.std.specs.List.{AllByRecursion};
ghost use Rattle.cache_rules.specs.Viewing.{ttl_by};
ghost use Rattle.message_patching.specs.Patching.{put_over, puts, name_put, name_room, ttl_put, IsTtlIn};

use crate::places::u32_at;
use cache_rules::Ttls;
use dns_base::Name;

/// Writes octets over as many others, from a place on.
fn write_over(octets: &mut [u8], at: usize, new: &[u8])
    requires { at + length new.now ≤ length octets.old }
    ensures put { octets.new ≡ put_over at new.now octets.old }
    ensures len { length octets.new ≡ length octets.old }
{
    octets[at..at + new.len()].copy_from_slice(new);
}

/// The same in a `Vec`.
pub(crate) fn put_over(octets: &mut Vec<u8>, at: usize, new: &[u8])
    requires { at + length new.now ≤ length octets.old.items }
    ensures put { octets.new.items ≡ put_over at new.now octets.old.items }
    ensures len { length octets.new.items ≡ length octets.old.items }
{
    write_over(octets, at, new);
}

/// Writes the spelling of a name over the question's, if there is one.
pub(crate) fn put_name(is_named: bool, name: &Name, octets: &mut Vec<u8>)
    requires { 12 + name_room is_named name.now ≤ length octets.old.items }
    ensures put { octets.new.items ≡ puts (name_put is_named name.now) octets.old.items }
    ensures len { length octets.new.items ≡ length octets.old.items }
{
    if is_named {
        put_over(octets, 12, name.as_octets());
    }
}

/// A TTL as it is given.
fn ttl_by(ttls: Ttls, ttl: u32) -> u32
    ensures { result ≡ ttl_by ttls ttl }
{
    match ttls {
        Ttls::Lessened(seconds) => ttl.saturating_sub(seconds),
        Ttls::Stale => 30,
    }
}

/// Writes each TTL as it is given, read from the first octets.
pub(crate) fn put_ttls(first: &[u8], places: &[u32], ttls: Ttls, octets: &mut Vec<u8>)
    requires within { AllByRecursion (IsTtlIn (length first.now)) places.now }
    requires long { length octets.old.items ≡ length first.now }
    ensures put { octets.new.items ≡ puts (map (ttl_put ttls first.now) places.now) octets.old.items }
    ensures len { length octets.new.items ≡ length octets.old.items }
{
    for place in places {
        let at = *place as usize;
        let ttl = ttl_by(ttls, u32_at(first, at));
        put_over(octets, at, &ttl.to_be_bytes());
    }
}
