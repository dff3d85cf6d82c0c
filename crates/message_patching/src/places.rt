//! Where a message has its TTLs.

ghost use Rattle.std.specs.Prelude.{◌≡◌, ◌+◌, ◌≤◌, ◌<◌, ◌^◌, length, option_map, IfOk, IfSome};
ghost use Rattle.std.specs.List.{AllByRecursion};
ghost use Rattle.dns_base.specs.Numbers.{u16_at, u32_at};
ghost use Rattle.message_patching.specs.Patching.{mark_at, has_ttl, section_places, with_places, places_and, records_from, places_in, IsTtlIn};

use dns_base::{NoMemory, ParsedName, Section};
use std::alloc::Global;

/// Two octets as a number, the higher first.
pub(crate) fn u16_at(octets: &[u8], at: usize) -> u16
    requires { at + 2 ≤ length octets.now }
    ensures { result ≡ u16_at octets.now at }
{
    u16::from_be_bytes([octets[at], octets[at + 1]])
}

/// Four octets as a number, the highest first.
pub(crate) fn u32_at(octets: &[u8], at: usize) -> u32
    requires { at + 4 ≤ length octets.now }
    ensures { result ≡ u32_at octets.now at }
{
    u32::from_be_bytes([octets[at], octets[at + 1], octets[at + 2], octets[at + 3]])
}

/// Where the TTL of the record at a place stands, the record's type, and where the octets after it stand.
#[tactic(auto, unfolding(crate::specs::Patching::mark_at))]
fn mark_at(octets: &[u8], at: usize) -> Option<(usize, u16, usize)>
    ensures found { result ≡ option_map (λ x. (x.0.place, x.0.rtype, x.1)) (mark_at octets.now at) }
    ensures within { IfSome result (λ x. IsTtlIn (length octets.now) x.0) }
{
    let (_, after) = ParsedName::parse(octets, at)?;
    if octets.len() < after + 10 {
        return None;
    }
    let end = after + 10 + u16_at(octets, after + 8) as usize;
    Some((after + 4, u16_at(octets, after), end))
}

/// Whether a record's TTL is one, and not the flags of an OPT record.
fn has_ttl(section: Section, rtype: u16) -> bool
    ensures { result ≡ has_ttl section rtype }
{
    match section {
        Section::Answer | Section::Authority => true,
        Section::Additional => rtype != 41,
    }
}

/// Adds the places of the TTLs of so many records from a place on, and says where the octets after them stand. None where
/// a record isn't found.
fn push_places(
    section: Section,
    octets: &[u8],
    count: u16,
    start: usize,
    ttls: &mut Vec<u32>,
) -> Result<Option<usize>, NoMemory>
    requires few { length octets.now < 2 ^ 32 }
    requires within { AllByRecursion (IsTtlIn (length octets.now)) ttls.old.items }
    ensures found { IfOk result (λ end. with_places ttls.old.items (section_places section octets.now count start) ≡ places_and ttls.new.items end) }
    ensures inside { AllByRecursion (IsTtlIn (length octets.now)) ttls.new.items }
{
    let mut at = start;
    for _ in 0..count {
        match mark_at(octets, at) {
            None => return Ok(None),
            Some((place, rtype, end)) => {
                if has_ttl(section, rtype) {
                    ttls.push(place as u32)?;
                }
                at = end;
            }
        }
    }
    Ok(Some(at))
}

/// Where the records stand behind no question or one.
fn records_from(octets: &[u8]) -> Option<usize>
    requires { 12 ≤ length octets.now }
    ensures { result ≡ records_from octets.now }
{
    let count = u16_at(octets, 4);
    if count == 0 {
        Some(12)
    } else if count == 1 {
        let (_, end) = ParsedName::parse(octets, 12)?;
        Some(end + 4)
    } else {
        None
    }
}

/// The places of all TTLs of a message with no question or one. None where a record isn't found.
#[tactic(auto, unfolding(crate::specs::Patching::places_in))]
pub(crate) fn places_in(alloc: Global, octets: &[u8]) -> Result<Option<Vec<u32>>, NoMemory>
    requires long { 12 ≤ length octets.now }
    requires few { length octets.now < 2 ^ 32 }
    ensures found { IfOk result (λ found. option_map (λ places. places.items) found ≡ places_in octets.now) }
    ensures inside { IfOk result (λ found. IfSome found (λ places. AllByRecursion (IsTtlIn (length octets.now)) places.items)) }
{
    let mut ttls = Vec::new(alloc);
    let mut at = match records_from(octets) {
        None => return Ok(None),
        Some(at) => at,
    };
    match push_places(Section::Answer, octets, u16_at(octets, 6), at, &mut ttls)? {
        None => return Ok(None),
        Some(end) => at = end,
    }
    match push_places(Section::Authority, octets, u16_at(octets, 8), at, &mut ttls)? {
        None => return Ok(None),
        Some(end) => at = end,
    }
    match push_places(
        Section::Additional,
        octets,
        u16_at(octets, 10),
        at,
        &mut ttls,
    )? {
        None => Ok(None),
        Some(_) => Ok(Some(ttls)),
    }
}
