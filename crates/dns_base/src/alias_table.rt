//! The aliases of an answer section, found by their owners: a chain of them is followed in line with its length, whatever
//! the order in which they stand.

ghost use Rattle.std.specs.Prelude.{◌≡◌, ◌≤◌, ◌<◌, ◌+◌, ◌++◌, [], ◌∷◌, List, Some, length, map, take, option_map, IfSome};
ghost use Rattle.std.specs.List.{insert};
ghost use Rattle.std.specs.List.Sorted.{IsSearchInRange, IsBinarySearchResult};
ghost use Rattle.std.specs.Ordering.{nat_cmp};
ghost use Rattle.std.specs.Char.{to_ascii_lowercase};
ghost use Rattle.std.specs.Cmp.Lexicographic.{slice_cmp};
ghost use Rattle.dns_base.specs.Message.{Known, record_at};
ghost use Rattle.dns_base.specs.Canonical.{alias_in};
ghost use Rattle.dns_base.specs.AliasTable.{name_cmp, order_at, IsTable, IsTabled};

use crate::record::Record;
use dns_names::ParsedName;
use dns_values::Rtype;
use std::cmp::Ordering;

/// The most aliases that a table has room for: a message of 65,535 octets has no more records.
pub(crate) const MOST_ALIASES: usize = 5957;

/// How two labels are ordered, but for case.
fn label_order(left: &[u8], right: &[u8]) -> Ordering
    ensures { result ≡ slice_cmp nat_cmp (map to_ascii_lowercase left.now) (map to_ascii_lowercase right.now) }
{
    let mut ours = left;
    let mut theirs = right;
    'octets: loop {
        match ours {
            [] => {
                return match theirs {
                    [] => Ordering::Equal,
                    _ => Ordering::Less,
                };
            }
            [x, others @ ..] => match theirs {
                [] => return Ordering::Greater,
                [y, behind @ ..] => {
                    match x.to_ascii_lowercase().cmp(&y.to_ascii_lowercase()) {
                        Ordering::Equal => {
                            ours = others;
                            theirs = behind;
                        }
                        order => return order,
                    }
                }
            },
        }
    }
}

/// How two names are ordered, but for case.
fn name_order(left: &ParsedName<'_>, right: &ParsedName<'_>) -> Ordering
    ensures { result ≡ name_cmp left.now right.now }
{
    let mut ours = left.labels();
    let mut theirs = right.labels();
    'labels: loop {
        match ours.next() {
            None => {
                return match theirs.next() {
                    None => Ordering::Equal,
                    Some(_) => Ordering::Less,
                };
            }
            Some(x) => match theirs.next() {
                None => return Ordering::Greater,
                Some(y) => match label_order(x, y) {
                    Ordering::Equal => {}
                    order => return order,
                },
            },
        }
    }
}

/// How the name at a place stands to a name.
fn order_at(octets: &[u8], name: &ParsedName<'_>, place: usize) -> Ordering
    ensures { result ≡ order_at octets.now name.now place }
{
    match ParsedName::parse(octets, place) {
        Some((owner, _)) => name_order(&owner, name),
        None => Ordering::Less,
    }
}

/// Where the alias of an owner is in a table, or where it would go.
fn find(octets: &[u8], places: &[u16], owner: &ParsedName<'_>) -> Result<usize, usize>
    ensures bound { IsSearchInRange result (length places.now) }
    ensures position { IsBinarySearchResult (order_at octets.now owner.now) places.now result }
{
    places.binary_search_by(|place| order_at(octets, owner, *place as usize))
}

/// The first alias of an owner, by a table of the aliases of records.
pub(crate) fn find_alias<'a>(
    octets: &'a [u8],
    places: &[u16],
    owner: &ParsedName<'_>,
) -> Option<Record<'a>>
    ensures { (records : List Known) → IsTable octets.now places.now records → result ≡ alias_in owner.now records }
{
    match find(octets, places, owner) {
        Ok(at) => {
            let (record, _) = Record::parse(octets, places[at] as usize)?;
            Some(record)
        }
        Err(_) => None,
    }
}

/// Puts a place in a table of so many places.
fn insert_at(places: &mut [u16], count: usize, at: usize, place: u16)
    requires order { at ≤ count }
    requires room { count < length places.old }
    ensures length { length places.new ≡ length places.old }
    ensures put { take (count + 1) places.new ≡ insert (take count places.old) at place }
{
    places.copy_within(at..count, at + 1);
    places[at] = place;
}

/// Adds the record at a place to a table of so many places, if it is the first alias of its owner. None where there is no room.
fn add(
    octets: &[u8],
    places: &mut [u16],
    count: usize,
    place: usize,
    alias: &Record<'_>,
) -> Option<usize>
    requires counted { count ≤ length places.old }
    requires stands { option_map (λ found. found.0) (record_at octets.now place) ≡ Some alias.now }
    ensures length { length places.new ≡ length places.old }
    ensures counted { IfSome result (λ n. n ≤ length places.old) }
    ensures added { IfSome result (λ n. (records : List Known) → IsTable octets.now (take count places.old) records
        → IsTable octets.now (take n places.new) (records ++ alias.now ∷ [])) }
{
    if alias.rtype() != Rtype::CNAME {
        return Some(count);
    }
    match find(octets, &places[..count], &alias.owner()) {
        Ok(_) => Some(count),
        Err(at) => {
            if count == places.len() || place > u16::MAX as usize {
                return None;
            }
            insert_at(places, count, at, place as u16);
            Some(count + 1)
        }
    }
}

/// Makes the table of the aliases of so many records from a place on, and says how many places it has. None where a record
/// can't be read, or there is no room.
pub(crate) fn tabulate(octets: &[u8], start: usize, count: u16, places: &mut [u16]) -> Option<usize>
    ensures counted { IfSome result (λ n. n ≤ length places.new) }
    ensures made { IfSome result (λ n. IsTabled octets.now start count (take n places.new)) }
{
    let mut at = start;
    let mut kept = 0;
    for _ in 0..count {
        let (record, end) = Record::parse(octets, at)?;
        kept = add(octets, places, kept, at, &record)?;
        at = end;
    }
    Some(kept)
}
