//! Places in a message that a pointer may name, and the first of them at which a suffix stands (RFC 1035 4.1.4).

ghost use Rattle.std.specs.Prelude.{◌≡◌, ◌<◌, ◌∷◌, ℕ, Some, None, false, IsTrue, nat_lt, if◌then◌else◌};
ghost use Rattle.dns_names.specs.Name.{Labels, same_name};
ghost use Rattle.dns_base.specs.Compression as spec;

use dns_names::{LabelIter, ParsedName, are_same_labels};
use std::marker::Model;

/// A place that a pointer can name, below 16384.
#[derive(Clone, Copy)]
pub(crate) struct Place {
    at: u16,
}

impl Model for Place {
    ghost Value = { ℕ };

    ghost view = { λ p. p.at };

    ghost inverse = { λ n. record { at = n } };

    ghost invariant = { λ p. p.at < 16384 };
}

impl Place {
    /// A place, if a pointer can name it.
    pub(crate) fn of(at: usize) -> Option<Place>
        ensures { result ≡ (if nat_lt at 16384 then Some at else None) }
    {
        if at < 16384 {
            Some(Place { at: at as u16 })
        } else {
            None
        }
    }

    pub(crate) fn at(self) -> usize
        ensures { result ≡ self }
    {
        self.at as usize
    }

    /// The two octets of a pointer to it.
    pub(crate) fn pointer(self) -> [u8; 2]
        ensures { result ≡ spec.pointer_to self }
    {
        [192 + (self.at / 256) as u8, (self.at % 256) as u8]
    }
}

/// Whether another label than this one stands at a place: a quick test, which says no where a pointer or the root does.
#[inline(always)]
fn is_other_label(octets: &[u8], place: usize, label: &[u8]) -> bool
    ensures { IsTrue result → (rest : Labels) → spec.stands_at octets.now (label.now ∷ rest) place ≡ false }
{
    let count = match octets.get(place) {
        None => return false,
        Some(count) => *count as usize,
    };
    if count == 0 || count >= 64 || octets.len() - (place + 1) < count {
        return false;
    }
    !label.eq_ignore_ascii_case(&octets[place + 1..place + 1 + count])
}

/// Whether a label and the rest of a name stand at a place, but for case.
#[inline(always)]
fn stands_at(octets: &[u8], place: usize, label: &[u8], rest: &LabelIter<'_>) -> bool
    ensures { result ≡ spec.stands_at octets.now (label.now ∷ rest.now) place }
{
    if is_other_label(octets, place, label) {
        return false;
    }
    match ParsedName::parse(octets, place) {
        None => false,
        Some((name, _)) => is_same_suffix(label, rest, name.labels()),
    }
}

/// Whether a label and the rest of a name are the same as the labels of another, but for case.
#[inline(always)]
fn is_same_suffix(label: &[u8], rest: &LabelIter<'_>, mut labels: LabelIter<'_>) -> bool
    ensures { result ≡ same_name (label.now ∷ rest.now) labels.entry }
{
    match labels.next() {
        None => false,
        Some(first) => label.eq_ignore_ascii_case(first) && are_same_labels(rest.again(), labels),
    }
}

/// The first of some places at which a label and the rest of a name stand.
#[inline(always)]
pub(crate) fn found_at(
    octets: &[u8],
    places: &[Place],
    label: &[u8],
    rest: &LabelIter<'_>,
) -> Option<Place>
    ensures { result ≡ spec.found_at octets.now places.now (label.now ∷ rest.now) }
{
    for place in places {
        if stands_at(octets, place.at(), label, rest) {
            return Some(*place);
        }
    }
    None
}
