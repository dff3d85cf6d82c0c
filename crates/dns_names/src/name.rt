//! Names in a message.

ghost use Rattle.std.specs.Prelude.{◌≡◌, ◌↔◌, ◌≤◌, length, option_map, IfSome, IfNone, IsSome, IsTrue, ℕ, List, []};
ghost use Rattle.std.specs.Iterator.{YieldsFirstRef, item_count};
ghost use Rattle.dns_names.specs.Name.{head_at, head_end, name_at, labels_at, Labels, walk, labels_within, NextLabel, IsLegal};

use std::marker::Model;

/// What stands at the head of a label.
#[derive(Clone, Copy)]
pub enum Head {
    /// The octet 0: the name ends.
    Root,
    /// A label of so many octets, which follow.
    Label(usize),
    /// The name goes on at this place (RFC 1035 4.1.4).
    Pointer(usize),
}

/// The head of the label at a place, if one stands there.
#[tactic(auto, unfolding(crate::specs::Name::head_at))]
fn head_at(octets: &[u8], at: usize) -> Option<Head>
    ensures value { result ≡ head_at octets.now at }
    ensures within { IfSome result (λ h. head_end at h ≤ length octets.now) }
{
    let n = *octets.get(at)?;
    if n == 0 {
        return Some(Head::Root);
    }
    if n < 64 {
        let count = n as usize;
        if octets.len() - (at + 1) < count {
            return None;
        }
        return Some(Head::Label(count));
    }
    if n < 192 {
        return None;
    }
    let low = *octets.get(at + 1)?;
    let place = (n as usize - 192) * 256 + low as usize;
    if place < at {
        Some(Head::Pointer(place))
    } else {
        None
    }
}

/// The most steps that a name takes: 255 pointers, 127 labels and the root.
const MAX_STEPS: usize = 383;

const MAX_POINTERS: usize = 255;

const MAX_OCTETS: usize = 255;

/// Where the octets after a name stand, if one stands at a place.
pub fn name_end(octets: &[u8], place: usize) -> Option<usize>
    ensures { result ≡ option_map (λ f. f.end) (name_at octets.now place) }
{
    let mut at = place;
    let mut end = None;
    let mut pointers = 0;
    let mut count = 0;
    for _ in 0..MAX_STEPS {
        match head_at(octets, at)? {
            Head::Root => return Some(end.unwrap_or(at + 1)),
            Head::Label(n) => {
                count += 1 + n;
                if count >= MAX_OCTETS {
                    return None;
                }
                at += 1 + n;
            }
            Head::Pointer(target) => {
                if pointers == MAX_POINTERS {
                    return None;
                }
                pointers += 1;
                end = Some(end.unwrap_or(at + 2));
                at = target;
            }
        }
    }
    None
}

/// A name in a message, possibly with pointers.
#[derive(Drop)]
pub struct ParsedName<'a> {
    octets: &'a [u8],
    place: usize,
}

impl<'a> Model for ParsedName<'a> {
    ghost Value = { Labels };

    ghost view = { λ n. labels_at n.octets.now n.place };

    ghost invariant = { λ n. IsSome (name_at n.octets.now n.place) };
}

impl<'a> ParsedName<'a> {
    /// The name at a place, and where the octets after it stand.
    pub fn parse(octets: &'a [u8], place: usize) -> Option<(ParsedName<'a>, usize)>
        ensures value { result ≡ option_map (λ f. (f.labels, f.end)) (name_at octets.now place) }
        ensures within { IfSome result (λ x. x.1 ≤ length octets.now) }
    {
        let end = name_end(octets, place)?;
        Some((ParsedName { octets, place }, end))
    }

    /// The same name again.
    pub fn again(&self) -> ParsedName<'a>
        ensures { result ≡ self.now }
    {
        ParsedName {
            octets: self.octets,
            place: self.place,
        }
    }
}

/// The next label from a place on: where it begins and ends, and the steps that are left.
fn next_label(octets: &[u8], place: usize, steps: usize) -> Option<(usize, usize, usize)>
    requires { IsSome (walk steps octets.now place) }
    ensures none { IfNone result (labels_within steps octets.now place ≡ []) }
    ensures some { IfSome result (λ r. NextLabel steps octets.now place r.0 r.1 r.2) }
{
    let mut at = place;
    let mut left = steps;
    while left > 0 {
        left -= 1;
        match head_at(octets, at)? {
            Head::Root => return None,
            Head::Label(n) => return Some((at + 1, at + 1 + n, left)),
            Head::Pointer(target) => at = target,
        }
    }
    None
}

/// The labels of a name, one by one, the root's left out.
#[derive(Drop)]
pub struct LabelIter<'a> {
    octets: &'a [u8],
    at: usize,
    left: usize,
}

impl<'a> Model for LabelIter<'a> {
    ghost Value = { Labels };

    ghost view = { λ l. labels_within l.left l.octets.now l.at };

    ghost invariant = { λ l. IsSome (walk l.left l.octets.now l.at) };
}

impl<'a> LabelIter<'a> {
    /// The same labels again.
    pub fn again(&self) -> LabelIter<'a>
        ensures { result ≡ self.now }
    {
        LabelIter {
            octets: self.octets,
            at: self.at,
            left: self.left,
        }
    }
}

impl<'a> Iterator for LabelIter<'a> {
    type Item = &'a [u8];

    ghost next_gives = { YieldsFirstRef (λ l. l) };

    ghost remaining = { item_count (λ l. l) };

    fn next(&mut self) -> Option<&'a [u8]> {
        let (from, to, left) = next_label(self.octets, self.at, self.left)?;
        self.at = to;
        self.left = left;
        Some(&self.octets[from..to])
    }
}

impl<'a> ParsedName<'a> {
    /// The name at the start of octets that hold one.
    pub(crate) fn at_start(octets: &'a [u8]) -> ParsedName<'a>
        requires { IsSome (name_at octets.now 0) }
        ensures { result ≡ labels_at octets.now 0 }
    {
        ParsedName { octets, place: 0 }
    }

    /// Its labels in order, without the root's.
    pub fn labels(&self) -> LabelIter<'a>
        ensures all { result ≡ self.now }
        ensures legal { IsLegal self.now }
    {
        LabelIter {
            octets: self.octets,
            at: self.place,
            left: MAX_STEPS,
        }
    }

    /// Whether it has no labels.
    pub fn is_root(&self) -> bool
        ensures { IsTrue result ↔ (self.now ≡ []) }
    {
        self.labels().next().is_none()
    }
}
