//! The names in a message, by their labels from the last on, each with the first places of its suffixes.

ghost use Rattle.std.specs.Prelude.{◌≡◌, ◌≤◌, ◌<◌, ◌+◌, ◌-◌, ◌++◌, ◌∷◌, [], ℕ, List, length, take, drop, map, replicate, Some, None, IfOk, OnOk, IsTrue};
ghost use Rattle.std.specs.Char.{to_ascii_lowercase};
ghost use Rattle.std.specs.List.{AllByRecursion};
ghost use Rattle.dns_names.specs.Name.{Labels, IsLabel};
ghost use Rattle.dns_base.specs.Suffixes.{AreFirsts, AreRun, Finds, IsCommon, IsIndex, IsKnown, IsPlaceOf, IsShared, Rise, Shares, at_most, first_of, from_end, name_key, read_at, spelled, tail};

use crate::place::{Place, found_at};
use dns_names::{LabelIter, ParsedName};
use dns_values::NoMemory;
use std::alloc::Global;

/// A key has no more octets: those of a name but for the root's.
const KEY_ROOM: usize = 254;

/// So many octets of two keys are compared at once.
const GROUP: usize = 32;

/// Appends a label's length, and the label in lower case.
fn put_lowered(key: &mut Vec<u8>, label: &[u8]) -> Result<(), NoMemory>
    requires { length label.now < 64 }
    ensures { OnOk result (key.new.items ≡ key.old.items ++ (length label.now ∷ map to_ascii_lowercase label.now)) }
{
    key.push(label.len() as u8)?;
    for octet in label {
        key.push(octet.to_ascii_lowercase())?;
    }
    Ok(())
}

/// Appends labels, the last of them first.
fn put_key(key: &mut Vec<u8>, mut labels: LabelIter<'_>) -> Result<(), NoMemory>
    requires { AllByRecursion IsLabel labels }
    ensures { OnOk result (key.new.items ≡ key.old.items ++ name_key labels.entry) }
{
    match labels.next() {
        None => Ok(()),
        Some(label) => {
            put_key(key, labels)?;
            put_lowered(key, label)
        }
    }
}

/// What a name is found by: its labels from the last to the first, each behind its length, in lower case.
pub(crate) fn key_of(alloc: Global, name: &ParsedName<'_>) -> Result<Vec<u8>, NoMemory>
    ensures { IfOk result (λ key. key.items ≡ name_key name.now) }
{
    let mut key = Vec::with_capacity(alloc, KEY_ROOM)?;
    put_key(&mut key, name.labels())?;
    Ok(key)
}

/// How many labels a name has.
pub(crate) fn label_count(name: &ParsedName<'_>) -> usize
    ensures { result ≡ length name.now }
{
    name.labels().count()
}

/// Whether a key is not behind another.
fn is_at_most(key: &[u8], other: &[u8]) -> bool
    ensures { result ≡ at_most key.now other.now }
{
    if key.len() >= GROUP && other.starts_with(&key[..GROUP]) {
        return is_at_most(&key[GROUP..], &other[GROUP..]);
    }
    key <= other
}

/// How many labels two keys have in common at their beginning.
fn shared_labels(key: &[u8], other: &[u8]) -> usize
    ensures few { result ≤ length key.now }
    ensures common { (a b : Labels) → key.now ≡ spelled a → other.now ≡ spelled b → IsCommon a b result }
{
    let count = match key.first() {
        None => return 0,
        Some(count) => *count as usize,
    };
    let end = 1 + count;
    if key.len() < end || !other.starts_with(&key[..end]) {
        return 0;
    }
    1 + shared_labels(&key[end..], &other[end..])
}

/// A name: its key, and the first place of each of its suffixes, the longest first.
#[derive(Drop)]
struct Known {
    key: Vec<u8>,
    firsts: Vec<Option<Place>>,
}

impl Known {
    /// The first places of the suffixes that it has in common with the name of a key.
    fn shared(&self, key: &[u8]) -> &[Option<Place>]
        ensures { (octets places : List ℕ) (labels : Labels) → IsKnown octets places self.now → key.now ≡ name_key labels → IsShared octets places labels (self.now ∷ []) result.now }
    {
        let count = shared_labels(key, &self.key);
        &self.firsts[self.firsts.len().saturating_sub(count)..]
    }
}

/// Whether a label stands at a place, and another place is the one behind it.
fn is_next(octets: &[u8], place: usize, next: usize) -> bool
    ensures { IsTrue result → (labels : Labels) → read_at octets.now place ≡ Some labels → read_at octets.now next ≡ Some (tail labels) }
{
    match octets.get(place) {
        None => false,
        Some(count) => *count > 0 && *count < 64 && next == place + 1 + *count as usize,
    }
}

/// How many of the places behind that of a name of so many labels are those of its suffixes, each one label shorter.
fn run_length(octets: &[u8], place: usize, labels: usize, behind: &[Place]) -> usize
    ensures few { result ≤ length behind.now }
    ensures run { (name : Labels) → read_at octets.now place ≡ Some name → labels ≡ length name → AreRun octets.now (take result behind.now) (tail name) }
{
    match behind.first() {
        Some(next) if labels > 1 && is_next(octets, place, next.at()) => {
            1 + run_length(octets, next.at(), labels - 1, &behind[1..])
        }
        _ => 0,
    }
}

/// The first places of the suffixes of a name: of the longest these, of the shortest those that it shares, and none between.
fn joined_firsts(
    alloc: Global,
    count: usize,
    run: &[Place],
    shared: &[Option<Place>],
) -> Result<Vec<Option<Place>>, NoMemory>
    requires { length run.now + length shared.now ≤ count }
    ensures { IfOk result (λ firsts. firsts.items ≡ map Some run.now ++ (replicate (count - length shared.now - length run.now) None ++ shared.now)) }
{
    let mut firsts = Vec::with_capacity(alloc, count)?;
    for place in run {
        firsts.push(Some(*place))?;
    }
    firsts.resize(count - shared.len(), None)?;
    firsts.extend_from_slice(shared)?;
    Ok(firsts)
}

/// The first place of the suffix of so many labels, of which the longest may have none.
fn first_at(firsts: &[Option<Place>], labels: usize) -> Option<Place>
    ensures { result ≡ from_end firsts.now labels }
{
    if firsts.len() < labels {
        return None;
    }
    match firsts.get(firsts.len() - labels) {
        Some(first) => *first,
        None => None,
    }
}

/// The first place of the suffix of so many labels by the first of two lists, or else by the second.
fn first_found(known: &[Option<Place>], recent: &[Option<Place>], labels: usize) -> Option<Place>
    ensures { result ≡ first_of (from_end known.now labels) (from_end recent.now labels) }
{
    match first_at(known, labels) {
        Some(place) => Some(place),
        None => first_at(recent, labels),
    }
}

/// Where the suffixes of a name first stand: by two tables, the second of places behind those in the first, or else at places in
/// neither.
#[derive(Drop)]
pub(crate) struct Search<'a> {
    pub(crate) octets: &'a [u8],
    pub(crate) known: &'a [Option<Place>],
    pub(crate) recent: &'a [Option<Place>],
    pub(crate) others: &'a [Place],
}

impl<'a> Search<'a> {
    /// The first place of a suffix of so many labels.
    pub(crate) fn first(&self, labels: usize, label: &[u8], rest: &LabelIter<'_>) -> Option<Place>
        requires { labels ≡ length (label.now ∷ rest.now) }
        ensures { Finds self.now.octets.now (label.now ∷ rest.now) self.now.known.now self.now.recent.now self.now.others.now result }
    {
        match first_found(self.known, self.recent, labels) {
            Some(place) => Some(place),
            None => found_at(self.octets, self.others, label, rest),
        }
    }
}

/// The names at the first places of a message, in the order of their keys: the names that share the longest suffix with a name
/// are next to where it would stand.
#[derive(Drop)]
pub(crate) struct Suffixes {
    names: Vec<Known>,
    /// How many octets the names are read from.
    octets: usize,
    /// How many places are in the table.
    places: usize,
    alloc: Global,
}

impl Suffixes {
    /// Of no places.
    pub(crate) fn new(alloc: Global) -> Suffixes
        ensures { (octets places : List ℕ) → IsIndex result octets places }
    {
        Suffixes {
            names: Vec::new(alloc),
            octets: 0,
            places: 0,
            alloc,
        }
    }

    /// How many places are in the table.
    pub(crate) fn count(&self) -> usize
        ensures { result ≡ self.now.places }
    {
        self.places
    }

    /// How many of the names are not behind a key.
    fn place_of(&self, key: &[u8]) -> usize
        requires { Rise self.now.names.items }
        ensures { IsPlaceOf key.now self.now.names.items result }
    {
        self.names
            .partition_point(|known| is_at_most(&known.key, key))
    }

    /// The first places of the suffixes that a name shares with another, if one is at this place.
    fn shared_at(&self, at: usize, key: &[u8]) -> &[Option<Place>]
        ensures { Shares key.now self.now.names.items (take 1 (drop at self.now.names.items)) result.now }
    {
        match self.names.get(at) {
            None => &[],
            Some(known) => known.shared(key),
        }
    }

    /// The first places of the suffixes that the name of a key has in common with the names, of which so many are not behind it.
    fn shared_around(&self, at: usize, key: &[u8]) -> &[Option<Place>]
        requires rise { Rise self.now.names.items }
        requires place { IsPlaceOf key.now self.now.names.items at }
        ensures { Shares key.now self.now.names.items self.now.names.items result.now }
    {
        let behind = self.shared_at(at, key);
        if at == 0 {
            return behind;
        }
        let before = self.shared_at(at - 1, key);
        if before.len() < behind.len() {
            behind
        } else {
            before
        }
    }

    /// The first places of the suffixes that the name of a key has in common with the names.
    pub(crate) fn firsts_of(&self, key: &[u8]) -> &[Option<Place>]
        requires { Rise self.now.names.items }
        ensures { (octets places : List ℕ) (labels : Labels) → IsIndex self.now octets places → key.now ≡ name_key labels → AreFirsts octets (take self.now.places places) labels result.now }
    {
        self.shared_around(self.place_of(key), key)
    }

    /// Takes in the next place, and those behind it that are of the same name, if a name is read there that shares none of
    /// these suffixes with those in the table.
    fn take_run(&mut self, octets: &[u8], places: &[Place]) -> Result<bool, NoMemory>
        requires index { IsIndex self.old octets.now places.now }
        requires whole { self.old.octets ≡ length octets.now }
        requires more { self.old.places < length places.now }
        ensures index { IsIndex self.new octets.now places.now }
        ensures whole { self.new.octets ≡ self.old.octets }
        ensures further { IfOk result (λ taken. IsTrue taken → self.old.places < self.new.places) }
    {
        let behind = &places[self.places..];
        let name = match ParsedName::parse(octets, behind[0].at()) {
            None => return Ok(false),
            Some((name, _)) => name,
        };
        let count = label_count(&name);
        let key = key_of(self.alloc, &name)?;
        let at = self.place_of(&key);
        let shared = self.shared_around(at, &key);
        let run = 1 + run_length(octets, behind[0].at(), count, &behind[1..]);
        if count < shared.len() + run {
            return Ok(false);
        }
        let firsts = joined_firsts(self.alloc, count, &behind[..run], shared)?;
        self.names.insert(at, Known { key, firsts })?;
        self.places += run;
        Ok(true)
    }

    /// Takes in the places that are not in the table yet, up to one at which no name is read.
    pub(crate) fn take_in(&mut self, octets: &[u8], places: &[Place]) -> Result<(), NoMemory>
        requires { IsIndex self.old octets.now places.now }
        ensures { IsIndex self.new octets.now places.now }
    {
        self.octets = octets.len();
        while self.places < places.len() {
            if !self.take_run(octets, places)? {
                break;
            }
        }
        Ok(())
    }

    /// Forgets all, unless its names are read from the first so many octets, and its places are among the first so many.
    pub(crate) fn keep_within(&mut self, octets: usize, places: usize)
        ensures { (a b p q : List ℕ) → IsIndex self.old a p → take octets a ≡ take octets b → take places p ≡ take places q → IsIndex self.new b q }
    {
        if octets < self.octets || places < self.places {
            self.names.clear();
            self.octets = 0;
            self.places = 0;
        }
    }
}
