//! Octets of a message that are written, with their names compressed (RFC 1035 4.1.4).

ghost use Rattle.std.specs.Prelude.{◌≡◌, ◌+◌, ◌≤◌, ◌<◌, ◌^◌, ◌++◌, [], length, take, drop, replicate, OnOk, IfOk};
ghost use Rattle.std.specs.Int.{w16, w32, to_be_bytes};
ghost use Rattle.dns_names.specs.Name.{IsLegal};
ghost use Rattle.dns_base.specs.Compression as spec;
ghost use Rattle.dns_base.specs.Data.{data_spelling};
ghost use Rattle.dns_base.specs.Holding.{IsWritableData};
ghost use Rattle.dns_base.specs.RecordData.{data_view};
ghost use Rattle.dns_base.specs.Suffixes.{IsIndex, lead_count, lead_place};

use crate::header::Header;
use crate::place::{Place, found_at};
use crate::record_data::RecordData;
use crate::spelling::put_data;
use crate::suffixes::{Search, Suffixes, key_of, label_count};
use dns_names::ParsedName;
use dns_values::NoMemory;
use std::alloc::Global;
use std::marker::Model;

/// The octets of a message so far, and the places among them that a pointer may name: those of the labels that names
/// with compression wrote out.
#[derive(Drop)]
pub(crate) struct Compressor {
    octets: Vec<u8>,
    places: Vec<Place>,
    /// The suffixes at the places of the entries before the last, where there are many.
    known: Suffixes,
    alloc: Global,
}

impl Model for Compressor {
    ghost use Rattle.dns_base.specs.Compression as spec;
    ghost use Rattle.dns_base.specs.Suffixes.{IsIndex};

    ghost Value = { spec.Compressed };

    ghost view = { λ c. record { octets = c.octets.items; places = c.places.items } };

    ghost invariant = { λ c. IsIndex c.known c.octets.items c.places.items };
}

/// So few places are looked through one by one, which costs less than a table of them.
const FEW_PLACES: usize = 16;

/// So few places of the entry that is being written are looked through for each suffix, beside a table of those before it.
const FEW_NEW_PLACES: usize = 4;

/// Writes how many octets stand behind a place and the two octets there over these two.
fn write_count(octets: &mut Vec<u8>, at: usize)
    requires long { at + 2 ≤ length octets.old.items }
    requires few { spec.count_behind at octets.old.items < 65536 }
    ensures { octets.new.items ≡ take at octets.old.items ++ (to_be_bytes w16 (spec.count_behind at octets.old.items) ++ drop (at + 2) octets.old.items) }
{
    let count = (octets.len() - (at + 2)) as u16;
    octets[at..at + 2].copy_from_slice(&count.to_be_bytes());
}

/// A name of no more labels has so few suffixes.
const FEW_LABELS: usize = 8;

/// The suffixes at places, where they are more than a few or a name of so many labels is long, or else of none of them.
fn recent_suffixes(
    alloc: Global,
    octets: &[u8],
    places: &[Place],
    labels: usize,
) -> Result<Suffixes, NoMemory>
    ensures { IfOk result (λ suffixes. IsIndex suffixes octets.now places.now) }
{
    let mut suffixes = Suffixes::new(alloc);
    if places.len() > FEW_NEW_PLACES || labels > FEW_LABELS && places.len() > 0 {
        suffixes.take_in(octets, places)?;
    }
    Ok(suffixes)
}

/// How a name is written: so many of its labels, and then a pointer to a place or the root.
#[derive(Clone, Copy)]
struct Lead {
    labels: usize,
    place: Option<Place>,
}

impl Compressor {
    /// Appends octets.
    #[tactic(auto, unfolding(crate::specs::Compression::with_octets))]
    pub(crate) fn put_octets(&mut self, more: &[u8]) -> Result<(), NoMemory>
        ensures ok { OnOk result (self.new ≡ spec.with_octets more.now self.old) }
        ensures kept { spec.Continues self.old self.new }
    {
        self.octets.extend_from_slice(more)?;
        Ok(())
    }

    /// Remembers the place behind the last octet, if a pointer can name it.
    fn remember_end(&mut self) -> Result<(), NoMemory>
        ensures ok { OnOk result (self.new ≡ record self.old { places = self.old.places ++ spec.remembered (length self.old.octets) [] }) }
        ensures kept { spec.Continues self.old self.new }
    {
        if let Some(place) = Place::of(self.octets.len()) {
            self.places.push(place)?;
        }
        Ok(())
    }

    /// Appends a label, and remembers its place.
    #[inline(always)]
    #[tactic(auto, unfolding(crate::specs::Compression::with_label, crate::specs::Compression::with_octets))]
    fn put_label(&mut self, label: &[u8]) -> Result<(), NoMemory>
        requires { length label.now < 64 }
        ensures ok { OnOk result (self.new ≡ spec.with_label label.now self.old) }
        ensures kept { spec.Continues self.old self.new }
    {
        self.remember_end()?;
        self.put_octets(&[label.len() as u8])?;
        self.put_octets(label)
    }

    /// Appends data, with its names spelled out.
    #[tactic(auto, unfolding(crate::specs::Compression::with_octets))]
    pub(crate) fn put_spelled(&mut self, rdata: &RecordData<'_>) -> Result<(), NoMemory>
        ensures ok { OnOk result (self.new ≡ spec.with_octets (data_spelling (data_view rdata.now)) self.old) }
        ensures kept { spec.Continues self.old self.new }
        ensures writable { OnOk result (IsWritableData (data_view rdata.now)) }
    {
        put_data(&mut self.octets, rdata)
    }

    /// Takes the places that are remembered into the table, where there are many. No length of data may be open: it would be
    /// written over octets that the table was made of.
    pub(crate) fn take_in(&mut self) -> Result<(), NoMemory>
        ensures { self.new ≡ self.old }
    {
        if self.places.len() > FEW_PLACES {
            self.known.take_in(&self.octets, &self.places)?;
        }
        Ok(())
    }

    /// Appends a name, compressed.
    pub(crate) fn put_name(&mut self, name: &ParsedName<'_>) -> Result<(), NoMemory>
        ensures ok { OnOk result (self.new ≡ spec.with_name name.now self.old) }
        ensures kept { spec.Continues self.old self.new }
        ensures legal { IsLegal name.now }
    {
        if self.places.len() <= FEW_PLACES {
            return self.put_among_few(name);
        }
        self.put_among_many(name)
    }

    /// Appends a name, each suffix of which is looked for at one place after the other.
    #[inline(always)]
    fn put_among_few(&mut self, name: &ParsedName<'_>) -> Result<(), NoMemory>
        ensures ok { OnOk result (self.new ≡ spec.with_name name.now self.old) }
        ensures kept { spec.Continues self.old self.new }
        ensures legal { IsLegal name.now }
    {
        let from = self.octets.len();
        let known = self.places.len();
        let mut labels = name.labels();
        'labels: loop {
            match labels.next() {
                None => return self.put_octets(&[0]),
                Some(label) => {
                    if let Some(place) = found_at(
                        &self.octets[..from],
                        &self.places[..known],
                        label,
                        &labels,
                    ) {
                        return self.put_octets(&place.pointer());
                    }
                    self.put_label(label)?;
                }
            }
        }
    }

    /// How a name is written, by the tables.
    fn lead_of(&self, name: &ParsedName<'_>) -> Result<Lead, NoMemory>
        ensures count { IfOk result (λ lead. lead.labels ≡ lead_count self.now name.now) }
        ensures place { IfOk result (λ lead. lead.place ≡ lead_place self.now name.now) }
    {
        let key = key_of(self.alloc, name)?;
        let count = label_count(name);
        let behind = &self.places[self.known.count()..];
        let recent = recent_suffixes(self.alloc, &self.octets, behind, count)?;
        let search = Search {
            octets: &self.octets,
            known: self.known.firsts_of(&key),
            recent: recent.firsts_of(&key),
            others: &behind[recent.count()..],
        };
        let mut left = count;
        let mut labels = name.labels();
        'labels: loop {
            match labels.next() {
                None => {
                    return Ok(Lead {
                        labels: count,
                        place: None,
                    });
                }
                Some(label) => {
                    if let Some(place) = search.first(left, label, &labels) {
                        return Ok(Lead {
                            labels: count - left,
                            place: Some(place),
                        });
                    }
                    left -= 1;
                }
            }
        }
    }

    /// Appends a name, each suffix of which is looked for by the tables.
    #[inline(never)]
    fn put_among_many(&mut self, name: &ParsedName<'_>) -> Result<(), NoMemory>
        ensures ok { OnOk result (self.new ≡ spec.with_name name.now self.old) }
        ensures kept { spec.Continues self.old self.new }
        ensures legal { IsLegal name.now }
    {
        let mut labels = name.labels();
        let lead = self.lead_of(name)?;
        let mut left = lead.labels;
        'labels: loop {
            if left == 0 {
                return match lead.place {
                    None => self.put_octets(&[0]),
                    Some(place) => self.put_octets(&place.pointer()),
                };
            }
            match labels.next() {
                None => return self.put_octets(&[0]),
                Some(label) => self.put_label(label)?,
            }
            left -= 1;
        }
    }
}

/// Room for so many octets is taken at first: most queries need no more.
const FIRST_ROOM: usize = 64;

impl Compressor {
    /// Twelve zero octets.
    pub(crate) fn new(alloc: Global) -> Result<Compressor, NoMemory>
        ensures { IfOk result (λ c. c ≡ record { octets = replicate 12 0; places = [] }) }
    {
        let mut octets = Vec::with_capacity(alloc, FIRST_ROOM)?;
        octets.extend_from_slice(&[0; 12])?;
        Ok(Compressor {
            octets,
            places: Vec::with_capacity(alloc, FEW_PLACES)?,
            known: Suffixes::new(alloc),
            alloc,
        })
    }

    /// How many octets it has.
    pub(crate) fn len(&self) -> usize
        ensures count { result ≡ length self.now.octets }
        ensures few { length self.now.octets < 2 ^ 63 }
    {
        self.octets.len()
    }

    /// How many places it remembers.
    pub(crate) fn place_count(&self) -> usize
        ensures { result ≡ length self.now.places }
    {
        self.places.len()
    }

    /// Drops what stands behind so many octets and so many places.
    pub(crate) fn back_to(&mut self, octets: usize, places: usize)
        ensures { self.new ≡ record { octets = take octets self.old.octets; places = take places self.old.places } }
    {
        self.known.keep_within(octets, places);
        self.octets.truncate(octets);
        self.places.truncate(places);
    }

    /// Writes a header over the first four octets.
    pub(crate) fn put_header(&mut self, header: Header)
        requires { 4 ≤ length self.old.octets }
        ensures { self.new ≡ record self.old { octets = header ++ drop 4 self.old.octets } }
    {
        self.known.keep_within(0, 0);
        header.put_over(&mut self.octets);
    }

    /// Its octets.
    pub(crate) fn into_octets(self) -> Vec<u8>
        ensures { result.items ≡ self.octets }
    {
        self.octets
    }

    /// Appends two octets, the highest first.
    pub(crate) fn put_u16(&mut self, n: u16) -> Result<(), NoMemory>
        ensures ok { OnOk result (self.new ≡ spec.with_octets (to_be_bytes w16 n) self.old) }
        ensures kept { spec.Continues self.old self.new }
        ensures range { n < 2 ^ 16 }
    {
        self.put_octets(&n.to_be_bytes())
    }

    /// Appends four octets, the highest first.
    pub(crate) fn put_u32(&mut self, n: u32) -> Result<(), NoMemory>
        ensures ok { OnOk result (self.new ≡ spec.with_octets (to_be_bytes w32 n) self.old) }
        ensures kept { spec.Continues self.old self.new }
        ensures range { n < 2 ^ 32 }
    {
        self.put_octets(&n.to_be_bytes())
    }

    /// Writes how many octets stand behind a place and the two octets there over these two.
    #[tactic(auto, unfolding(crate::specs::Compression::counted))]
    pub(crate) fn put_count(&mut self, at: usize)
        requires long { at + 2 ≤ length self.old.octets }
        requires few { spec.count_behind at self.old.octets < 65536 }
        ensures { self.new ≡ spec.counted at self.old }
    {
        self.known.keep_within(at, self.places.len());
        write_count(&mut self.octets, at);
    }
}
