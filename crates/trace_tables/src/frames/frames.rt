//! What came at places: the frames of the newest row, and what is read of the next ones.

ghost use Rattle.std.specs.Prelude.{◌≡◌, ◌∷◌, [], IfOk, OnOk, option_copied, take};
ghost use Rattle.right_trace.specs.Frames.{received};
ghost use Rattle.trace_tables.specs.frames.Frames as plain;

use crate::frames::framing::Framing;
use crate::{Place, Stand, same_via};
use client_request::{Via, What};
use dns_base::{NoMemory, Octets, Seq};
use number_table::NumberTable;
use std::alloc::Global;

/// What the newest row's event brought to a place.
pub struct Brought {
    pub place: u64,
    pub frames: Seq<Octets>,
}

impl Drop for Brought {
    fn drop(self) {
        let Brought {
            place: _,
            frames: _,
        } = self;
    }
}

/// What came at places.
pub struct Frames {
    /// What is read of the next frame, by place.
    pub readings: NumberTable<Framing>,
    /// What the newest row's event brought.
    pub brought: Option<Brought>,
}

impl Drop for Frames {
    fn drop(self) {
        let Frames {
            readings: _,
            brought: _,
        } = self;
    }
}

/// Whether a place is alive and of this kind.
fn is_open(place: Option<&Place>, via: Via) -> bool
    ensures { result ≡ plain.is_open via (option_copied place.entry) }
{
    match place {
        None => false,
        Some(place) => matches!(place.stand, Stand::Alive) && same_via(place.via, via),
    }
}

/// The octets of a datagram that are read, so many at most.
#[tactic(auto, using(crate::proofs::lemmas::frames::Feeding::take_short))]
fn cut(most: usize, octets: &Octets) -> Result<Octets, NoMemory>
    ensures { IfOk result (λ o. o ≡ take most octets.now) }
{
    if octets.as_slice().len() > most {
        return octets.truncated(most);
    }
    let whole = octets.try_clone()?;
    Ok(whole)
}

/// What is read of datagrams, so many octets of each at most, where a header is left.
pub fn received(alloc: Global, most: usize, datagrams: &[Octets]) -> Result<Seq<Octets>, NoMemory>
    ensures { IfOk result (λ read. read ≡ received most datagrams.now) }
{
    let mut read = Seq::new(alloc);
    for octets in datagrams {
        let cut = cut(most, octets)?;
        if cut.as_slice().len() >= 12 {
            read.push(cut)?;
        }
    }
    Ok(read)
}

/// The one of these.
fn one(alloc: Global, octets: Octets) -> Result<Seq<Octets>, NoMemory>
    ensures { IfOk result (λ s. s ≡ octets ∷ []) }
{
    let mut frames = Seq::new(alloc);
    frames.push(octets)?;
    Ok(frames)
}

impl Frames {
    /// Before the first row.
    pub fn new(alloc: Global) -> Frames
        ensures { result ≡ plain.nothing }
    {
        Frames {
            readings: NumberTable::new(alloc),
            brought: None,
        }
    }

    /// A datagram comes.
    fn meet_datagram(
        &mut self,
        alloc: Global,
        place: u64,
        octets: &Octets,
        is_open: bool,
    ) -> Result<(), NoMemory>
        ensures { OnOk result (self.new ≡ plain.datagram_at place octets.now is_open self.old) }
    {
        self.brought = None;
        if is_open {
            let frames = one(alloc, octets.try_clone()?)?;
            self.brought = Some(Brought { place, frames });
        }
        Ok(())
    }

    /// Octets of a stream come.
    fn meet_octets(
        &mut self,
        alloc: Global,
        place: u64,
        octets: &Octets,
        is_open: bool,
    ) -> Result<(), NoMemory>
        ensures { OnOk result (self.new ≡ plain.bytes_at place octets.now is_open self.old) }
    {
        self.brought = None;
        if !is_open {
            return Ok(());
        }
        let mut framing = match self.readings.remove(place) {
            Some(framing) => framing,
            None => Framing::new(alloc),
        };
        let frames = framing.feed(alloc, octets.as_slice())?;
        if self.readings.insert(place, framing).is_err() {
            return Err(NoMemory);
        }
        self.brought = Some(Brought { place, frames });
        Ok(())
    }

    /// An event comes, over the places as they were.
    pub fn meet(
        &mut self,
        alloc: Global,
        places: &NumberTable<Place>,
        what: &What,
    ) -> Result<(), NoMemory>
        ensures { OnOk result (self.new ≡ plain.met what.now places.now self.old) }
    {
        match what {
            What::Datagram { place, octets } => {
                let is_open = is_open(places.get(*place), Via::Dgram);
                self.meet_datagram(alloc, *place, octets, is_open)
            }
            What::Bytes { place, octets } => {
                let is_open = is_open(places.get(*place), Via::Stream);
                self.meet_octets(alloc, *place, octets, is_open)
            }
            _ => {
                self.brought = None;
                Ok(())
            }
        }
    }
}
