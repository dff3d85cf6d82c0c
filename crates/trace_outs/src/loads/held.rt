//! Which ids are held at each stream place, and at which places all are.

ghost use Rattle.std.specs.Prelude.{◌≡◌, OnOk};
ghost use Rattle.trace_tables.specs.frames.Waiting.{id_read};
ghost use Rattle.trace_outs.specs.loads.Held as plain;

use client_request::Out;
use dns_base::{NoMemory, Octets};
use number_table::NumberTable;
use std::alloc::Global;
use trace_tables::frames::Brought;
use trace_tables::sets::{Members, Sets, count, join, leave};

/// What is known of ids.
pub struct Held {
    /// By place, the ids that are held; the frames of the newest row are not counted.
    pub ids: Sets,
    /// The places at which 32768 ids are held, or more.
    pub full: Members,
}

impl Drop for Held {
    fn drop(self) {
        let Held { ids: _, full: _ } = self;
    }
}

/// The id of a frame that has a whole header.
fn id_of(frame: &[u8]) -> Option<u16>
    ensures { result ≡ id_read frame.now }
{
    if frame.len() < 12 {
        return None;
    }
    Some(u16::from_be_bytes([frame[0], frame[1]]))
}

/// A place is noted where all its ids are held.
fn note(places: &mut Members, place: u64, is_full: bool) -> Result<(), NoMemory>
    ensures { OnOk result (places.new ≡ plain.noted place is_full places.old) }
{
    if !is_full {
        places.remove(place);
        return Ok(());
    }
    if places.insert(place, ()).is_err() {
        return Err(NoMemory);
    }
    Ok(())
}

/// A frame frees its id.
fn free(ids: &mut Sets, alloc: Global, place: u64, frame: &[u8]) -> Result<(), NoMemory>
    ensures { OnOk result (ids.new ≡ plain.frees_id place (id_read frame.now) ids.old) }
{
    match id_of(frame) {
        None => Ok(()),
        Some(id) => leave(ids, alloc, place, u64::from(id)),
    }
}

/// Frames free their ids.
fn free_all(ids: &mut Sets, alloc: Global, place: u64, frames: &[Octets]) -> Result<(), NoMemory>
    ensures { OnOk result (ids.new ≡ plain.frees_all place frames.now ids.old) }
{
    for frame in frames {
        free(ids, alloc, place, frame.as_slice())?;
    }
    Ok(())
}

impl Held {
    /// Before the first row.
    pub fn new(alloc: Global) -> Held
        ensures { result ≡ plain.nothing }
    {
        Held {
            ids: NumberTable::new(alloc),
            full: NumberTable::new(alloc),
        }
    }

    /// A place is asked anew.
    fn check(&mut self, place: u64) -> Result<(), NoMemory>
        ensures { OnOk result (self.new ≡ plain.checks place self.old) }
    {
        let is_full = count(&self.ids, place) >= 32_768;
        note(&mut self.full, place, is_full)
    }

    /// A row begins, and what the one before brought frees ids.
    pub fn meet(&mut self, alloc: Global, before: &Option<Brought>) -> Result<(), NoMemory>
        ensures { OnOk result (self.new ≡ plain.met before.now self.old) }
    {
        let Some(brought) = before else {
            return Ok(());
        };
        free_all(
            &mut self.ids,
            alloc,
            brought.place,
            brought.frames.as_slice(),
        )?;
        self.check(brought.place)
    }

    /// Something is written at a place under an id.
    fn hold(&mut self, alloc: Global, place: u64, id: u16) -> Result<(), NoMemory>
        ensures { OnOk result (self.new ≡ plain.holds place id self.old) }
    {
        join(&mut self.ids, alloc, place, u64::from(id))?;
        self.check(place)
    }

    /// An out is put.
    pub fn put(&mut self, alloc: Global, out: &Out) -> Result<(), NoMemory>
        ensures { OnOk result (self.new ≡ plain.has_put out.now self.old) }
    {
        match out {
            Out::Write { place, id, .. } => self.hold(alloc, *place, *id),
            _ => Ok(()),
        }
    }

    /// Whether all ids of a place are held.
    pub fn is_full(&self, place: u64) -> bool
        ensures { result ≡ plain.full_seen place self.now }
    {
        self.full.contains_key(place)
    }
}
