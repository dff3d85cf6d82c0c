//! What the outs of the newest row made of places, the row's event not counted.

ghost use Rattle.std.specs.Prelude.{◌≡◌, OnOk};
ghost use Rattle.trace_tables.specs.frames.Here as plain;

use crate::{Place, Stand};
use client_request::Out;
use dns_base::NoMemory;
use number_table::NumberTable;
use std::alloc::Global;

/// What the outs of the newest row made of places.
pub struct Here {
    /// How places stand that the row's outs opened or closed.
    pub untold: NumberTable<Stand>,
    /// Those that they closed, each with nothing.
    pub closed: NumberTable<()>,
}

impl Drop for Here {
    fn drop(self) {
        let Here {
            untold: _,
            closed: _,
        } = self;
    }
}

impl Here {
    /// Before the first row.
    pub fn new(alloc: Global) -> Here
        ensures { result ≡ plain.nothing }
    {
        Here {
            untold: NumberTable::new(alloc),
            closed: NumberTable::new(alloc),
        }
    }

    /// A row begins.
    pub fn begin(&mut self)
        ensures { self.new ≡ plain.nothing }
    {
        self.untold.clear();
        self.closed.clear();
    }

    /// How a place stands, over the places as they were before the row.
    fn stand(&self, past: &NumberTable<Place>, place: u64) -> Option<Stand>
        ensures { result ≡ plain.stand_at place past.now self.now }
    {
        match self.untold.get(place) {
            Some(stand) => Some(*stand),
            None => match past.get(place) {
                Some(place) => Some(place.stand),
                None => None,
            },
        }
    }

    /// A place is opened.
    fn open(&mut self, past: &NumberTable<Place>, place: u64) -> Result<(), NoMemory>
        ensures { OnOk result (self.new ≡ plain.opens_at place (plain.stand_at place past.now self.old) self.old) }
    {
        if self.stand(past, place).is_some() {
            return Ok(());
        }
        if self.untold.insert(place, Stand::Opening).is_err() {
            return Err(NoMemory);
        }
        Ok(())
    }

    /// A place is closed.
    fn close(&mut self, past: &NumberTable<Place>, place: u64) -> Result<(), NoMemory>
        ensures { OnOk result (self.new ≡ plain.closes_at place (plain.stand_at place past.now self.old) self.old) }
    {
        if self.stand(past, place).is_some() && self.untold.insert(place, Stand::Gone).is_err() {
            return Err(NoMemory);
        }
        if self.closed.insert(place, ()).is_err() {
            return Err(NoMemory);
        }
        Ok(())
    }

    /// An out is put, over the places as they were before the row.
    pub fn put(&mut self, past: &NumberTable<Place>, out: &Out) -> Result<(), NoMemory>
        ensures { OnOk result (self.new ≡ plain.has_put out.now past.now self.old) }
    {
        match out {
            Out::OpenDgram { place, .. } | Out::OpenStream { place, .. } => {
                self.open(past, *place)
            }
            Out::Close { place } => self.close(past, *place),
            _ => Ok(()),
        }
    }

    /// Whether a place was live, the row's event not counted.
    pub fn was_live(&self, past: &NumberTable<Place>, place: u64) -> bool
        ensures { result ≡ plain.was_live_seen place past.now self.now }
    {
        match self.stand(past, place) {
            None => false,
            Some(stand) => !matches!(stand, Stand::Gone),
        }
    }

    /// Whether the newest row closed a place.
    pub fn is_closed(&self, place: u64) -> bool
        ensures { result ≡ plain.closed_seen place self.now }
    {
        self.closed.contains_key(place)
    }
}
