//! All that is known of a trace so far.

ghost use Rattle.std.specs.Prelude.{◌≡◌, OnOk};
ghost use Rattle.trace_tables.specs.Books as plain;

use crate::places::{Place, meet, put};
use crate::requests::Requests;
use crate::sends::Sends;
use client_request::{Event, Out, Row, What};
use dns_base::NoMemory;
use number_table::NumberTable;
use std::alloc::Global;

/// What is known so far.
pub struct Books {
    pub places: NumberTable<Place>,
    pub requests: Requests,
    pub sends: Sends,
}

impl Drop for Books {
    fn drop(self) {
        let Books {
            places: _,
            requests: _,
            sends: _,
        } = self;
    }
}

impl Books {
    /// Before the first row.
    pub fn new(alloc: Global) -> Books
        ensures { result ≡ plain.nothing }
    {
        Books {
            places: NumberTable::new(alloc),
            requests: Requests::new(alloc),
            sends: Sends::new(alloc),
        }
    }

    /// An event comes.
    pub fn meet(&mut self, alloc: Global, event: &Event) -> Result<(), NoMemory>
        ensures { OnOk result (self.new ≡ plain.met event.now self.old) }
    {
        meet(&mut self.places, &event.what)?;
        self.requests.meet(alloc, event)
    }

    /// An out is put, in a row with this event.
    pub fn put(&mut self, alloc: Global, what: &What, out: &Out) -> Result<(), NoMemory>
        ensures { OnOk result (self.new ≡ plain.has_put what.now out.now self.old) }
    {
        self.sends
            .put(alloc, &self.places, self.requests.clock, out)?;
        put(&mut self.places, what, out)?;
        self.requests.put(alloc, out)
    }

    /// The outs of a row are put.
    fn put_all(&mut self, alloc: Global, what: &What, outs: &[Out]) -> Result<(), NoMemory>
        ensures { OnOk result (self.new ≡ plain.have_put what.now outs.now self.old) }
    {
        for out in outs {
            self.put(alloc, what, out)?;
        }
        Ok(())
    }

    /// A row is taken.
    pub fn take(&mut self, alloc: Global, row: &Row) -> Result<(), NoMemory>
        ensures { OnOk result (self.new ≡ plain.after_row row.now self.old) }
    {
        self.meet(alloc, &row.event)?;
        self.put_all(alloc, &row.event.what, row.outs.as_slice())
    }
}
