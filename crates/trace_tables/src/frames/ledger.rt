//! All that is known of a trace so far.

ghost use Rattle.std.specs.Prelude.{◌≡◌, OnOk};
ghost use Rattle.trace_tables.specs.frames.Ledger as plain;

use crate::Books;
use crate::frames::frames::Frames;
use crate::frames::waiting::{Waiting, meet_frames, put_write};
use client_request::{Event, Out, Row, What};
use dns_base::NoMemory;
use number_table::NumberTable;
use std::alloc::Global;

/// What is known so far.
pub struct Ledger {
    /// Places, requests, and what was sent by datagrams.
    pub books: Books,
    /// What came.
    pub frames: Frames,
    /// What was written to streams.
    pub waiting: Waiting,
}

impl Drop for Ledger {
    fn drop(self) {
        let Ledger {
            books: _,
            frames: _,
            waiting: _,
        } = self;
    }
}

impl Ledger {
    /// Before the first row.
    pub fn new(alloc: Global) -> Ledger
        ensures { result ≡ plain.nothing }
    {
        Ledger {
            books: Books::new(alloc),
            frames: Frames::new(alloc),
            waiting: NumberTable::new(alloc),
        }
    }

    /// An event comes.
    pub fn meet(&mut self, alloc: Global, event: &Event) -> Result<(), NoMemory>
        ensures { OnOk result (self.new ≡ plain.met event.now self.old) }
    {
        meet_frames(&mut self.waiting, alloc, &self.frames.brought)?;
        self.frames.meet(alloc, &self.books.places, &event.what)?;
        self.books.meet(alloc, event)
    }

    /// An out is put, in a row with this event.
    pub fn put(&mut self, alloc: Global, what: &What, out: &Out) -> Result<(), NoMemory>
        ensures { OnOk result (self.new ≡ plain.has_put what.now out.now self.old) }
    {
        put_write(&mut self.waiting, alloc, self.books.requests.clock, out)?;
        self.books.put(alloc, what, out)
    }

    /// The outs of a row are put.
    fn put_all(&mut self, alloc: Global, what: &What, outs: &[Out]) -> Result<(), NoMemory>
        ensures { OnOk result (self.new ≡ plain.have_put what.now outs.now self.old) }
    {
        for out in outs {
            self.put(alloc, what, out)?;
        }
        Ok(())
    }

    /// A row is taken.
    pub fn take(&mut self, alloc: Global, row: &Row) -> Result<(), NoMemory>
        ensures { OnOk result (self.new ≡ plain.after_row row.now self.old) }
    {
        self.meet(alloc, &row.event)?;
        self.put_all(alloc, &row.event.what, row.outs.as_slice())
    }
}
