//! What is known at a point of a trace, but for what replies gave.

ghost use Rattle.std.specs.Prelude.{◌≡◌, OnOk};
ghost use Rattle.trace_judge.specs.Tables as plain;

use client_request::{Event, Out, What};
use dns_base::NoMemory;
use number_table::NumberTable;
use std::alloc::Global;
use trace_errors::owed::{Exchanged, put_exchange};
use trace_outs::busy::{Backs, Waits, meet_backs, note_used, put_backs};
use trace_outs::loads::{Held, Loads};
use trace_points::pass::Pass;
use trace_points::questions::TraceConf;

/// What is known at a point of a trace.
pub struct Tables {
    pub pass: Pass,
    /// Live places of servers, and who waits there.
    pub loads: Loads,
    /// Ids that are held at streams.
    pub held: Held,
    /// Which requests wait.
    pub waits: Waits,
    /// When requests by stream began to back off.
    pub backs: Backs,
    /// Where requests were sent or written.
    pub exchanged: Exchanged,
}

impl Drop for Tables {
    fn drop(self) {
        let Tables {
            pass: _,
            loads: _,
            held: _,
            waits: _,
            backs: _,
            exchanged: _,
        } = self;
    }
}

impl Tables {
    /// Before the first row. It is said whether nothing is deferred.
    pub fn new(alloc: Global, exact: bool) -> Tables
        ensures { result ≡ plain.nothing exact }
    {
        Tables {
            pass: Pass::new(alloc),
            loads: Loads::new(alloc, exact),
            held: Held::new(alloc),
            waits: Waits::new(alloc),
            backs: NumberTable::new(alloc),
            exchanged: NumberTable::new(alloc),
        }
    }

    /// Back-offs begin at streams that are used up at this moment.
    fn note_used(&mut self, moment: u64) -> Result<(), NoMemory>
        ensures { OnOk result (self.new ≡ plain.notes_used moment self.old) }
    {
        let places = &self.pass.ledger.books.places;
        note_used(&mut self.backs, places, &self.held, moment)
    }

    /// An event comes.
    pub fn meet(&mut self, conf: &TraceConf, event: &Event) -> Result<(), NoMemory>
        ensures { OnOk result (self.new ≡ plain.met conf.now event.now self.old) }
    {
        let ledger = &self.pass.ledger;
        let books = &ledger.books;
        let moment = event.moment.0.max(books.requests.clock);
        self.loads.meet(conf, &books.places, &event.what)?;
        self.held.meet(conf.alloc(), &ledger.frames.brought)?;
        self.waits.meet(&books.requests, &event.what)?;
        meet_backs(&mut self.backs, &books.places, &event.what, moment)?;
        self.pass.meet(conf, event)?;
        self.note_used(moment)
    }

    /// An out is put, in a row with this event. Where it closes a place, it is said whether that ends badly.
    pub fn put(
        &mut self,
        conf: &TraceConf,
        what: &What,
        out: &Out,
        is_bad: bool,
    ) -> Result<(), NoMemory>
        ensures { OnOk result (self.new ≡ plain.has_put conf.now what.now out.now is_bad self.old) }
    {
        let books = &self.pass.ledger.books;
        self.loads.put(conf, books, what, out)?;
        self.held.put(conf.alloc(), out)?;
        self.waits.put(conf, &books.requests, out)?;
        let moment = books.requests.clock;
        put_backs(&mut self.backs, &books.places, what, out, is_bad, moment)?;
        put_exchange(&mut self.exchanged, conf.alloc(), out)?;
        self.pass.put(conf.alloc(), what, out)?;
        self.note_used(moment)
    }
}
