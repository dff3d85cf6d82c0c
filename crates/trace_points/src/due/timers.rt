//! All that is known for the timers of stream places.

ghost use Rattle.std.specs.Prelude.{◌≡◌, OnOk};
ghost use Rattle.trace_points.specs.due.Timers as plain;

use crate::due::invalid::Invalid;
use crate::due::loose::{Loose, meet_loose};
use crate::questions::TraceConf;
use client_request::{Event, Out, What};
use dns_base::NoMemory;
use number_table::NumberTable;
use std::alloc::Global;
use trace_tables::frames::Ledger;
use trace_tables::idle::{Idle, meet_idle};
use trace_tables::timers::{Quiet, meet_quiet, put_quiet};
use trace_tables::writes::Writing;

/// What is known so far beside the ledger.
pub struct Timers {
    /// What of the last writes was not taken.
    pub writing: Writing,
    /// Since when places are quiet.
    pub quiet: Quiet,
    /// How long they may be idle.
    pub idle: Idle,
    /// Whether their last frames left something open.
    pub loose: Loose,
    /// Which servers got invalid requests.
    pub invalid: Invalid,
}

impl Drop for Timers {
    fn drop(self) {
        let Timers {
            writing: _,
            quiet: _,
            idle: _,
            loose: _,
            invalid: _,
        } = self;
    }
}

impl Timers {
    /// Before the first row.
    pub fn new(alloc: Global) -> Timers
        ensures { result ≡ plain.nothing }
    {
        Timers {
            writing: Writing::new(alloc),
            quiet: NumberTable::new(alloc),
            idle: NumberTable::new(alloc),
            loose: NumberTable::new(alloc),
            invalid: Invalid::new(alloc),
        }
    }

    /// An event comes, over the ledger as it was.
    pub fn meet(&mut self, conf: &TraceConf, ledger: &Ledger, event: &Event) -> Result<(), NoMemory>
        ensures { OnOk result (self.new ≡ plain.met conf.now event.now ledger.now self.old) }
    {
        let brought = &ledger.frames.brought;
        meet_loose(&mut self.loose, brought, &ledger.waiting, &self.writing)?;
        meet_idle(conf.idle_timeout(), &mut self.idle, brought)?;
        let clock = ledger.books.requests.clock;
        meet_quiet(&mut self.quiet, &ledger.books.places, brought, clock, event)?;
        self.writing.meet(&event.what)
    }

    /// An out is put, over the ledger as it was, in a row with this event.
    pub fn put(&mut self, ledger: &Ledger, what: &What, out: &Out) -> Result<(), NoMemory>
        ensures { OnOk result (self.new ≡ plain.has_put what.now out.now ledger.now self.old) }
    {
        let books = &ledger.books;
        self.invalid.put(&books.requests.askings, out)?;
        put_quiet(
            &mut self.quiet,
            &books.places,
            what,
            books.requests.clock,
            out,
        )?;
        self.writing.put(out)
    }
}
