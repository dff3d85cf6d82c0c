//! What is known at a point of a trace, and how a row goes by.

ghost use Rattle.std.specs.Prelude.{◌≡◌, OnOk};
ghost use Rattle.trace_points.specs.pass.Pass as plain;

use crate::due::Timers;
use crate::exchanges::{Open, meet_open, put_open};
use crate::questions::TraceConf;
use client_request::{Event, Out, Row, What};
use dns_base::NoMemory;
use number_table::NumberTable;
use std::alloc::Global;
use trace_tables::frames::Ledger;

/// What is known at a point of a trace, within a row or before one.
pub struct Pass {
    /// Places, requests, and what came, was sent and written.
    pub ledger: Ledger,
    /// What was sent by datagrams and not answered.
    pub sends: Open,
    /// What timers of streams rest on.
    pub timers: Timers,
}

impl Drop for Pass {
    fn drop(self) {
        let Pass {
            ledger: _,
            sends: _,
            timers: _,
        } = self;
    }
}

impl Pass {
    /// Before the first row.
    pub fn new(alloc: Global) -> Pass
        ensures { result ≡ plain.nothing }
    {
        Pass {
            ledger: Ledger::new(alloc),
            sends: NumberTable::new(alloc),
            timers: Timers::new(alloc),
        }
    }

    /// An event comes.
    pub fn meet(&mut self, conf: &TraceConf, event: &Event) -> Result<(), NoMemory>
        ensures { OnOk result (self.new ≡ plain.met conf.now event.now self.old) }
    {
        self.timers.meet(conf, &self.ledger, event)?;
        self.ledger.meet(conf.alloc(), event)?;
        meet_open(
            conf,
            &mut self.sends,
            &self.ledger.frames.brought,
            &self.ledger.books.requests.askings,
        )
    }

    /// An out is put, in a row with this event.
    pub fn put(&mut self, alloc: Global, what: &What, out: &Out) -> Result<(), NoMemory>
        ensures { OnOk result (self.new ≡ plain.has_put what.now out.now self.old) }
    {
        self.timers.put(&self.ledger, what, out)?;
        put_open(
            &mut self.sends,
            alloc,
            self.ledger.books.requests.clock,
            out,
        )?;
        self.ledger.put(alloc, what, out)
    }

    /// The outs of a row are put.
    fn put_all(&mut self, alloc: Global, what: &What, outs: &[Out]) -> Result<(), NoMemory>
        ensures { OnOk result (self.new ≡ plain.have_put what.now outs.now self.old) }
    {
        for out in outs {
            self.put(alloc, what, out)?;
        }
        Ok(())
    }

    /// A row goes by.
    pub fn take(&mut self, conf: &TraceConf, row: &Row) -> Result<(), NoMemory>
        ensures { OnOk result (self.new ≡ plain.after_row conf.now row.now self.old) }
    {
        self.meet(conf, &row.event)?;
        self.put_all(conf.alloc(), &row.event.what, row.outs.as_slice())
    }
}
