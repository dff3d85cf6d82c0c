//! When requests failed, where what has expired should have stood in the place of the reply.

ghost use Rattle.std.specs.Prelude.{◌≡◌, IfOk, OnOk};
ghost use Rattle.number_table.specs.Entries.{entry_at};
ghost use Rattle.trace_hits.specs.Failures as plain;

use crate::failing::fails_by;
use client_request::{Out, Row, What};
use dns_base::NoMemory;
use number_table::NumberTable;
use trace_errors::promptness::TraceSettings;
use trace_points::pass::Pass;
use trace_points::questions::TraceConf;

/// When requests failed, up to a point of a trace.
pub(crate) struct Failures {
    /// What was known before the row.
    past: Pass,
    /// What is known at the point.
    here: Pass,
    /// By request: when it first failed, in microseconds.
    moments: NumberTable<u64>,
}

impl Drop for Failures {
    fn drop(self) {
        let Failures {
            past: _,
            here: _,
            moments: _,
        } = self;
    }
}

/// A request fails, if it did not before.
fn note(moments: &mut NumberTable<u64>, request: u64, now: u64) -> Result<(), NoMemory>
    ensures { OnOk result (moments.new ≡ plain.noted request now moments.old) }
{
    if moments.contains_key(request) {
        return Ok(());
    }
    match moments.insert(request, now) {
        Ok(_) => Ok(()),
        Err(_) => Err(NoMemory),
    }
}

/// The same of a request, if there is one.
fn note_if(moments: &mut NumberTable<u64>, request: Option<u64>, now: u64) -> Result<(), NoMemory>
    ensures { OnOk result (moments.new ≡ plain.noted_of request now moments.old) }
{
    match request {
        None => Ok(()),
        Some(request) => note(moments, request, now),
    }
}

impl Failures {
    /// Before the first row.
    fn new(conf: &TraceConf) -> Failures
        ensures { result ≡ plain.nothing }
    {
        let alloc = conf.alloc();
        Failures {
            past: Pass::new(alloc),
            here: Pass::new(alloc),
            moments: NumberTable::new(alloc),
        }
    }

    /// The request that an out lets fail, in a row with this event.
    fn failing(
        &self,
        conf: &TraceConf,
        settings: &TraceSettings,
        what: &What,
        out: &Out,
    ) -> Result<Option<u64>, NoMemory>
        ensures { IfOk result (λ o. o ≡ plain.failing conf.now settings.now self.now.past self.now.here what.now out.now) }
    {
        match out {
            Out::Reply { request, result } => {
                let past = &self.past;
                let here = &self.here;
                let fails = fails_by(conf, settings, past, here, what, *request, result)?;
                if fails { Ok(Some(*request)) } else { Ok(None) }
            }
            _ => Ok(None),
        }
    }

    /// An out is put, in a row with this event.
    fn put(
        &mut self,
        conf: &TraceConf,
        settings: &TraceSettings,
        what: &What,
        out: &Out,
    ) -> Result<(), NoMemory>
        ensures { OnOk result (self.new ≡ plain.has_put conf.now settings.now what.now out.now self.old) }
    {
        let failing = self.failing(conf, settings, what, out)?;
        let now = self.here.ledger.books.requests.clock;
        note_if(&mut self.moments, failing, now)?;
        self.here.put(conf.alloc(), what, out)
    }

    /// The outs of a row are put.
    fn put_all(
        &mut self,
        conf: &TraceConf,
        settings: &TraceSettings,
        what: &What,
        outs: &[Out],
    ) -> Result<(), NoMemory>
        ensures { OnOk result (self.new ≡ plain.have_put conf.now settings.now what.now outs.now self.old) }
    {
        for out in outs {
            self.put(conf, settings, what, out)?;
        }
        Ok(())
    }

    /// A row goes by.
    fn take(
        &mut self,
        conf: &TraceConf,
        settings: &TraceSettings,
        row: &Row,
    ) -> Result<(), NoMemory>
        ensures { OnOk result (self.new ≡ plain.after_row conf.now settings.now row.now self.old) }
    {
        self.here.meet(conf, &row.event)?;
        self.put_all(conf, settings, &row.event.what, row.outs.as_slice())?;
        self.past.take(conf, row)
    }

    /// Those of all rows.
    pub(crate) fn of(
        conf: &TraceConf,
        settings: &TraceSettings,
        rows: &[Row],
    ) -> Result<Failures, NoMemory>
        ensures { IfOk result (λ t. t ≡ plain.after_rows conf.now settings.now rows.now plain.nothing) }
    {
        let mut failures = Failures::new(conf);
        for row in rows {
            failures.take(conf, settings, row)?;
        }
        Ok(failures)
    }

    /// When a request failed first, in microseconds.
    pub(crate) fn get(&self, request: u64) -> Option<u64>
        ensures { result ≡ entry_at request self.now.moments }
    {
        self.moments.get(request).copied()
    }
}
