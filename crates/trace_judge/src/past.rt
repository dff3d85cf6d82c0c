//! What is known before a row.

ghost use Rattle.std.specs.Prelude.{◌≡◌, OnOk};
ghost use Rattle.trace_judge.specs.Past as plain;

use client_request::Row;
use dns_base::NoMemory;
use number_table::NumberTable;
use std::alloc::Global;
use trace_errors::Earlier;
use trace_errors::promptness::{Heards, TraceSettings, hear};
use trace_points::exchanges::Coming;
use trace_points::pass::Pass;
use trace_points::questions::TraceConf;
use trace_replies::firsts::{Firsts, note_arrivals};
use trace_tables::frames::{Here, Ledger};

/// What is known before a row.
pub struct Past {
    pub pass: Pass,
    /// Which servers a message came from by stream.
    pub heard: Heards,
    /// What causes of errors rest on.
    pub errors: Earlier,
    /// Which messages came for requests.
    pub firsts: Firsts,
}

impl Drop for Past {
    fn drop(self) {
        let Past {
            pass: _,
            heard: _,
            errors: _,
            firsts: _,
        } = self;
    }
}

impl Past {
    /// Before the first row.
    pub(crate) fn new(alloc: Global) -> Past
        ensures { result ≡ plain.nothing }
    {
        Past {
            pass: Pass::new(alloc),
            heard: NumberTable::new(alloc),
            errors: Earlier::new(alloc),
            firsts: NumberTable::new(alloc),
        }
    }

    /// What rests on what came in a row is brought over it: `ledger` is what is known behind it, `made` what its outs made of
    /// places, and `comings` all that came.
    fn note(
        &mut self,
        conf: &TraceConf,
        settings: &TraceSettings,
        row: &Row,
        ledger: &Ledger,
        made: &Here,
        comings: &[Coming],
    ) -> Result<(), NoMemory>
        ensures { OnOk result (self.new ≡ plain.noted conf.now settings.now row.now ledger.now made.now comings.now self.old) }
    {
        let Pass {
            ledger: past,
            timers,
            ..
        } = &self.pass;
        self.errors.take(
            conf,
            settings,
            past,
            timers,
            &self.heard,
            ledger,
            made,
            row,
            comings,
        )?;
        note_arrivals(conf, &mut self.firsts, past, timers, ledger, made, comings)?;
        hear(conf, &mut self.heard, past, timers, ledger, made, comings)
    }

    /// A row goes by.
    pub(crate) fn take(
        &mut self,
        conf: &TraceConf,
        settings: &TraceSettings,
        row: &Row,
        ledger: &Ledger,
        made: &Here,
        comings: &[Coming],
    ) -> Result<(), NoMemory>
        ensures { OnOk result (self.new ≡ plain.after_row conf.now settings.now row.now ledger.now made.now comings.now self.old) }
    {
        self.note(conf, settings, row, ledger, made, comings)?;
        self.pass.take(conf, row)
    }
}
