//! Errors that a server gave a request in a row that is done.

ghost use Rattle.std.specs.Prelude.{◌≡◌, OnOk};
ghost use Rattle.trace_points.specs.questions.Outs.{Tells};
ghost use Rattle.trace_errors.specs.Earlier as plain;

use crate::arrivals::Arrivals;
use crate::failing::Failing;
use crate::noted::{Noted, is_noted, note_row};
use crate::openings::Openings;
use crate::promptness::{Heards, TraceSettings, are_tries_up, is_stream_silent};
use client_request::{Error, QueryError, Row};
use dns_base::NoMemory;
use number_table::NumberTable;
use std::alloc::Global;
use trace_points::causes::{has_too_many, is_unread};
use trace_points::due::Timers;
use trace_points::exchanges::Coming;
use trace_points::questions::TraceConf;
use trace_tables::Books;
use trace_tables::frames::{Here, Ledger};

/// What is known of rows that are done, for causes of errors.
pub struct Earlier {
    /// Which openings failed.
    pub openings: Openings,
    /// Which errors servers gave.
    pub noted: Noted,
    /// Which messages came.
    pub arrivals: Arrivals,
}

impl Drop for Earlier {
    fn drop(self) {
        let Earlier {
            openings: _,
            noted: _,
            arrivals: _,
        } = self;
    }
}

/// Whether a request's tries were up in a row that is done.
fn is_lost(conf: &TraceConf, noted: &Noted, past: &Books, request: u64) -> bool
    ensures { Tells (plain.IsLost conf.now request noted.now past.now) result }
{
    if is_noted(noted, request, Failing::Lost) {
        return true;
    }
    are_tries_up(conf, past, past, request, past.requests.clock)
}

/// Whether a stream left a request without a message for long in a row that is done.
fn is_silent(conf: &TraceConf, noted: &Noted, past: &Books, heard: &Heards, request: u64) -> bool
    ensures { Tells (plain.IsSilent conf.now request noted.now past.now heard.now) result }
{
    if is_noted(noted, request, Failing::Silent) {
        return true;
    }
    is_stream_silent(conf, &past.requests, heard, request, past.requests.clock)
}

impl Earlier {
    /// Before the first row.
    pub fn new(alloc: Global) -> Earlier
        ensures { result ≡ plain.nothing }
    {
        Earlier {
            openings: Openings::new(alloc),
            noted: NumberTable::new(alloc),
            arrivals: Arrivals::new(alloc),
        }
    }

    /// A row is done, in which these messages came: `past`, `timers` and `heard` are what was known before it, `ledger` what is
    /// known behind it, and `here` what its outs made of places.
    pub fn take(
        &mut self,
        conf: &TraceConf,
        settings: &TraceSettings,
        past: &Ledger,
        timers: &Timers,
        heard: &Heards,
        ledger: &Ledger,
        here: &Here,
        row: &Row,
        comings: &[Coming],
    ) -> Result<(), NoMemory>
        ensures { OnOk result (self.new ≡ plain.after_row conf.now settings.now past.now timers.now heard.now ledger.now here.now row.now comings.now self.old) }
    {
        let Ledger { books, .. } = ledger;
        self.openings
            .take(conf.alloc(), &past.books.places, &books.places, row)?;
        note_row(
            conf,
            &mut self.noted,
            &past.books,
            heard,
            books,
            row,
            comings,
        )?;
        self.arrivals
            .take(conf, settings, past, timers, ledger, here, comings)
    }

    fn find(
        &self,
        conf: &TraceConf,
        past: &Books,
        heard: &Heards,
        request: u64,
        error: Error,
    ) -> bool
        ensures { plain.AnswersFor conf.now past.now heard.now self.now request error result }
    {
        match error {
            Error::Dgram(QueryError::Connect(fault)) => self.openings.is_refused(request, fault),
            Error::Dgram(QueryError::Send(fault)) => {
                is_noted(&self.noted, request, Failing::Sending(fault))
            }
            Error::Dgram(QueryError::Receive(fault)) => {
                is_noted(&self.noted, request, Failing::Receiving(fault))
            }
            Error::Dgram(QueryError::Timeout) => is_lost(conf, &self.noted, past, request),
            Error::WrongReplyForQuery => is_noted(&self.noted, request, Failing::Wrong),
            Error::StreamReadTimeout => is_silent(conf, &self.noted, past, heard, request),
            Error::MessageParseError => is_unread(past, request),
            Error::MessageBuilderPushError => has_too_many(past, request),
            _ => false,
        }
    }

    /// Whether a server gave a request this error in a row that is done, and it had its cause there: `past` and `heard` are what
    /// is known behind those rows.
    pub fn was_caused(
        &self,
        conf: &TraceConf,
        past: &Books,
        heard: &Heards,
        request: u64,
        error: Error,
    ) -> bool
        ensures { plain.TellsEarlier conf.now past.now heard.now self.now request error result }
    {
        self.find(conf, past, heard, request, error)
    }
}
