//! Messages that came in rows that are done.

ghost use Rattle.std.specs.Prelude.{◌≡◌, IfOk, OnOk};
ghost use Rattle.number_table.specs.Entries.{entry_at};
ghost use Rattle.trace_errors.specs.promptness.Prompt.{is_stream, matches, excused_in};
ghost use Rattle.trace_errors.specs.Arrivals as plain;

use crate::promptness::{TraceSettings, is_passed_over};
use client_request::Via;
use dns_base::{Message, NoMemory};
use message_judging::validity::RequestValidity;
use number_table::NumberTable;
use std::alloc::Global;
use trace_points::due::Timers;
use trace_points::exchanges::Coming;
use trace_points::questions::TraceConf;
use trace_tables::frames::{Here, Ledger};
use trace_tables::{Asked, Place};

/// Requests that messages came for, each with nothing.
pub struct Arrivals {
    /// Some message came that matches the request, and may not be passed over.
    pub came: NumberTable<()>,
    /// A message that is deferred came, matches the request and can't be kept for want of a validity.
    pub unkept: NumberTable<()>,
}

impl Drop for Arrivals {
    fn drop(self) {
        let Arrivals { came: _, unkept: _ } = self;
    }
}

/// Whether a message answers its request and, if it is a datagram, has TC clear.
pub fn matches(coming: &Coming) -> bool
    ensures { result ≡ matches coming.now }
{
    coming.agrees
        && match coming.via {
            Via::Dgram => !coming.message.header().tc(),
            Via::Stream => true,
        }
}

/// Whether a place is a stream.
fn is_stream(places: &NumberTable<Place>, place: u64) -> bool
    ensures { result ≡ is_stream (entry_at place places.now) }
{
    match places.get(place) {
        None => false,
        Some(place) => matches!(place.via, Via::Stream),
    }
}

/// Whether what came in the row may be passed over: its place, a stream, was closed in the row, and its read timer was due then.
/// `past` and `timers` are what was known before the row, `ledger` is what is known here, and `here` what the row's outs made of
/// places.
pub fn is_excused(
    conf: &TraceConf,
    past: &Ledger,
    timers: &Timers,
    ledger: &Ledger,
    here: &Here,
) -> bool
    ensures { result ≡ excused_in conf.now ledger.now.frames.brought ledger.now.books.requests.clock past.now timers.now ledger.now here.now }
{
    match &ledger.frames.brought {
        None => false,
        Some(brought) => {
            let moment = ledger.books.requests.clock;
            is_passed_over(conf, past, timers, here, brought.place, moment)
                && is_stream(&ledger.books.places, brought.place)
        }
    }
}

fn mark_if(marked: &mut NumberTable<()>, is_so: bool, request: u64) -> Result<(), NoMemory>
    ensures { OnOk result (marked.new ≡ plain.marks_if is_so request marked.old) }
{
    if is_so && marked.insert(request, ()).is_err() {
        return Err(NoMemory);
    }
    Ok(())
}

fn mark_matching(marked: &mut NumberTable<()>, comings: &[Coming]) -> Result<(), NoMemory>
    ensures { OnOk result (marked.new ≡ plain.mark_all matches comings.now marked.old) }
{
    for coming in comings {
        mark_if(marked, matches(coming), coming.request)?;
    }
    Ok(())
}

fn come(marked: &mut NumberTable<()>, excused: bool, comings: &[Coming]) -> Result<(), NoMemory>
    ensures { OnOk result (marked.new ≡ plain.come excused comings.now marked.old) }
{
    if excused {
        Ok(())
    } else {
        mark_matching(marked, comings)
    }
}

/// Whether a message may be kept for a request that was asked, but has no validity.
fn lacks_validity(
    settings: &TraceSettings,
    askings: &NumberTable<Asked>,
    request: u64,
    message: &Message,
) -> Result<bool, NoMemory>
    ensures { IfOk result (λ b. b ≡ plain.lacks_validity settings.now message.now (entry_at request askings.now)) }
{
    let Some(asked) = askings.get(request) else {
        return Ok(false);
    };
    if !RequestValidity::of(&asked.request).is_cacheable {
        return Ok(false);
    }
    Ok(!settings.has_validity(message)?)
}

/// Whether a message matches its request, which may be kept, and has no validity.
pub fn is_unkept(
    settings: &TraceSettings,
    askings: &NumberTable<Asked>,
    coming: &Coming,
) -> Result<bool, NoMemory>
    ensures { IfOk result (λ b. b ≡ plain.is_unkept settings.now askings.now coming.now) }
{
    if !matches(coming) {
        return Ok(false);
    }
    lacks_validity(settings, askings, coming.request, &coming.message)
}

fn is_unkept_later(
    settings: &TraceSettings,
    askings: &NumberTable<Asked>,
    coming: &Coming,
) -> Result<bool, NoMemory>
    ensures { IfOk result (λ b. b ≡ plain.is_unkept_later settings.now askings.now coming.now) }
{
    if !settings.is_deferred(&coming.message) {
        return Ok(false);
    }
    is_unkept(settings, askings, coming)
}

fn mark_unkept(
    marked: &mut NumberTable<()>,
    settings: &TraceSettings,
    askings: &NumberTable<Asked>,
    comings: &[Coming],
) -> Result<(), NoMemory>
    ensures { OnOk result (marked.new ≡ plain.mark_all (plain.is_unkept_later settings.now askings.now) comings.now marked.old) }
{
    for coming in comings {
        let is_so = is_unkept_later(settings, askings, coming)?;
        mark_if(marked, is_so, coming.request)?;
    }
    Ok(())
}

impl Arrivals {
    /// Before the first row.
    pub fn new(alloc: Global) -> Arrivals
        ensures { result ≡ plain.nothing }
    {
        Arrivals {
            came: NumberTable::new(alloc),
            unkept: NumberTable::new(alloc),
        }
    }

    /// A row is done, in which these messages came: `past` and `timers` are what was known before it, `ledger` what is known
    /// behind it, and `here` what its outs made of places.
    pub fn take(
        &mut self,
        conf: &TraceConf,
        settings: &TraceSettings,
        past: &Ledger,
        timers: &Timers,
        ledger: &Ledger,
        here: &Here,
        comings: &[Coming],
    ) -> Result<(), NoMemory>
        ensures { OnOk result (self.new ≡ plain.after_row conf.now settings.now past.now timers.now ledger.now here.now comings.now self.old) }
    {
        let excused = is_excused(conf, past, timers, ledger, here);
        come(&mut self.came, excused, comings)?;
        mark_unkept(
            &mut self.unkept,
            settings,
            &past.books.requests.askings,
            comings,
        )
    }
}
