//! Whether each final message that comes in a row is its request's reply.

ghost use Rattle.std.specs.Prelude.{◌≡◌, IfOk};
ghost use Rattle.number_table.specs.Entries.{entry_at};
ghost use Rattle.right_trace.specs.Views.{is_failing_message};
ghost use Rattle.trace_errors.specs.promptness.Prompt as plain;

use crate::promptness::heard::{Heards, is_passed_over};
use crate::promptness::overdue::is_overdue;
use crate::promptness::settings::TraceSettings;
use client_request::{Out, Row, Via};
use dns_base::{Message, NoMemory, OptRcode};
use number_table::NumberTable;
use trace_points::due::Timers;
use trace_points::exchanges::Coming;
use trace_points::questions::TraceConf;
use trace_tables::frames::{Here, Ledger};
use trace_tables::{Books, Place};

/// Whether an out is the reply to a request with this message.
fn gives(request: u64, message: &Message, out: &Out) -> bool
    ensures { result ≡ plain.gives request message.now out.now }
{
    match out {
        Out::Reply {
            request: other,
            result: Ok(reply),
        } => *other == request && reply.as_slice() == message.as_slice(),
        _ => false,
    }
}

/// Whether one of these is.
fn is_given(request: u64, message: &Message, outs: &[Out]) -> bool
    ensures { result ≡ plain.is_given request message.now outs.now }
{
    for out in outs {
        if gives(request, message, out) {
            return true;
        }
    }
    false
}

/// Whether one of these marks a request's reply as stale.
fn is_marked(request: u64, outs: &[Out]) -> bool
    ensures { result ≡ plain.is_marked request outs.now }
{
    for out in outs {
        if let Out::Stale { request: other } = out {
            if *other == request {
                return true;
            }
        }
    }
    false
}

/// Whether the server of a message failed: it tells of no name (RFC 8767 4).
pub fn is_failing(message: &Message) -> bool
    ensures { result ≡ is_failing_message message.now }
{
    !matches!(message.opt_rcode(), OptRcode(0) | OptRcode(3))
}

/// Whether a message is given; or, where an expired one may serve and this one fails, a stale one.
fn is_given_so(settings: &TraceSettings, request: u64, message: &Message, outs: &[Out]) -> bool
    ensures { result ≡ plain.is_given_so settings.now request message.now outs.now }
{
    is_given(request, message, outs)
        || (settings.serves_stale() && is_failing(message) && is_marked(request, outs))
}

/// Whether a message answers its request and, if it is a datagram, has TC clear.
fn matches(coming: &Coming) -> bool
    ensures { result ≡ plain.matches coming.now }
{
    coming.agrees
        && match coming.via {
            Via::Dgram => !coming.message.header().tc(),
            Via::Stream => true,
        }
}

/// What was known before a row, and what its outs are.
struct Judged<'a> {
    conf: &'a TraceConf,
    settings: &'a TraceSettings,
    past: &'a Books,
    heard: &'a Heards,
    moment: u64,
    outs: &'a [Out],
}

impl Drop for Judged<'_> {
    fn drop(self) {
        let Judged {
            conf: _,
            settings: _,
            past: _,
            heard: _,
            moment: _,
            outs: _,
        } = self;
    }
}

impl<'a> Judged<'a> {
    /// Whether a message is the reply, or need not be.
    fn is_answered(&self, coming: &Coming) -> Result<bool, NoMemory>
        ensures { IfOk result (λ b. b ≡ plain.is_answered self.now.conf.now self.now.settings.now self.now.moment self.now.past.now self.now.heard.now self.now.outs.now coming.now) }
    {
        if !matches(coming) {
            return Ok(true);
        }
        let askings = &self.past.requests.askings;
        if !self
            .settings
            .is_final_for(askings, coming.request, &coming.message)?
        {
            return Ok(true);
        }
        if is_given_so(self.settings, coming.request, &coming.message, self.outs) {
            return Ok(true);
        }
        Ok(is_overdue(
            self.conf,
            self.settings,
            self.past,
            self.heard,
            coming.request,
            self.moment,
        ))
    }

    /// Whether each of these is.
    fn are_answered(&self, comings: &[Coming]) -> Result<bool, NoMemory>
        ensures { IfOk result (λ b. b ≡ plain.are_answered self.now.conf.now self.now.settings.now self.now.moment self.now.past.now self.now.heard.now self.now.outs.now comings.now) }
    {
        for coming in comings {
            if !self.is_answered(coming)? {
                return Ok(false);
            }
        }
        Ok(true)
    }
}

/// Whether a place is a stream.
fn is_stream(places: &NumberTable<Place>, place: u64) -> bool
    ensures { result ≡ plain.is_stream (entry_at place places.now) }
{
    match places.get(place) {
        None => false,
        Some(place) => matches!(place.via, Via::Stream),
    }
}

/// Whether what came in the row may be passed over.
fn is_excused(
    conf: &TraceConf,
    past: &Ledger,
    timers: &Timers,
    ledger: &Ledger,
    here: &Here,
) -> bool
    ensures { result ≡ plain.excused_in conf.now ledger.now.frames.brought ledger.now.books.requests.clock past.now timers.now ledger.now here.now }
{
    match &ledger.frames.brought {
        None => false,
        Some(brought) => {
            let moment = ledger.books.requests.clock;
            is_passed_over(conf, past, timers, here, brought.place, moment)
                && is_stream(&ledger.books.places, brought.place)
        }
    }
}

fn find(
    conf: &TraceConf,
    settings: &TraceSettings,
    past: &Ledger,
    timers: &Timers,
    heard: &Heards,
    ledger: &Ledger,
    here: &Here,
    row: &Row,
    comings: &[Coming],
) -> Result<bool, NoMemory>
    ensures { IfOk result (λ b. b ≡ plain.prompt_seen conf.now settings.now past.now timers.now heard.now ledger.now here.now row.now.outs comings.now) }
{
    if is_excused(conf, past, timers, ledger, here) {
        return Ok(true);
    }
    let judged = Judged {
        conf,
        settings,
        past: &past.books,
        heard,
        moment: ledger.books.requests.clock,
        outs: row.outs.as_slice(),
    };
    judged.are_answered(comings)
}

/// Whether the first final message that comes for a request in a row and matches it is its reply there, unless the request is
/// overdue or the message excused: `past`, `timers` and `heard` are what was known before the row, `ledger` what is known
/// behind it, `here` what its outs made of places, and `comings` all that came.
pub fn is_prompt(
    conf: &TraceConf,
    settings: &TraceSettings,
    past: &Ledger,
    timers: &Timers,
    heard: &Heards,
    ledger: &Ledger,
    here: &Here,
    row: &Row,
    comings: &[Coming],
) -> Result<bool, NoMemory>
    ensures { IfOk result (plain.TellsPrompt conf.now settings.now past.now timers.now heard.now ledger.now here.now row.now comings.now) }
{
    find(
        conf, settings, past, timers, heard, ledger, here, row, comings,
    )
}
