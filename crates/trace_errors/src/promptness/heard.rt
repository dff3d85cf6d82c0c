//! Servers that a message came from by stream, by request.

ghost use Rattle.std.specs.Prelude.{◌≡◌, OnOk};
ghost use Rattle.trace_errors.specs.promptness.Heard as plain;

use client_request::Via;
use dns_base::NoMemory;
use number_table::NumberTable;
use std::alloc::Global;
use trace_points::due::{Timers, is_read_timer_due};
use trace_points::exchanges::Coming;
use trace_points::questions::TraceConf;
use trace_tables::frames::{Here, Ledger};
use trace_tables::{Newest, add};

/// The servers, by request.
pub type Heards = NumberTable<Newest<u32>>;

fn is_in(servers: &Newest<u32>, server: u32) -> bool
    ensures { result ≡ plain.is_in server servers.now }
{
    for one in servers {
        if *one == server {
            return true;
        }
    }
    false
}

/// Whether a message came for a request from a server by stream, and was not passed over.
pub fn is_heard(heard: &Heards, request: u64, server: u32) -> bool
    ensures { result ≡ plain.heard_seen request server heard.now }
{
    match heard.get(request) {
        None => false,
        Some(servers) => is_in(servers, server),
    }
}

/// Whether a place was closed in the row, and its read timer was due then: `past` and `timers` are what was known before the
/// row, and `here` what the row's outs made of places.
pub fn is_passed_over(
    conf: &TraceConf,
    past: &Ledger,
    timers: &Timers,
    here: &Here,
    place: u64,
    moment: u64,
) -> bool
    ensures { result ≡ plain.is_passed_over conf.now place moment past.now timers.now here.now }
{
    here.is_closed(place) && is_read_timer_due(conf, past, timers, place, moment)
}

/// Whether it is so of the place where something came in the row.
fn is_passed_over_in(
    conf: &TraceConf,
    past: &Ledger,
    timers: &Timers,
    ledger: &Ledger,
    here: &Here,
) -> bool
    ensures { result ≡ plain.passed_over_in conf.now ledger.now.frames.brought ledger.now.books.requests.clock past.now timers.now here.now }
{
    match &ledger.frames.brought {
        None => false,
        Some(brought) => {
            let moment = ledger.books.requests.clock;
            is_passed_over(conf, past, timers, here, brought.place, moment)
        }
    }
}

fn note(heard: &mut Heards, alloc: Global, coming: &Coming) -> Result<(), NoMemory>
    ensures { OnOk result (heard.new ≡ plain.notes coming.now heard.old) }
{
    match coming.via {
        Via::Dgram => Ok(()),
        Via::Stream => add(heard, alloc, coming.request, coming.server),
    }
}

fn note_all(heard: &mut Heards, alloc: Global, comings: &[Coming]) -> Result<(), NoMemory>
    ensures { OnOk result (heard.new ≡ plain.notes_all comings.now heard.old) }
{
    for coming in comings {
        note(heard, alloc, coming)?;
    }
    Ok(())
}

/// A row is done, in which these messages came: `past` and `timers` are what was known before it, `ledger` what is known behind
/// it, and `here` what its outs made of places.
pub fn hear(
    conf: &TraceConf,
    heard: &mut Heards,
    past: &Ledger,
    timers: &Timers,
    ledger: &Ledger,
    here: &Here,
    comings: &[Coming],
) -> Result<(), NoMemory>
    ensures { OnOk result (heard.new ≡ plain.after_row (plain.passed_over_in conf.now ledger.now.frames.brought ledger.now.books.requests.clock past.now timers.now here.now) comings.now heard.old) }
{
    if is_passed_over_in(conf, past, timers, ledger, here) {
        return Ok(());
    }
    note_all(heard, conf.alloc(), comings)
}
