//! When the timers of a stream place are due.

ghost use Rattle.std.specs.Prelude.{◌≡◌, ◌+◌, ◌||◌, nat_le, is_some, IfOk, OnOk, []};
ghost use Rattle.number_table.specs.Entries.{entry_at};
ghost use Rattle.trace_tables.specs.Lists.{listed};
ghost use Rattle.trace_tables.specs.frames.Waiting.{is_empty};
ghost use Rattle.trace_tables.specs.timers.Quiet.{quiet_seen};
ghost use Rattle.trace_points.specs.due.Due as plain;

use crate::due::loose::{brings, ends_loose, frames_at, id_of};
use crate::due::timers::Timers;
use crate::questions::TraceConf;
use client_request::Via;
use dns_base::{Duration, NoMemory, Octets};
use number_table::NumberTable;
use std::alloc::Global;
use trace_tables::frames::{AtPlace, Ledger, Waiting, Written};
use trace_tables::idle::{idle_of, told_in};
use trace_tables::timers::quiet_since;
use trace_tables::{Newest, Place, Stand};

/// Whether something was written longer before a moment than a frame is waited for.
fn has_old(conf: &TraceConf, writes: &Newest<Written>, moment: u64) -> bool
    ensures { result ≡ plain.has_old conf.now moment writes.now }
{
    for written in writes {
        if u128::from(written.moment) + conf.response_timeout().as_micros() < u128::from(moment) {
            return true;
        }
    }
    false
}

/// Whether what waits under an id is so old, and no frame has the id.
fn is_late_id(conf: &TraceConf, at: &AtPlace, moment: u64, frames: &[Octets], id: u64) -> bool
    ensures { result ≡ plain.is_late_id conf.now moment frames.now at.now id }
{
    match at.get(id) {
        None => false,
        Some(writes) => has_old(conf, writes, moment) && !brings(id, frames),
    }
}

/// Whether it is so under some id.
fn has_late(conf: &TraceConf, at: &AtPlace, moment: u64, frames: &[Octets]) -> bool
    ensures { result ≡ plain.has_late conf.now moment frames.now at.now at.now }
{
    for (id, _) in at {
        if is_late_id(conf, at, moment, frames, id) {
            return true;
        }
    }
    false
}

/// Whether something at a place waits so long.
fn has_late_at(
    conf: &TraceConf,
    waiting: &Waiting,
    place: u64,
    moment: u64,
    frames: &[Octets],
) -> bool
    ensures { result ≡ plain.has_late conf.now moment frames.now (listed place waiting.now) (listed place waiting.now) }
{
    match waiting.get(place) {
        None => false,
        Some(at) => has_late(conf, at, moment, frames),
    }
}

/// Whether a place is a stream to a server that an invalid request was handed to so.
fn is_invalid_at(place: &Place, timers: &Timers) -> bool
    ensures { result ≡ plain.is_invalid_at place.now timers.now }
{
    matches!(place.via, Via::Stream) && timers.invalid.is_at(Via::Stream, place.server)
}

/// Whether the read timer of a place is due at a moment, as what is kept says it.
fn is_read_due(conf: &TraceConf, ledger: &Ledger, timers: &Timers, number: u64, moment: u64) -> bool
    ensures { result ≡ plain.read_due conf.now number moment ledger.now timers.now }
{
    let Some(place) = ledger.books.places.get(number) else {
        return false;
    };
    if !matches!(place.stand, Stand::Alive) {
        return false;
    }
    let frames = frames_at(&ledger.frames.brought, number);
    let since = quiet_since(&timers.quiet, number, frames, ledger.books.requests.clock);
    if u128::from(since) + conf.response_timeout().as_micros() >= u128::from(moment) {
        return false;
    }
    has_late_at(conf, &ledger.waiting, number, moment, frames)
        || ends_loose(&timers.loose, number, ledger, &timers.writing)
        || is_invalid_at(place, timers)
}

/// Whether the read timer of a stream place is due at a moment, by what is known.
pub fn is_read_timer_due(
    conf: &TraceConf,
    ledger: &Ledger,
    timers: &Timers,
    place: u64,
    moment: u64,
) -> bool
    ensures value { result ≡ plain.read_due conf.now place moment ledger.now timers.now }
    ensures told { plain.TellsReadTimer conf.now place moment ledger.now timers.now result }
{
    is_read_due(conf, ledger, timers, place, moment)
}

/// Whether nothing waits but under ids that were freed.
fn all_freed(freed: &NumberTable<()>, at: &AtPlace) -> bool
    ensures { result ≡ plain.all_freed freed.now at.now at.now }
{
    for (id, _) in at {
        if !is_free_by(freed, at, id) {
            return false;
        }
    }
    true
}

/// Whether nothing waits under an id, or it was freed.
fn is_free_by(freed: &NumberTable<()>, at: &AtPlace, id: u64) -> bool
    ensures { result ≡ (is_empty (listed id at.now) || is_some (entry_at id freed.now)) }
{
    match at.get(id) {
        None => true,
        Some(writes) => writes.is_empty() || freed.contains_key(id),
    }
}

/// The same at a place.
fn all_freed_at(freed: &NumberTable<()>, waiting: &Waiting, place: u64) -> bool
    ensures { result ≡ plain.all_freed freed.now (listed place waiting.now) (listed place waiting.now) }
{
    match waiting.get(place) {
        None => true,
        Some(at) => all_freed(freed, at),
    }
}

/// A frame with a whole header frees its id.
fn free(freed: &mut NumberTable<()>, frame: &[u8]) -> Result<(), NoMemory>
    ensures { OnOk result (freed.new ≡ plain.frees_by frame.now freed.old) }
{
    if frame.len() < 12 {
        return Ok(());
    }
    if freed.insert(u64::from(id_of(frame)), ()).is_err() {
        return Err(NoMemory);
    }
    Ok(())
}

/// Whether a sum is at most a moment.
fn has_passed(quiet: u64, idle: Duration, now: u64) -> bool
    ensures { result ≡ nat_le (quiet + idle) now }
{
    u128::from(quiet) + idle.as_micros() <= u128::from(now)
}

/// Whether a place is idle for long enough at once, or behind some of these frames.
fn is_due_behind(
    alloc: Global,
    waiting: &Waiting,
    place: u64,
    quiet: u64,
    idle: Duration,
    now: u64,
    frames: &[Octets],
) -> Result<bool, NoMemory>
    ensures { IfOk result (λ due. due ≡ plain.idle_walk [] (listed place waiting.now) quiet idle now frames.now) }
{
    let mut freed = NumberTable::new(alloc);
    let mut quiet = quiet;
    let mut idle = idle;
    for frame in frames {
        if has_passed(quiet, idle, now) && all_freed_at(&freed, waiting, place) {
            return Ok(true);
        }
        free(&mut freed, frame.as_slice())?;
        if let Some(told) = told_in(frame)? {
            idle = Duration::from_micros(told);
        }
        quiet = now;
    }
    Ok(has_passed(quiet, idle, now) && all_freed_at(&freed, waiting, place))
}

/// Since when a place is quiet, no frame of the newest row counted.
fn quiet_of(timers: &Timers, place: u64) -> u64
    ensures { result ≡ quiet_seen place timers.now.quiet }
{
    quiet_since(&timers.quiet, place, &[], 0)
}

fn is_idle_due(
    conf: &TraceConf,
    alloc: Global,
    ledger: &Ledger,
    timers: &Timers,
    number: u64,
) -> Result<bool, NoMemory>
    ensures { IfOk result (λ due. due ≡ plain.idle_due conf.now number ledger.now timers.now) }
{
    let Some(place) = ledger.books.places.get(number) else {
        return Ok(false);
    };
    if !matches!(place.stand, Stand::Alive) {
        return Ok(false);
    }
    let frames = frames_at(&ledger.frames.brought, number);
    let quiet = quiet_of(timers, number);
    let idle = idle_of(conf.idle_timeout(), &timers.idle, number);
    let now = ledger.books.requests.clock;
    is_due_behind(alloc, &ledger.waiting, number, quiet, idle, now, frames)
}

/// Whether the idle timer of a stream place is due in the newest row, by what is known here: before the row's event, or behind
/// some of the frames that it brought.
pub fn is_idle_timer_due(
    conf: &TraceConf,
    alloc: Global,
    ledger: &Ledger,
    timers: &Timers,
    place: u64,
) -> Result<bool, NoMemory>
    ensures { IfOk result (plain.TellsIdleTimer conf.now place ledger.now timers.now) }
{
    is_idle_due(conf, alloc, ledger, timers, place)
}
