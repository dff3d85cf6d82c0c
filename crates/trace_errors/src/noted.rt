//! Errors that servers gave requests in rows that are done.

ghost use Rattle.std.specs.Prelude.{◌≡◌, OnOk, Option};
ghost use Rattle.right_trace.specs.Parts.{IsIn};
ghost use Rattle.trace_points.specs.causes.Failing.{failure};
ghost use Rattle.trace_errors.specs.Failing.{error_of};
ghost use Rattle.trace_points.specs.questions.Outs.{Tells};
ghost use Rattle.trace_errors.specs.Noted as plain;

use crate::failing::Failing;
use crate::promptness::{Heards, are_tries_up, is_stream_silent};
use client_request::{Error, Out, QueryError, Row, Via, What};
use dns_base::NoMemory;
use number_table::NumberTable;
use std::alloc::Global;
use trace_points::causes::failure;
use trace_points::exchanges::Coming;
use trace_points::questions::TraceConf;
use trace_tables::{Books, Newest, Sent, add};

/// The errors, by request.
pub type Noted = NumberTable<Newest<Error>>;

fn note(
    noted: &mut Noted,
    alloc: Global,
    request: u64,
    error: Option<Error>,
) -> Result<(), NoMemory>
    ensures { OnOk result (noted.new ≡ plain.notes request error noted.old) }
{
    match error {
        None => Ok(()),
        Some(error) => add(noted, alloc, request, error),
    }
}

/// Where an event tells of a fault in sending or receiving.
fn failed_place(what: &What) -> Option<u64>
    ensures { result ≡ plain.failed_place what.now }
{
    match what {
        What::SendFailed { place, .. }
        | What::ShortSend { place }
        | What::RecvFailed { place, .. } => Some(*place),
        _ => None,
    }
}

/// Where an event tells that an opening failed.
fn unopened_place(what: &What) -> Option<u64>
    ensures { result ≡ plain.unopened_place what.now }
{
    match what {
        What::OpenFailed { place, .. } => Some(*place),
        _ => None,
    }
}

fn closed_place(out: &Out) -> Option<u64>
    ensures { result ≡ plain.closed_place out.now }
{
    match out {
        Out::Close { place } => Some(*place),
        _ => None,
    }
}

/// An error of each request that was sent where a fault is told.
fn note_failures(
    conf: &TraceConf,
    noted: &mut Noted,
    past: &Books,
    what: &What,
    sends: &Newest<Sent>,
) -> Result<(), NoMemory>
    ensures { OnOk result (noted.new ≡ plain.note_all (λ x. x.request) (λ x. failure conf.now past.now x.request what.now) sends.now noted.old) }
{
    for sent in sends {
        let error = failure(conf, past, what, sent.request)?;
        note(noted, conf.alloc(), sent.request, error)?;
    }
    Ok(())
}

fn note_failed(
    conf: &TraceConf,
    noted: &mut Noted,
    past: &Books,
    what: &What,
    place: Option<u64>,
) -> Result<(), NoMemory>
    ensures { OnOk result (noted.new ≡ plain.note_failed conf.now past.now what.now place noted.old) }
{
    let Some(place) = place else {
        return Ok(());
    };
    match past.sends.sent.get(place) {
        None => Ok(()),
        Some(sends) => note_failures(conf, noted, past, what, sends),
    }
}

/// The error of a request whose tries are up.
fn lost(conf: &TraceConf, past: &Books, here: &Books, request: u64) -> Option<Error>
    ensures { result ≡ plain.lost conf.now past.now here.now request }
{
    if are_tries_up(conf, past, here, request, here.requests.clock) {
        Some(Error::Dgram(QueryError::Timeout))
    } else {
        None
    }
}

fn note_losses(
    conf: &TraceConf,
    noted: &mut Noted,
    past: &Books,
    here: &Books,
    sends: &Newest<Sent>,
) -> Result<(), NoMemory>
    ensures { OnOk result (noted.new ≡ plain.note_all (λ x. x.request) (λ x. plain.lost conf.now past.now here.now x.request) sends.now noted.old) }
{
    for sent in sends {
        let error = lost(conf, past, here, sent.request);
        note(noted, conf.alloc(), sent.request, error)?;
    }
    Ok(())
}

/// An error of each request that was sent at a place that ends, and whose tries are up.
fn note_lost(
    conf: &TraceConf,
    noted: &mut Noted,
    past: &Books,
    here: &Books,
    place: Option<u64>,
) -> Result<(), NoMemory>
    ensures { OnOk result (noted.new ≡ plain.note_lost conf.now past.now here.now place noted.old) }
{
    let Some(place) = place else {
        return Ok(());
    };
    match here.sends.sent.get(place) {
        None => Ok(()),
        Some(sends) => note_losses(conf, noted, past, here, sends),
    }
}

fn note_closed(
    conf: &TraceConf,
    noted: &mut Noted,
    past: &Books,
    here: &Books,
    outs: &[Out],
) -> Result<(), NoMemory>
    ensures { OnOk result (noted.new ≡ plain.note_closed conf.now past.now here.now outs.now noted.old) }
{
    for out in outs {
        note_lost(conf, noted, past, here, closed_place(out))?;
    }
    Ok(())
}

fn wrong_of(coming: &Coming) -> Option<Error>
    ensures { result ≡ plain.wrong_of coming.now }
{
    if matches!(coming.via, Via::Stream) && !coming.agrees {
        Some(Error::WrongReplyForQuery)
    } else {
        None
    }
}

/// The error of a request that a message comes for by stream, after some server left it without one for long.
fn silent_of(
    conf: &TraceConf,
    past: &Books,
    here: &Books,
    heard: &Heards,
    coming: &Coming,
) -> Option<Error>
    ensures { result ≡ plain.silent_of conf.now past.now here.now heard.now coming.now }
{
    let moment = here.requests.clock;
    if matches!(coming.via, Via::Stream)
        && is_stream_silent(conf, &past.requests, heard, coming.request, moment)
    {
        Some(Error::StreamReadTimeout)
    } else {
        None
    }
}

fn note_wrong(noted: &mut Noted, alloc: Global, comings: &[Coming]) -> Result<(), NoMemory>
    ensures { OnOk result (noted.new ≡ plain.note_all (λ x. x.request) plain.wrong_of comings.now noted.old) }
{
    for coming in comings {
        note(noted, alloc, coming.request, wrong_of(coming))?;
    }
    Ok(())
}

fn note_silent(
    conf: &TraceConf,
    noted: &mut Noted,
    past: &Books,
    here: &Books,
    heard: &Heards,
    comings: &[Coming],
) -> Result<(), NoMemory>
    ensures { OnOk result (noted.new ≡ plain.note_all (λ x. x.request) (plain.silent_of conf.now past.now here.now heard.now) comings.now noted.old) }
{
    for coming in comings {
        let error = silent_of(conf, past, here, heard, coming);
        note(noted, conf.alloc(), coming.request, error)?;
    }
    Ok(())
}

/// A row is done: `past` and `heard` are what was known before it, `here` is what is known behind it, and `comings` all that came.
pub fn note_row(
    conf: &TraceConf,
    noted: &mut Noted,
    past: &Books,
    heard: &Heards,
    here: &Books,
    row: &Row,
    comings: &[Coming],
) -> Result<(), NoMemory>
    ensures { OnOk result (noted.new ≡ plain.after_row conf.now past.now here.now heard.now row.now comings.now noted.old) }
{
    let what = &row.event.what;
    note_failed(conf, noted, past, what, failed_place(what))?;
    note_lost(conf, noted, past, here, unopened_place(what))?;
    note_closed(conf, noted, past, here, row.outs.as_slice())?;
    note_wrong(noted, conf.alloc(), comings)?;
    note_silent(conf, noted, past, here, heard, comings)
}

fn is_among(errors: &Newest<Error>, wanted: Failing) -> bool
    ensures { Tells (IsIn (error_of wanted) errors.now) result }
{
    for one in errors {
        if wanted.is(*one) {
            return true;
        }
    }
    false
}

/// Whether an error of a request is kept.
pub fn is_noted(noted: &Noted, request: u64, wanted: Failing) -> bool
    ensures { Tells (plain.IsNoted request (error_of wanted) noted.now) result }
{
    match noted.get(request) {
        None => false,
        Some(errors) => is_among(errors, wanted),
    }
}
