//! The cause of each error that a server may give.

ghost use Rattle.std.specs.Prelude.{◌≡◌, Option, Some, IfOk};
ghost use Rattle.trace_points.specs.questions.Causes.{opening_fault};
ghost use Rattle.trace_points.specs.questions.Outs.{Tells};
ghost use Rattle.trace_errors.specs.Failing.{error_of};
ghost use Rattle.trace_errors.specs.Failures as plain;

use crate::failing::Failing;
use crate::promptness::{Heards, are_tries_up, is_stream_silent};
use client_request::{Error, Fault, QueryError, What};
use dns_base::NoMemory;
use trace_points::causes::{came_wrong, failure, has_too_many, is_unread};
use trace_points::exchanges::Coming;
use trace_points::questions::{TraceConf, opening_fault};
use trace_tables::Books;

/// Whether this error is found.
#[tactic(auto, using(crate::proofs::Telltale::some_told))]
fn is_error(found: Option<Error>, wanted: Failing) -> bool
    ensures { Tells (found ≡ Some (error_of wanted)) result }
{
    match found {
        None => false,
        Some(error) => wanted.is(error),
    }
}

/// Whether an event tells a request of an error in sending or receiving.
#[tactic(auto, using(crate::proofs::Caused::tells_failed))]
fn has_failed(
    conf: &TraceConf,
    past: &Books,
    what: &What,
    request: u64,
    wanted: Failing,
) -> Result<bool, NoMemory>
    ensures { IfOk result (plain.TellsFails conf.now past.now request what.now (error_of wanted)) }
{
    let found = failure(conf, past, what, request)?;
    Ok(is_error(found, wanted))
}

/// Whether an event tells a request of a fault of its opening.
fn has_not_opened(past: &Books, here: &Books, what: &What, request: u64, fault: Fault) -> bool
    ensures { Tells (opening_fault past.now.places here.now.places here.now.requests request what.now ≡ Some fault) result }
{
    opening_fault(&past.places, &here.places, &here.requests, what, request) == Some(fault)
}

fn find(
    conf: &TraceConf,
    past: &Books,
    heard: &Heards,
    here: &Books,
    what: &What,
    comings: &[Coming],
    request: u64,
    error: Error,
) -> Result<bool, NoMemory>
    ensures { IfOk result (plain.AnswersFor conf.now past.now heard.now here.now what.now comings.now request error) }
{
    let moment = here.requests.clock;
    match error {
        Error::Dgram(QueryError::Connect(fault)) => {
            Ok(has_not_opened(past, here, what, request, fault))
        }
        Error::Dgram(QueryError::Send(fault)) => {
            has_failed(conf, past, what, request, Failing::Sending(fault))
        }
        Error::Dgram(QueryError::Receive(fault)) => {
            has_failed(conf, past, what, request, Failing::Receiving(fault))
        }
        Error::Dgram(QueryError::Timeout) => Ok(are_tries_up(conf, past, here, request, moment)),
        Error::WrongReplyForQuery => Ok(came_wrong(request, comings)),
        Error::StreamReadTimeout => Ok(is_stream_silent(
            conf,
            &past.requests,
            heard,
            request,
            moment,
        )),
        Error::MessageParseError => Ok(is_unread(here, request)),
        Error::MessageBuilderPushError => Ok(has_too_many(here, request)),
        _ => Ok(false),
    }
}

/// Whether a server gives a request this error in a row with this event, and the error has its cause there: `past` and `heard`
/// are what was known before the row, `here` is what is known where the error is given, and `comings` all that came for the
/// request by there.
pub fn server_cause(
    conf: &TraceConf,
    past: &Books,
    heard: &Heards,
    here: &Books,
    what: &What,
    comings: &[Coming],
    request: u64,
    error: Error,
) -> Result<bool, NoMemory>
    ensures { IfOk result (plain.TellsServer conf.now past.now heard.now here.now what.now comings.now request error) }
{
    find(conf, past, heard, here, what, comings, request, error)
}
