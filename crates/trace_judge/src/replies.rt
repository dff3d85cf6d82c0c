//! Whether a reply is right where it is put.

ghost use Rattle.std.specs.Prelude.{◌≡◌, IfOk};
ghost use Rattle.trace_judge.specs.Replies as plain;

use crate::case::{Case, Mark};
use crate::course::Course;
use crate::failures::{either, has_own_cause, holds};
use client_request::Error;
use dns_base::{Message, NoMemory};
use std::alloc::Global;
use trace_errors::direct_cause;
use trace_errors::owed::are_all_done;
use trace_points::exchanges::find_coming;
use trace_replies::firsts::{came_earlier, came_first};
use trace_replies::given::came_for;
use trace_replies::messages::{Judged, Place, Told};
use trace_replies::views::is_kept_error;

/// Whether a mark says that a result of the request failed.
fn is_marked_as_failing(mark: &Option<Mark>, request: u64) -> bool
    ensures { result ≡ plain.marked_as_failing mark.now request }
{
    match mark {
        Some(mark) => mark.request == request && mark.fails,
        None => false,
    }
}

/// Whether of all messages that came for a request a message was the first.
fn is_first_come(
    alloc: Global,
    case: &Case<'_>,
    course: &Course,
    request: u64,
    message: &Message,
) -> Result<bool, NoMemory>
    ensures { IfOk result (plain.TellsFirstCome case.now course.now request message.now) }
{
    let past = &case.past.pass;
    let came = came_for(
        alloc,
        &case.rules.conf,
        &past.ledger.books,
        &past.sends,
        &course.here.pass.ledger,
        request,
        message,
    )?;
    Ok(came_first(&case.past.firsts, request, message, came))
}

/// Whether every server is done with a request.
pub(crate) fn is_done(case: &Case<'_>, course: &Course, request: u64) -> Result<bool, NoMemory>
    ensures { IfOk result (plain.TellsDone case.now course.now request) }
{
    let pass = &course.here.pass;
    are_all_done(
        &case.rules.conf,
        &case.past.pass.ledger.books,
        &pass.ledger,
        &pass.sends,
        &course.here.exchanged,
        &case.row.event.what,
        request,
    )
}

/// What is told of a deferred message.
fn told_deferred(
    alloc: Global,
    case: &Case<'_>,
    course: &Course,
    request: u64,
    message: &Message,
) -> Result<Told, NoMemory>
    ensures { IfOk result (plain.TellsTold case.now course.now request message.now) }
{
    let first = is_first_come(alloc, case, course, request, message)?;
    let done = is_done(case, course, request)?;
    Ok(Told {
        fails: is_marked_as_failing(&course.mark, request),
        came_earlier: came_earlier(&case.past.firsts, request, message),
        is_last: holds(done, first),
    })
}

/// What is told of a message that is deferred or not.
fn told(
    alloc: Global,
    case: &Case<'_>,
    course: &Course,
    request: u64,
    message: &Message,
) -> Result<Told, NoMemory>
    ensures { IfOk result (plain.TellsTold case.now course.now request message.now) }
{
    let is_deferred = case.rules.settings.trace().is_deferred(message);
    if is_deferred {
        return told_deferred(alloc, case, course, request, message);
    }
    Ok(Told {
        fails: is_marked_as_failing(&course.mark, request),
        came_earlier: false,
        is_last: false,
    })
}

/// What a message is as the reply to a request.
pub(crate) fn judge_message(
    alloc: Global,
    case: &Case<'_>,
    course: &Course,
    request: u64,
    message: &Message,
) -> Result<Judged, NoMemory>
    ensures { IfOk result (plain.TellsMessage case.now course.now request message.now) }
{
    let told = told(alloc, case, course, request, message)?;
    let place = Place {
        conf: &case.rules.conf,
        settings: &case.rules.settings,
        past: &case.past.pass.ledger.books,
        sent: &case.past.pass.sends,
        here: &course.here.pass.ledger,
        earlier: &course.replies,
        what: &case.row.event.what,
    };
    place.judge(alloc, request, message, told)
}

/// Whether an error of a request was kept, and may be given again.
fn is_kept(
    alloc: Global,
    case: &Case<'_>,
    course: &Course,
    request: u64,
    error: Error,
) -> Result<bool, NoMemory>
    ensures { IfOk result (plain.TellsKept case.now course.now request error) }
{
    is_kept_error(
        alloc,
        &case.rules.settings,
        &course.here.pass.ledger.books.requests,
        &course.replies,
        &case.row.event.what,
        request,
        error,
    )
}

/// Whether an error has a cause as the reply to a request.
pub(crate) fn has_cause(
    alloc: Global,
    case: &Case<'_>,
    course: &Course,
    request: u64,
    error: Error,
) -> Result<bool, NoMemory>
    ensures { IfOk result (plain.TellsCause case.now course.now request error) }
{
    let own = has_own_cause(alloc, case, course, request, error)?;
    let kept = is_kept(alloc, case, course, request, error)?;
    Ok(either(own, kept))
}

/// Whether it has one that is no kept error.
pub(crate) fn has_direct_cause(
    alloc: Global,
    case: &Case<'_>,
    course: &Course,
    request: u64,
    error: Error,
) -> Result<bool, NoMemory>
    ensures { IfOk result (plain.TellsDirect case.now course.now request error) }
{
    let past = &case.past.pass;
    let ledger = &course.here.pass.ledger;
    let conf = &case.rules.conf;
    let books = &past.ledger.books;
    let comings = find_coming(alloc, conf, Some(request), books, &past.sends, ledger)?;
    direct_cause(
        conf,
        case.rules.settings.trace(),
        books,
        &case.past.heard,
        &ledger.books,
        &case.past.errors,
        &case.row.event.what,
        comings.as_slice(),
        request,
        error,
    )
}
