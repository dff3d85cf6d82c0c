//! Whether a result for which an expired message may stand has its cause: an error, or a message that fails.

ghost use Rattle.std.specs.Prelude.{◌≡◌, ◌&&◌, ◌||◌, IfOk};
ghost use Rattle.trace_judge.specs.Replies as plain;

use crate::case::Case;
use crate::course::Course;
use crate::replies::is_done;
use client_request::{Error, Fault, QueryError};
use dns_base::NoMemory;
use std::alloc::Global;
use trace_errors::deferred::own_cause;
use trace_points::exchanges::find_coming;
use trace_replies::firsts::message_fails;

/// Whether an error of a request has its own cause where it would be given.
pub(crate) fn has_own_cause(
    alloc: Global,
    case: &Case<'_>,
    course: &Course,
    request: u64,
    error: Error,
) -> Result<bool, NoMemory>
    ensures { IfOk result (plain.TellsOwn case.now course.now request error) }
{
    let past = &case.past.pass;
    let pass = &course.here.pass;
    let conf = &case.rules.conf;
    let books = &past.ledger.books;
    let comings = find_coming(alloc, conf, Some(request), books, &past.sends, &pass.ledger)?;
    own_cause(
        conf,
        case.rules.settings.trace(),
        &past.ledger,
        &past.timers,
        &case.past.heard,
        &pass.ledger,
        &course.made,
        &case.past.errors,
        &pass.sends,
        &course.here.exchanged,
        &case.row.event.what,
        comings.as_slice(),
        request,
        error,
    )
}

/// Whether one or the other is so, both of which are known.
pub(crate) fn either(a: bool, b: bool) -> bool
    ensures { result ≡ (a || b) }
{
    a || b
}

/// Whether both are so.
pub(crate) fn holds(a: bool, b: bool) -> bool
    ensures { result ≡ (a && b) }
{
    a && b
}

/// Whether some error of a datagram try with a fault has.
fn fails_with(
    alloc: Global,
    case: &Case<'_>,
    course: &Course,
    request: u64,
    fault: Fault,
) -> Result<bool, NoMemory>
    ensures { IfOk result (plain.TellsFailsWith case.now course.now request fault) }
{
    let connect = Error::Dgram(QueryError::Connect(fault));
    let send = Error::Dgram(QueryError::Send(fault));
    let receive = Error::Dgram(QueryError::Receive(fault));
    let is_connect = has_own_cause(alloc, case, course, request, connect)?;
    let is_send = has_own_cause(alloc, case, course, request, send)?;
    let is_receive = has_own_cause(alloc, case, course, request, receive)?;
    let later = either(is_send, is_receive);
    Ok(either(is_connect, later))
}

/// Whether some error of a datagram try with a fault that a socket tells has.
fn fails_by_socket(
    alloc: Global,
    case: &Case<'_>,
    course: &Course,
    request: u64,
) -> Result<bool, NoMemory>
    ensures { IfOk result (plain.TellsFailsBySocket case.now course.now request) }
{
    let refused = fails_with(alloc, case, course, request, Fault::Refused)?;
    let reset = fails_with(alloc, case, course, request, Fault::Reset)?;
    let unreachable = fails_with(alloc, case, course, request, Fault::Unreachable)?;
    let in_use = fails_with(alloc, case, course, request, Fault::InUse)?;
    let broken = fails_with(alloc, case, course, request, Fault::Broken)?;
    let other = fails_with(alloc, case, course, request, Fault::Other)?;
    let fifth = either(broken, other);
    let fourth = either(in_use, fifth);
    let third = either(unreachable, fourth);
    let second = either(reset, third);
    Ok(either(refused, second))
}

/// Whether some error of a datagram try with a fault that a client finds itself has.
fn fails_by_client(
    alloc: Global,
    case: &Case<'_>,
    course: &Course,
    request: u64,
) -> Result<bool, NoMemory>
    ensures { IfOk result (plain.TellsFailsByClient case.now course.now request) }
{
    let expired = fails_with(alloc, case, course, request, Fault::Expired)?;
    let short_send = fails_with(alloc, case, course, request, Fault::ShortSend)?;
    let nothing_taken = fails_with(alloc, case, course, request, Fault::NothingTaken)?;
    let end_of_data = fails_with(alloc, case, course, request, Fault::EndOfData)?;
    let third = either(nothing_taken, end_of_data);
    let second = either(short_send, third);
    Ok(either(expired, second))
}

/// Whether some error without a fault has.
fn fails_without_fault(
    alloc: Global,
    case: &Case<'_>,
    course: &Course,
    request: u64,
) -> Result<bool, NoMemory>
    ensures { IfOk result (plain.TellsFailsWithoutFault case.now course.now request) }
{
    let lost = Error::Dgram(QueryError::Timeout);
    let is_late = has_own_cause(alloc, case, course, request, Error::TimedOut)?;
    let is_lost = has_own_cause(alloc, case, course, request, lost)?;
    let is_wrong = has_own_cause(alloc, case, course, request, Error::WrongReplyForQuery)?;
    let is_silent = has_own_cause(alloc, case, course, request, Error::StreamReadTimeout)?;
    let third = either(is_wrong, is_silent);
    let second = either(is_lost, third);
    Ok(either(is_late, second))
}

/// Whether a request could be given a message that fails.
fn fails_by_message(
    alloc: Global,
    case: &Case<'_>,
    course: &Course,
    request: u64,
) -> Result<bool, NoMemory>
    ensures { IfOk result (plain.TellsFailsByMessage case.now course.now request) }
{
    let past = &case.past.pass;
    let ledger = &course.here.pass.ledger;
    let conf = &case.rules.conf;
    let books = &past.ledger.books;
    let comings = find_coming(alloc, conf, Some(request), books, &past.sends, ledger)?;
    let done = is_done(case, course, request)?;
    Ok(message_fails(
        case.rules.settings.trace(),
        &case.past.firsts,
        request,
        done,
        comings.as_slice(),
    ))
}

/// Whether some error of a server, or that of the deadline, has its own cause for a request, or it could be given a message that
/// fails.
pub(crate) fn fails(
    alloc: Global,
    case: &Case<'_>,
    course: &Course,
    request: u64,
) -> Result<bool, NoMemory>
    ensures { IfOk result (plain.TellsFails case.now course.now request) }
{
    let alone = fails_without_fault(alloc, case, course, request)?;
    let by_socket = fails_by_socket(alloc, case, course, request)?;
    let by_client = fails_by_client(alloc, case, course, request)?;
    let by_message = fails_by_message(alloc, case, course, request)?;
    let by_fault = either(by_socket, by_client);
    let by_error = either(alone, by_fault);
    Ok(either(by_error, by_message))
}
