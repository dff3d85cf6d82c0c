//! Whether a reply lets its request fail, so that what has expired should have stood in its place (RFC 8767 4).

ghost use Rattle.std.specs.Prelude.{◌≡◌, IfOk};
ghost use Rattle.std.specs.List.{list_any};
ghost use Rattle.right_trace.specs.Errors as errors;
ghost use Rattle.trace_hits.specs.Failing as plain;

use client_request::{Error, What};
use dns_base::{Message, NoMemory};
use number_table::NumberTable;
use trace_errors::promptness::{TraceSettings, is_failing};
use trace_errors::{is_asked_here, is_unkept};
use trace_points::exchanges::{Coming, all_coming};
use trace_points::pass::Pass;
use trace_points::questions::TraceConf;
use trace_tables::Asked;

/// Whether an error is that of the deadline.
fn is_deadline(error: Error) -> bool
    ensures { result ≡ errors.is_deadline error }
{
    matches!(error, Error::TimedOut)
}

/// Whether an error is one that only a server gives.
fn is_of_server(error: Error) -> bool
    ensures { result ≡ errors.is_of_server error }
{
    matches!(
        error,
        Error::Dgram(_) | Error::WrongReplyForQuery | Error::StreamReadTimeout
    )
}

/// Whether an error is one for which what has expired may stand.
fn is_failure(error: Error) -> bool
    ensures { result ≡ errors.is_failure error }
{
    is_deadline(error) || is_of_server(error)
}

/// Whether an error is that of a message that can't be read.
fn is_unreadable(error: Error) -> bool
    ensures { result ≡ plain.is_unreadable error }
{
    matches!(error, Error::MessageParseError)
}

/// Whether what came is for a request, does not fail, and has no validity.
fn is_unread(
    settings: &TraceSettings,
    request: u64,
    askings: &NumberTable<Asked>,
    coming: &Coming,
) -> Result<bool, NoMemory>
    ensures { IfOk result (λ b. b ≡ plain.is_unread settings.now request askings.now coming.now) }
{
    if coming.request != request || is_failing(&coming.message) {
        return Ok(false);
    }
    is_unkept(settings, askings, coming)
}

fn some_unread(
    settings: &TraceSettings,
    request: u64,
    askings: &NumberTable<Asked>,
    comings: &[Coming],
) -> Result<bool, NoMemory>
    ensures { IfOk result (λ b. b ≡ list_any (plain.is_unread settings.now request askings.now) comings.now) }
{
    for coming in comings {
        if is_unread(settings, request, askings, coming)? {
            return Ok(true);
        }
    }
    Ok(false)
}

/// Whether a message that does not fail came for a request in a row, and has no validity: `past` is what was known before the
/// row, `here` what is known where it is asked.
fn came_unread(
    conf: &TraceConf,
    settings: &TraceSettings,
    past: &Pass,
    here: &Pass,
    request: u64,
) -> Result<bool, NoMemory>
    ensures { IfOk result (λ b. b ≡ plain.came_unread conf.now settings.now past.now here.now request) }
{
    let books = &past.ledger.books;
    let comings = all_coming(
        conf.alloc(),
        conf,
        Some(request),
        books,
        &past.sends,
        &here.ledger,
    )?;
    some_unread(
        settings,
        request,
        &books.requests.askings,
        comings.as_slice(),
    )
}

/// Whether a request fails by a message, in a row with this event.
fn message_fails(past: &Pass, here: &Pass, what: &What, request: u64, message: &Message) -> bool
    ensures { result ≡ plain.message_fails past.now here.now what.now request message.now }
{
    is_failing(message)
        && !here.ledger.books.requests.is_marked(request)
        && !is_asked_here(&past.ledger.books, what, request)
}

/// Whether a request fails by an error, in a row with this event.
fn error_fails(
    conf: &TraceConf,
    settings: &TraceSettings,
    past: &Pass,
    here: &Pass,
    what: &What,
    request: u64,
    error: Error,
) -> Result<bool, NoMemory>
    ensures { IfOk result (λ b. b ≡ plain.error_fails conf.now settings.now past.now here.now what.now request error) }
{
    if is_failure(error) {
        return Ok(true);
    }
    if !is_unreadable(error) || is_asked_here(&past.ledger.books, what, request) {
        return Ok(false);
    }
    Ok(!came_unread(conf, settings, past, here, request)?)
}

/// Whether a request fails by a reply, in a row with this event: by an error of a server or of the deadline; or, in a row behind
/// that of its asking, where no view stands, by a message that fails and is not marked as stale, or by the error of a message
/// without a validity, where none came that does not fail.
pub(crate) fn fails_by(
    conf: &TraceConf,
    settings: &TraceSettings,
    past: &Pass,
    here: &Pass,
    what: &What,
    request: u64,
    reply: &Result<Message, Error>,
) -> Result<bool, NoMemory>
    ensures { IfOk result (λ b. b ≡ plain.fails_by conf.now settings.now past.now here.now what.now request reply.now) }
{
    match reply {
        Ok(message) => Ok(message_fails(past, here, what, request, message)),
        Err(error) => error_fails(conf, settings, past, here, what, request, *error),
    }
}
