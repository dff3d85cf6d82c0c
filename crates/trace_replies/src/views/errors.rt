//! Whether an error was given to an earlier request not long ago.

ghost use Rattle.std.specs.Prelude.{◌≡◌, nat_lt, ◌+◌, IfOk};
ghost use Rattle.right_trace.specs.Errors.{is_deadline};
ghost use Rattle.trace_replies.specs.views.Among.{TellsOne, TellsSome};
ghost use Rattle.trace_replies.specs.views.Errors as plain;

use crate::given::{Asks, Earlier, Earliers, asks_of};
use crate::views::asked::is_asked_here;
use crate::views::settings::ReplySettings;
use crate::views::telling::is_same_error;
use client_request::{Error, What};
use dns_base::NoMemory;
use std::alloc::Global;
use trace_tables::{Newest, Requests};

/// An error that is to be judged, and the request to which it is given: what that asks, and when it is given, in microseconds.
struct Question<'a> {
    settings: &'a ReplySettings,
    request: u64,
    asks: &'a Asks,
    moment: u64,
    error: Error,
}

impl Drop for Question<'_> {
    fn drop(self) {
        let Question {
            settings: _,
            request: _,
            asks: _,
            moment: _,
            error: _,
        } = self;
    }
}

impl Question<'_> {
    /// Whether an error of a moment is not given any more.
    fn is_past(&self, moment: u64) -> bool
        ensures { result ≡ nat_lt (moment + self.now.settings.now.transport_failure_duration) self.now.moment }
    {
        let longest = self.settings.transport_failure_duration();
        u128::from(moment) + longest.as_micros() < u128::from(self.moment)
    }

    /// Whether an earlier reply is it, where it is not past.
    fn is_given_by(&self, reply: &Earlier) -> bool
        ensures { plain.IsRecent self.now.settings.now self.now.moment reply.now → TellsOne (plain.GivesError self.now.settings.now self.now.request self.now.moment self.now.error) self.now.asks.now reply.now result }
    {
        match &reply.outcome {
            Ok(_) => false,
            Err(error) => {
                if self.request <= reply.request {
                    return false;
                }
                if !self.asks.is_covered_by(reply.flags) {
                    return false;
                }
                is_same_error(*error, self.error)
            }
        }
    }

    /// Whether one of these is it.
    fn is_given_by_some(&self, replies: &Newest<Earlier>) -> bool
        ensures { TellsSome (plain.GivesError self.now.settings.now self.now.request self.now.moment self.now.error) self.now.asks.now replies.now result }
    {
        for reply in replies {
            if self.is_past(reply.moment) {
                return false;
            }
            if self.is_given_by(reply) {
                return true;
            }
        }
        false
    }
}

/// Whether an error was given to an earlier request.
fn find(
    alloc: Global,
    settings: &ReplySettings,
    requests: &Requests,
    earlier: &Earliers,
    request: u64,
    error: Error,
) -> Result<bool, NoMemory>
    ensures { IfOk result (plain.TellsFound settings.now request error requests.now earlier.now) }
{
    let Some(asked) = requests.askings.get(request) else {
        return Ok(false);
    };
    let Some(asks) = asks_of(alloc, &asked.request)? else {
        return Ok(false);
    };
    let Some(replies) = earlier.get(&asks.key) else {
        return Ok(false);
    };
    let question = Question {
        settings,
        request,
        asks: &asks,
        moment: requests.clock,
        error,
    };
    Ok(question.is_given_by_some(replies))
}

/// Whether an error is that of the deadline, which is never kept.
fn is_deadline(error: Error) -> bool
    ensures { result ≡ is_deadline error }
{
    matches!(error, Error::TimedOut)
}

/// Whether an error is one that an earlier request got not long ago which covers this one, in the row of whose asking it is
/// given, whose event is `what`: `requests` and `earlier` are what is known where it is given.
pub fn is_kept_error(
    alloc: Global,
    settings: &ReplySettings,
    requests: &Requests,
    earlier: &Earliers,
    what: &What,
    request: u64,
    error: Error,
) -> Result<bool, NoMemory>
    ensures { IfOk result (plain.TellsKept settings.now request error what.now requests.now earlier.now) }
{
    if is_deadline(error) {
        return Ok(false);
    }
    if !is_asked_here(requests, what, request) {
        return Ok(false);
    }
    find(alloc, settings, requests, earlier, request, error)
}
