//! Whether a message is the view of an earlier reply's, or what such a one says when it has expired.

ghost use Rattle.std.specs.Prelude.{◌≡◌, IfOk};
ghost use Rattle.trace_replies.specs.views.Among.{TellsOne, TellsSome};
ghost use Rattle.trace_replies.specs.views.Serving as plain;

use crate::given::{Asks, Earlier, Earliers, asks_of};
use crate::views::asked::is_asked_here;
use crate::views::settings::ReplySettings;
use client_request::What;
use dns_base::{Message, NoMemory};
use message_judging::views::Served;
use std::alloc::Global;
use trace_tables::{Newest, Requests};

/// How an earlier reply is given.
#[derive(Clone, Copy, Debug, PartialEq, Eq)]
pub enum Manner {
    /// As its view, while that is valid.
    Valid,
    /// As what it says when it has expired.
    Expired,
}

/// A message that is to be judged, and the request to which it is given: what that asks, and when the message is given, in
/// microseconds.
struct Question<'a> {
    settings: &'a ReplySettings,
    manner: Manner,
    request: u64,
    asks: &'a Asks,
    moment: u64,
    message: &'a Message,
}

impl Drop for Question<'_> {
    fn drop(self) {
        let Question {
            settings: _,
            manner: _,
            request: _,
            asks: _,
            moment: _,
            message: _,
        } = self;
    }
}

impl Question<'_> {
    /// Whether a kept message gives it at an age.
    fn is_given_of(
        &self,
        alloc: Global,
        kept: &Message,
        reply: &Earlier,
        age: u64,
    ) -> Result<bool, NoMemory>
        ensures { IfOk result (plain.TellsKept self.now.manner self.now.settings.now self.now.asks.now self.now.message.now kept.now reply.now.flags age) }
    {
        let served = Served {
            kept,
            from: reply.flags,
            to: self.asks.flags,
            name: &self.asks.name,
        };
        let cache = self.settings.cache();
        match self.manner {
            Manner::Valid => served.is_view(alloc, cache, age, self.message),
            Manner::Expired => served.is_stale(alloc, cache, age, self.message),
        }
    }

    /// Whether an earlier reply gives it.
    fn is_given_by(&self, alloc: Global, reply: &Earlier) -> Result<bool, NoMemory>
        ensures { IfOk result (TellsOne (plain.Gives self.now.manner self.now.settings.now self.now.request self.now.moment self.now.message.now) self.now.asks.now reply.now) }
    {
        match &reply.outcome {
            Err(_) => Ok(false),
            Ok(kept) => {
                if self.request <= reply.request {
                    return Ok(false);
                }
                if !self.asks.is_covered_by(reply.flags) {
                    return Ok(false);
                }
                let age = self.moment.saturating_sub(reply.moment);
                self.is_given_of(alloc, kept, reply, age)
            }
        }
    }

    /// For how long a reply may be given so at most, in microseconds.
    fn longest(&self) -> u128
        ensures { result ≡ plain.longest self.now.manner self.now.settings.now }
    {
        let valid = self.settings.max_validity().as_micros();
        match self.manner {
            Manner::Valid => valid,
            Manner::Expired => valid + self.settings.stale_for().as_micros(),
        }
    }

    /// Whether a reply of a moment can't be given any more.
    fn is_past(&self, moment: u64) -> bool
        ensures { result ≡ plain.is_past self.now.manner self.now.settings.now self.now.moment moment }
    {
        self.longest() < u128::from(self.moment.saturating_sub(moment))
    }

    /// Whether one of these gives it.
    fn is_given_by_some(&self, alloc: Global, replies: &Newest<Earlier>) -> Result<bool, NoMemory>
        ensures { IfOk result (TellsSome (plain.Gives self.now.manner self.now.settings.now self.now.request self.now.moment self.now.message.now) self.now.asks.now replies.now) }
    {
        for reply in replies {
            if self.is_past(reply.moment) {
                return Ok(false);
            }
            let gives = self.is_given_by(alloc, reply)?;
            if gives {
                return Ok(true);
            }
        }
        Ok(false)
    }
}

/// Whether an earlier reply gives a message so to a request that was asked.
fn find(
    alloc: Global,
    settings: &ReplySettings,
    manner: Manner,
    requests: &Requests,
    earlier: &Earliers,
    request: u64,
    message: &Message,
) -> Result<bool, NoMemory>
    ensures { IfOk result (plain.TellsFound manner settings.now request message.now requests.now earlier.now) }
{
    let Some(asked) = requests.askings.get(request) else {
        return Ok(false);
    };
    let Some(asks) = asks_of(alloc, &asked.request)? else {
        return Ok(false);
    };
    let Some(replies) = earlier.get(&asks.key) else {
        return Ok(false);
    };
    let question = Question {
        settings,
        manner,
        request,
        asks: &asks,
        moment: requests.clock,
        message,
    };
    question.is_given_by_some(alloc, replies)
}

/// Whether a message is the valid view of an earlier reply's, given in the row in which its request was asked, whose event is
/// `what`: `requests` and `earlier` are what is known where it is given.
pub fn is_view(
    alloc: Global,
    settings: &ReplySettings,
    requests: &Requests,
    earlier: &Earliers,
    what: &What,
    request: u64,
    message: &Message,
) -> Result<bool, NoMemory>
    ensures { IfOk result (plain.TellsView settings.now request message.now what.now requests.now earlier.now) }
{
    if !is_asked_here(requests, what, request) {
        return Ok(false);
    }
    find(
        alloc,
        settings,
        Manner::Valid,
        requests,
        earlier,
        request,
        message,
    )
}

/// Whether a message is what an earlier reply's says when it has expired: `requests` and `earlier` are what is known where it is
/// given.
pub fn is_supplied(
    alloc: Global,
    settings: &ReplySettings,
    requests: &Requests,
    earlier: &Earliers,
    request: u64,
    message: &Message,
) -> Result<bool, NoMemory>
    ensures { IfOk result (plain.TellsSupplied settings.now request message.now requests.now earlier.now) }
{
    find(
        alloc,
        settings,
        Manner::Expired,
        requests,
        earlier,
        request,
        message,
    )
}
