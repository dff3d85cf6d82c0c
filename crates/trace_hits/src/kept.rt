//! A reply that must be given again.

ghost use Rattle.std.specs.Prelude.{◌≡◌, ◌-◌, IfOk};
ghost use Rattle.client_settings.specs.Settings.{CacheSettings};
ghost use Rattle.right_trace.specs.Time.{one_if};
ghost use Rattle.trace_hits.specs.Kept as plain;
ghost use Rattle.trace_hits.specs.Question.{IsAsked};
ghost use Rattle.trace_hits.specs.Views.{TellsView};

use crate::point::Point;
use crate::question::Question;
use crate::views::says_view;
use client_settings::cache;
use dns_base::{Duration, Message, NoMemory};
use message_judging::views::{Served, validity_of};
use std::alloc::Global;

/// The last fresh reply to a question, where each reply to it since then was its view, or stale.
pub(crate) struct Kept {
    /// To which request it was.
    pub request: u64,
    pub message: Message,
    /// When it was given, in microseconds.
    pub moment: u64,
    /// For how long its views may be given.
    pub validity: Duration,
    /// How many requests were asked up to it, one in its own row not counted.
    pub asked: u64,
    /// How many replies there were up to it, it included.
    pub replied: u64,
}

impl Drop for Kept {
    fn drop(self) {
        let Kept {
            request: _,
            message: _,
            moment: _,
            validity: _,
            asked: _,
            replied: _,
        } = self;
    }
}

/// 1 where something is so, else 0.
fn one_if(is: bool) -> u64
    ensures { result ≡ one_if is }
{
    if is { 1 } else { 0 }
}

/// What is kept of a fresh reply that is put at a point. None where no view of it may be given.
pub(crate) fn begin(
    cache: &cache::Config,
    point: &Point,
    request: u64,
    message: &Message,
) -> Result<Option<Kept>, NoMemory>
    ensures { IfOk result (λ o. o ≡ plain.begun cache.now request message.now point.now) }
{
    let Some(validity) = validity_of(cache, message)? else {
        return Ok(None);
    };
    if validity.as_micros() == 0 {
        return Ok(None);
    }
    let Some(replied) = point.replied.checked_add(1) else {
        return Err(NoMemory);
    };
    let own = one_if(point.here.is_some());
    Ok(Some(Kept {
        request,
        message: message.try_clone()?,
        moment: point.requests.clock,
        validity,
        asked: point.requests.asked.saturating_sub(own),
        replied,
    }))
}

impl Kept {
    /// Whether a message is its view, as another request with its key gets it at a moment in microseconds.
    pub(crate) fn is_given(
        &self,
        alloc: Global,
        question: &Question,
        moment: u64,
        message: &Message,
    ) -> Result<bool, NoMemory>
        ensures { IfOk result (plain.TellsGivenTo question.now (moment - self.now.moment) self.now.message message.now) }
    {
        let served = Served {
            kept: &self.message,
            from: question.flags,
            to: question.flags,
            name: &question.name,
        };
        let age = moment.saturating_sub(self.moment);
        says_view(alloc, &served, age, message)
    }
}
