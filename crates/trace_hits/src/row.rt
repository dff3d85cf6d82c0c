//! What a row owes the request that it asks.

ghost use Rattle.std.specs.Prelude.{◌≡◌, ◌&&◌, not, is_ok, IfOk};
ghost use Rattle.client_request.specs.Composed.{composed};
ghost use Rattle.trace_hits.specs.Kept.{TellsGivenTo};
ghost use Rattle.trace_hits.specs.Outs.{reply_to};
ghost use Rattle.trace_hits.specs.Row as plain;

use crate::course::Course;
use crate::kept::Kept;
use crate::outs::{all_spare, has_mark, is_handed, other_replies, reply_to};
use crate::point::Point;
use crate::question::{Question, question_of};
use client_request::{Compose, Out, RequestMessage, Row, What};
use client_settings::cache;
use dns_base::NoMemory;
use std::alloc::Global;

/// How many entries a cache has room for.
pub(crate) fn room_of(cache: &cache::Config) -> u64
    ensures { result ≡ plain.room_of cache.now }
{
    1u64.max(cache.max_cache_entries())
}

/// All four are so.
pub(crate) fn all(a: bool, b: bool, c: bool, d: bool) -> bool
    ensures { result ≡ (a && (b && (c && d))) }
{
    a && b && c && d
}

/// Whether a message can be composed of a request.
fn is_composed(request: &RequestMessage) -> bool
    ensures { result ≡ is_ok (composed request.now) }
{
    request.check_message().is_ok()
}

/// For how long a reply has been kept, in microseconds.
pub(crate) fn age_of(point: &Point, kept: &Kept) -> u64
    ensures { result ≡ plain.age_of point.now kept.now }
{
    point.requests.clock.saturating_sub(kept.moment)
}

/// Whether so few requests were asked, and so few replies were put, since a reply that it is kept still, up to the end of a row that
/// asks this request.
pub(crate) fn is_few(
    cache: &cache::Config,
    point: &Point,
    kept: &Kept,
    request: u64,
    outs: &[Out],
) -> bool
    ensures { result ≡ plain.is_few cache.now point.now kept.now request outs.now }
{
    let asks = request.saturating_sub(kept.asked);
    let replies = point.replied.saturating_sub(kept.replied);
    let others = other_replies(request, outs);
    let between = u128::from(replies) + u128::from(others);
    3 * u128::from(asks) + between < u128::from(room_of(cache))
}

/// Whether a row that asks this request must answer it by the view of a reply.
fn must_hit(
    alloc: Global,
    cache: &cache::Config,
    point: &Point,
    kept: &Kept,
    question: &Question,
    message: &RequestMessage,
    request: u64,
    outs: &[Out],
) -> Result<bool, NoMemory>
    ensures { IfOk result (λ b. b ≡ plain.must_hit cache.now point.now kept.now question.now.key message.now request outs.now) }
{
    let composed = is_composed(message);
    let valid = u128::from(age_of(point, kept)) <= kept.validity.as_micros();
    let few = is_few(cache, point, kept, request, outs);
    let spare = all_spare(alloc, point, &question.key, request, outs)?;
    Ok(all(composed, valid, few, spare))
}

/// Whether the reply to a request is the view of one that is kept.
fn has_view(
    alloc: Global,
    point: &Point,
    kept: &Kept,
    question: &Question,
    request: u64,
    outs: &[Out],
) -> Result<bool, NoMemory>
    ensures { IfOk result (plain.TellsViewed question.now (plain.age_of point.now kept.now) kept.now.message (reply_to request outs.now)) }
{
    match reply_to(request, outs) {
        Some(Ok(message)) => kept.is_given(alloc, question, point.requests.clock, message),
        _ => Ok(false),
    }
}

/// A row that should hit and doesn't: its request is to be answered by a view, and there is none, or it is handed to a server or marked.
fn misses(must: bool, viewed: bool, handed: bool, marked: bool) -> bool
    ensures { result ≡ plain.misses must viewed handed marked }
{
    must && !(viewed && !handed && !marked)
}

/// Whether a row that asks this request should have been answered by the view of a reply, and was not.
fn is_missed_of(
    alloc: Global,
    cache: &cache::Config,
    point: &Point,
    kept: &Kept,
    question: &Question,
    message: &RequestMessage,
    outs: &[Out],
) -> Result<bool, NoMemory>
    ensures { IfOk result (plain.IsMissedOf cache.now point.now kept.now question.now message.now outs.now) }
{
    let request = point.requests.asked.saturating_sub(1);
    let must = must_hit(alloc, cache, point, kept, question, message, request, outs)?;
    let viewed = has_view(alloc, point, kept, question, request, outs)?;
    let handed = is_handed(request, outs);
    let marked = has_mark(request, outs);
    Ok(misses(must, viewed, handed, marked))
}

/// Whether a row that asks a request should have been answered from the cache, and was not.
fn is_missed(
    alloc: Global,
    cache: &cache::Config,
    course: &Course,
    message: &RequestMessage,
    outs: &[Out],
) -> Result<bool, NoMemory>
    ensures { IfOk result (plain.TellsMissed cache.now course.now message.now outs.now) }
{
    let Some(question) = question_of(alloc, message)? else {
        return Ok(false);
    };
    let Some(kept) = course.replies.get(&question.key) else {
        return Ok(false);
    };
    is_missed_of(alloc, cache, &course.point, kept, &question, message, outs)
}

/// Whether a row, whose event has come, should have been answered from the cache, and was not.
pub(crate) fn misses_hit(
    alloc: Global,
    cache: &cache::Config,
    course: &Course,
    row: &Row,
) -> Result<bool, NoMemory>
    ensures { IfOk result (plain.TellsRow cache.now course.now row.now) }
{
    match &row.event.what {
        What::Ask { request } => is_missed(alloc, cache, course, request, row.outs.as_slice()),
        _ => Ok(false),
    }
}
