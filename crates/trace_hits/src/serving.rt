//! What a row owes the request that it asks where what the cache has had expired.

ghost use Rattle.std.specs.Prelude.{◌≡◌, ◌&&◌, IfOk};
ghost use Rattle.dns_base.specs.OptRecord.{opt_rcode};
ghost use Rattle.right_trace.specs.Views.{tells_of_name};
ghost use Rattle.trace_hits.specs.Serving as plain;

use crate::course::Course;
use crate::failures::Failures;
use crate::kept::Kept;
use crate::outs::all_spare;
use crate::point::Point;
use crate::question::{Question, question_of};
use crate::row::{age_of, all, is_few};
use client_request::{Out, RequestMessage, Row, What};
use client_settings::cache;
use dns_base::{Message, NoMemory, OptRcode};
use std::alloc::Global;

/// Whether a response code tells of a name: what it has, or that it is not there.
fn tells_of_name(message: &Message) -> bool
    ensures { result ≡ tells_of_name (opt_rcode message.now) }
{
    matches!(message.opt_rcode(), OptRcode(0) | OptRcode(3))
}

/// Whether a request of this row must not fail while what a reply said may serve.
fn must_serve(
    alloc: Global,
    cache: &cache::Config,
    point: &Point,
    kept: &Kept,
    question: &Question,
    request: u64,
    outs: &[Out],
) -> Result<bool, NoMemory>
    ensures { IfOk result (λ b. b ≡ plain.must_serve cache.now point.now kept.now question.now.key request outs.now) }
{
    let tells = tells_of_name(&kept.message);
    let expired = kept.validity.as_micros() < u128::from(age_of(point, kept));
    let few = is_few(cache, point, kept, request, outs);
    let spare = all_spare(alloc, point, &question.key, request, outs)?;
    Ok(all(tells, expired, few, spare))
}

/// Whether what failed at this moment did so while what a reply said may serve.
fn fails_in_time(cache: &cache::Config, kept: &Kept, failed: Option<u64>) -> bool
    ensures { result ≡ plain.fails_in_time cache.now kept.now failed }
{
    match failed {
        None => false,
        Some(moment) => {
            let valid = u128::from(kept.moment) + kept.validity.as_micros();
            u128::from(moment) <= valid + cache.stale_for().as_micros()
        }
    }
}

/// Both are so.
fn both(a: bool, b: bool) -> bool
    ensures { result ≡ (a && b) }
{
    a && b
}

/// Whether the request of a row fails while what a reply said should have served it.
fn is_unserved_of(
    alloc: Global,
    cache: &cache::Config,
    failures: &Failures,
    point: &Point,
    kept: &Kept,
    question: &Question,
    outs: &[Out],
) -> Result<bool, NoMemory>
    ensures { IfOk result (λ b. b ≡ plain.is_unserved cache.now failures.now point.now kept.now question.now.key outs.now) }
{
    let request = point.requests.asked.saturating_sub(1);
    let must = must_serve(alloc, cache, point, kept, question, request, outs)?;
    let fails = fails_in_time(cache, kept, failures.get(request));
    Ok(both(must, fails))
}

/// Whether the request of a row that asks fails where what has expired should have served it.
fn is_unserved(
    alloc: Global,
    cache: &cache::Config,
    failures: &Failures,
    course: &Course,
    message: &RequestMessage,
    outs: &[Out],
) -> Result<bool, NoMemory>
    ensures { IfOk result (plain.TellsUnserved cache.now failures.now course.now message.now outs.now) }
{
    let Some(question) = question_of(alloc, message)? else {
        return Ok(false);
    };
    let Some(kept) = course.replies.get(&question.key) else {
        return Ok(false);
    };
    is_unserved_of(alloc, cache, failures, &course.point, kept, &question, outs)
}

/// Whether the request of a row, whose event has come, fails in it or later where what has expired should have served it.
pub(crate) fn misses_stale(
    alloc: Global,
    cache: &cache::Config,
    failures: &Failures,
    course: &Course,
    row: &Row,
) -> Result<bool, NoMemory>
    ensures { IfOk result (plain.TellsRow cache.now failures.now course.now row.now) }
{
    match &row.event.what {
        What::Ask { request } => is_unserved(
            alloc,
            cache,
            failures,
            course,
            request,
            row.outs.as_slice(),
        ),
        _ => Ok(false),
    }
}
