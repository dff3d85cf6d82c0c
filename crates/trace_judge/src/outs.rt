//! What is said of an out where it is put.

ghost use Rattle.std.specs.Prelude.{IfOk};
ghost use Rattle.trace_judge.specs.Outs as plain;

use crate::case::{Case, Mark};
use crate::course::Course;
use crate::failures::fails;
use crate::replies::{has_cause, has_direct_cause, judge_message};
use client_request::{Error, Out};
use dns_base::{Message, NoMemory};
use std::alloc::Global;
use trace_outs::is_out_right;
use trace_outs::reasons::{Point, ends_badly};
use trace_points::questions::is_first;

/// Which clauses outs keep.
#[derive(Clone, Copy, Debug, Drop)]
pub struct Kept {
    pub messages: bool,
    pub firsts: bool,
    pub causes: bool,
    pub orders: bool,
}

/// What is said of an out.
#[derive(Clone, Copy, Debug, Drop)]
pub struct Said {
    pub kept: Kept,
    /// Whether it is a reply that is fresh, or an error by its own cause.
    pub given: bool,
    /// Whether it closes a place that ends badly.
    pub is_bad: bool,
    /// The mark that it is.
    pub mark: Option<Mark>,
}

/// What is said of a reply that is a message.
fn judge_ok(
    alloc: Global,
    case: &Case<'_>,
    course: &Course,
    request: u64,
    message: &Message,
) -> Result<Said, NoMemory>
    ensures { IfOk result (plain.TellsSaid case.now course.now (Out.Reply request (Ok message.now))) }
{
    let judged = judge_message(alloc, case, course, request, message)?;
    let firsts = is_first(&course.here.pass.ledger.books, request);
    Ok(Said {
        kept: Kept {
            messages: judged.is_right,
            firsts,
            causes: true,
            orders: true,
        },
        given: judged.is_fresh,
        is_bad: false,
        mark: None,
    })
}

/// What is said of a reply that is an error.
fn judge_error(
    alloc: Global,
    case: &Case<'_>,
    course: &Course,
    request: u64,
    error: Error,
) -> Result<Said, NoMemory>
    ensures { IfOk result (plain.TellsSaid case.now course.now (Out.Reply request (Err error))) }
{
    let causes = has_cause(alloc, case, course, request, error)?;
    let given = has_direct_cause(alloc, case, course, request, error)?;
    let firsts = is_first(&course.here.pass.ledger.books, request);
    Ok(Said {
        kept: Kept {
            messages: true,
            firsts,
            causes,
            orders: true,
        },
        given,
        is_bad: false,
        mark: None,
    })
}

/// Whether an out is right, where it is no reply.
fn is_right(alloc: Global, case: &Case<'_>, course: &Course, out: &Out) -> Result<bool, NoMemory>
    ensures { IfOk result (plain.TellsOut case.now course.now out.now) }
{
    let point = Point {
        conf: &case.rules.conf,
        servers: &case.rules.servers,
        row: case.row,
        past: &case.past.pass.ledger,
        past_timers: &case.past.pass.timers,
        here: &course.here.pass.ledger,
        timers: &course.here.pass.timers,
        made: &course.made,
        comings: case.comings,
    };
    is_out_right(alloc, &point, &course.here.loads, &course.here.held, out)
}

/// Whether a place that is closed ends badly.
fn is_bad_end(alloc: Global, case: &Case<'_>, course: &Course, place: u64) -> Result<bool, NoMemory>
    ensures { IfOk result (plain.TellsBadEnd case.now course.now place) }
{
    let point = Point {
        conf: &case.rules.conf,
        servers: &case.rules.servers,
        row: case.row,
        past: &case.past.pass.ledger,
        past_timers: &case.past.pass.timers,
        here: &course.here.pass.ledger,
        timers: &course.here.pass.timers,
        made: &course.made,
        comings: case.comings,
    };
    ends_badly(alloc, &point, place)
}

/// The same of an out, if it closes one.
fn is_bad(alloc: Global, case: &Case<'_>, course: &Course, out: &Out) -> Result<bool, NoMemory>
    ensures { IfOk result (plain.TellsBad case.now course.now out.now) }
{
    match out {
        Out::Close { place } => is_bad_end(alloc, case, course, *place),
        _ => Ok(false),
    }
}

/// The mark of a reply that is stale.
fn mark_for(
    alloc: Global,
    case: &Case<'_>,
    course: &Course,
    request: u64,
) -> Result<Option<Mark>, NoMemory>
    ensures { IfOk result (plain.TellsMark case.now course.now (Out.Stale request)) }
{
    let fails = fails(alloc, case, course, request)?;
    Ok(Some(Mark { request, fails }))
}

/// The mark that an out is.
fn mark_of(
    alloc: Global,
    case: &Case<'_>,
    course: &Course,
    out: &Out,
) -> Result<Option<Mark>, NoMemory>
    ensures { IfOk result (plain.TellsMark case.now course.now out.now) }
{
    match out {
        Out::Stale { request } => mark_for(alloc, case, course, *request),
        _ => Ok(None),
    }
}

/// What is said of an out that is no reply.
fn judge_other(alloc: Global, case: &Case<'_>, course: &Course, out: &Out) -> Result<Said, NoMemory>
    requires { plain.IsOther out.now }
    ensures { IfOk result (plain.TellsSaid case.now course.now out.now) }
{
    let orders = is_right(alloc, case, course, out)?;
    let is_bad = is_bad(alloc, case, course, out)?;
    let mark = mark_of(alloc, case, course, out)?;
    Ok(Said {
        kept: Kept {
            messages: true,
            firsts: true,
            causes: true,
            orders,
        },
        given: false,
        is_bad,
        mark,
    })
}

/// What is said of an out.
pub(crate) fn judge(
    alloc: Global,
    case: &Case<'_>,
    course: &Course,
    out: &Out,
) -> Result<Said, NoMemory>
    ensures { IfOk result (plain.TellsSaid case.now course.now out.now) }
{
    match out {
        Out::Reply {
            request,
            result: Ok(message),
        } => judge_ok(alloc, case, course, *request, message),
        Out::Reply {
            request,
            result: Err(error),
        } => judge_error(alloc, case, course, *request, *error),
        _ => judge_other(alloc, case, course, out),
    }
}
