//! What the outs of a row owe each other.

ghost use Rattle.std.specs.Prelude.{◌≡◌, min, if◌then◌else◌, nat_le};
ghost use Rattle.right_trace.specs.Right.{fault_of, faults};
ghost use Rattle.trace_points.specs.questions.Marks as plain;

use client_request::{Error, Out, QueryError};

/// Whether an out is an Ok reply to a request.
fn is_reply_to(request: u64, out: &Out) -> bool
    ensures { result ≡ plain.is_reply_to request out.now }
{
    match out {
        Out::Reply {
            request: other,
            result: Ok(_),
        } => *other == request,
        _ => false,
    }
}

/// Whether the first of these is one.
fn is_followed(request: u64, outs: &[Out]) -> bool
    ensures { result ≡ plain.followed_seen request outs.now }
{
    match outs.split_first() {
        None => false,
        Some((out, _)) => is_reply_to(request, out),
    }
}

/// Whether an out is no mark, or stands directly before its reply.
fn mark_stands(out: &Out, behind: &[Out]) -> bool
    ensures { result ≡ plain.mark_stands out.now behind.now }
{
    match out {
        Out::Stale { request } => is_followed(*request, behind),
        _ => true,
    }
}

/// Whether a walk over a row finds each mark directly before its reply.
fn all_marks_stand(outs: &[Out]) -> bool
    ensures { result ≡ plain.marks_seen outs.now }
{
    let mut left = outs;
    while let Some((out, behind)) = left.split_first() {
        if !mark_stands(out, behind) {
            return false;
        }
        left = behind;
    }
    true
}

/// Whether each mark of a row stands directly before its reply, which is Ok.
#[tactic(auto, using(crate::proofs::lemmas::questions::Following::tells_marks))]
pub fn marks_stand(outs: &[Out]) -> bool
    ensures { plain.TellsMarks outs.now result }
{
    all_marks_stand(outs)
}

/// Whether an out is an error that an event at a datagram place brings.
fn is_fault(out: &Out) -> bool
    ensures { fault_of out.now ≡ (if result then 1 else 0) }
{
    match out {
        Out::Reply {
            result: Err(Error::Dgram(QueryError::Connect(_))),
            ..
        } => true,
        Out::Reply {
            result: Err(Error::Dgram(QueryError::Send(_))),
            ..
        } => true,
        Out::Reply {
            result: Err(Error::Dgram(QueryError::Receive(_))),
            ..
        } => true,
        _ => false,
    }
}

/// How many outs of a row are such errors. Two are as many as more.
fn count_faults(outs: &[Out]) -> u8
    ensures { result ≡ min 2 (faults outs.now) }
{
    let mut count = 0;
    for out in outs {
        if is_fault(out) && count < 2 {
            count += 1;
        }
    }
    count
}

/// Whether at most one out of a row is such an error.
#[tactic(auto, using(crate::proofs::lemmas::questions::Following::tells_one_fault))]
pub fn has_one_fault_at_most(outs: &[Out]) -> bool
    ensures told { plain.TellsOneFault outs.now result }
{
    count_faults(outs) <= 1
}
