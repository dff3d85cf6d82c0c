//! What the outs of a row say of the request that the row asks.

ghost use Rattle.std.specs.Prelude.{◌≡◌, ◌≤◌, length, IfOk, option_copied};
ghost use Rattle.number_table.specs.Entries.{entry_at};
ghost use Rattle.trace_hits.specs.Outs as plain;

use crate::point::{Point, is_number};
use cache_rules::Key;
use client_request::{Error, Out};
use dns_base::{Message, NoMemory};
use std::alloc::Global;

/// The reply to a request that an out is.
fn result_for(request: u64, out: &Out) -> Option<&Result<Message, Error>>
    ensures { option_copied result ≡ plain.result_for request out.now }
{
    match out {
        Out::Reply {
            request: to,
            result,
        } => { if *to == request { Some(result) } else { None } }
        _ => None,
    }
}

/// The first reply to a request.
pub(crate) fn reply_to(request: u64, outs: &[Out]) -> Option<&Result<Message, Error>>
    ensures { option_copied result ≡ plain.reply_to request outs.now }
{
    for out in outs {
        if let Some(result) = result_for(request, out) {
            return Some(result);
        }
    }
    None
}

/// An out is a reply to another request.
fn is_other(request: u64, out: &Out) -> bool
    ensures { result ≡ plain.is_other request out.now }
{
    match out {
        Out::Reply { request: to, .. } => *to != request,
        _ => false,
    }
}

/// How many replies there are to other requests.
pub(crate) fn other_replies(request: u64, outs: &[Out]) -> u64
    ensures count { result ≡ plain.others request outs.now }
    ensures few { result ≤ length outs.now }
{
    let mut count = 0;
    for out in outs {
        if is_other(request, out) {
            count += 1;
        }
    }
    count
}

/// An out hands a request to a server.
fn hands(request: u64, out: &Out) -> bool
    ensures { result ≡ plain.hands request out.now }
{
    match out {
        Out::Start { request: of, .. } => *of == request,
        _ => false,
    }
}

/// Whether a request is handed to some server.
pub(crate) fn is_handed(request: u64, outs: &[Out]) -> bool
    ensures { result ≡ plain.is_handed request outs.now }
{
    for out in outs {
        if hands(request, out) {
            return true;
        }
    }
    false
}

/// The request whose mark as stale an out is.
fn mark_of(out: &Out) -> Option<u64>
    ensures { result ≡ plain.mark_of out.now }
{
    match out {
        Out::Stale { request } => Some(*request),
        _ => None,
    }
}

/// Whether a request is marked as stale.
pub(crate) fn has_mark(request: u64, outs: &[Out]) -> bool
    ensures { result ≡ plain.has_mark request outs.now }
{
    for out in outs {
        if is_number(request, mark_of(out)) {
            return true;
        }
    }
    false
}

/// Whether an out, behind this mark, is no reply to another request with a key, or is stale.
fn spares(
    alloc: Global,
    point: &Point,
    key: &Key,
    request: u64,
    mark: Option<u64>,
    out: &Out,
) -> Result<bool, NoMemory>
    ensures { IfOk result (λ b. b ≡ plain.spares point.now.requests.askings key.now request mark out.now) }
{
    match out {
        Out::Reply { request: to, .. } => {
            if *to == request {
                return Ok(true);
            }
            if is_number(*to, mark) {
                return Ok(true);
            }
            let has = point.has_key(alloc, key, *to)?;
            Ok(!has)
        }
        _ => Ok(true),
    }
}

/// Whether no other request with a key has a reply that is not stale.
pub(crate) fn all_spare(
    alloc: Global,
    point: &Point,
    key: &Key,
    request: u64,
    outs: &[Out],
) -> Result<bool, NoMemory>
    ensures { IfOk result (λ b. b ≡ plain.all_spare point.now.requests.askings key.now request None outs.now) }
{
    let mut mark = None;
    for out in outs {
        if !spares(alloc, point, key, request, mark, out)? {
            return Ok(false);
        }
        mark = mark_of(out);
    }
    Ok(true)
}
