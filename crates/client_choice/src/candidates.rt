//! The order in which the servers are started for a request.

ghost use Rattle.std.specs.Prelude.{◌≡◌, ◌+◌, ◌*◌, ◌<◌, OnOk, IfOk, [], length, map};
ghost use Rattle.std.specs.Ordering.{is_lt};
ghost use Rattle.client_request.specs.Cx.{view_of, LendsTheSame};
ghost use Rattle.client_choice.specs.Candidates as plain;

use crate::entries::probe;
use crate::job::ListedServer;
use client_request::{Cx, Words};
use dns_base::NoMemory;
use std::alloc::Global;
use std::cmp::Ordering;
use std::collections::VecDeque;

/// No estimate is above four hours, in microseconds.
const LONGEST: u64 = 14_400_000_000;

/// A server that a request may be started at.
#[derive(Clone, Copy, Debug, PartialEq, Eq)]
pub struct Candidate {
    /// Its place among the servers, from 0.
    pub server: usize,
    /// How many requests wait there.
    pub queue: usize,
    /// How long it is expected to take, in microseconds.
    pub estimate: u64,
}

/// Whether a server takes longer than `bound` thousandths of a microsecond.
fn is_slow(c: &Candidate, bound: u128) -> bool
    ensures { result ≡ plain.is_slow bound c.now }
{
    u128::from(c.estimate) * 1000 > bound
}

/// Whether one of two servers that are both fast, or both slow, is to be started earlier.
fn is_earlier(c: &Candidate, d: &Candidate) -> bool
    ensures { result ≡ plain.is_earlier c.now d.now }
{
    if c.queue != d.queue {
        return c.queue < d.queue;
    }
    if c.estimate != d.estimate {
        return c.estimate < d.estimate;
    }
    c.server < d.server
}

/// Whether a server is to be started before another.
fn comes_before(c: &Candidate, d: &Candidate, bound: u128) -> bool
    ensures { result ≡ plain.comes_before bound c.now d.now }
{
    match (is_slow(c, bound), is_slow(d, bound)) {
        (false, true) => true,
        (true, false) => false,
        (false, false) | (true, true) => is_earlier(c, d),
    }
}

/// How two servers compare by that.
fn start_order(c: &Candidate, d: &Candidate, bound: u128) -> Ordering
    ensures { is_lt result ≡ plain.comes_before bound c.now d.now }
{
    if comes_before(c, d, bound) {
        Ordering::Less
    } else if comes_before(d, c, bound) {
        Ordering::Greater
    } else {
        Ordering::Equal
    }
}

/// The least estimate.
fn least_of(list: &[Candidate]) -> u64
    ensures { result ≡ plain.least_of list.now }
{
    let mut least = LONGEST;
    for c in list {
        least = least.min(c.estimate);
    }
    least
}

/// Puts servers in order.
fn place_all(
    alloc: Global,
    candidates: &[Candidate],
    bound: u128,
) -> Result<Vec<Candidate>, NoMemory>
    ensures { IfOk result (λ list. list.items ≡ plain.placed_all bound candidates.now []) }
{
    let mut list = Vec::from_slice(alloc, candidates)?;
    list.sort_by(|c, d| start_order(c, d, bound))?;
    Ok(list)
}

/// Puts the server of a place first where nothing is asked of it, with the least estimate.
fn bring_forward(list: &mut Vec<Candidate>, place: usize, least: u64) -> Result<(), NoMemory>
    ensures { OnOk result (list.new.items ≡ plain.forward least place list.old.items) }
{
    let Some(found) = list.get(place) else {
        return Ok(());
    };
    if found.queue != 0 {
        return Ok(());
    }
    let c = list.remove(place);
    let first = Candidate {
        estimate: least,
        ..c
    };
    list.insert(0, first)?;
    Ok(())
}

/// Puts the server that is probed first, if one is and nothing is asked of it.
fn put_probed_first(
    list: &mut Vec<Candidate>,
    place: Option<usize>,
    least: u64,
) -> Result<(), NoMemory>
    ensures { OnOk result (list.new.items ≡ plain.probed least place list.old.items) }
{
    match place {
        None => Ok(()),
        Some(place) => bring_forward(list, place, least),
    }
}

/// What a request is started at.
fn entries_of(alloc: Global, list: &[Candidate]) -> Result<VecDeque<ListedServer>, NoMemory>
    ensures { IfOk result (λ entries. entries.items ≡ map plain.entry_of list.now) }
{
    let mut entries = VecDeque::new(alloc);
    for c in list {
        let entry = ListedServer {
            server: c.server,
            estimate: c.estimate,
        };
        entries.push_back(entry)?;
    }
    Ok(entries)
}

/// The servers that a request is to be started at, in order: fast ones first, then those with shorter
/// queues, then those with lower estimates, then those that were added earlier. A server is slow past
/// `factor` thousandths of the least estimate. One of them may be probed.
pub(crate) fn in_order<W: Words>(
    alloc: Global,
    cx: &mut Cx<'_, W>,
    factor: u32,
    candidates: &[Candidate],
) -> Result<VecDeque<ListedServer>, NoMemory>
    ensures lends { LendsTheSame cx.old cx.new }
    ensures ok { IfOk result (λ entries. (entries.items, view_of W.stream cx.new) ≡ plain.in_order factor candidates.now (view_of W.stream cx.old)) }
{
    let least = least_of(candidates);
    let mut list = place_all(alloc, candidates, u128::from(least) * u128::from(factor))?;
    let place = probe(cx, list.len());
    put_probed_first(&mut list, place, least)?;
    entries_of(alloc, &list)
}
