//! What is known at a point of a trace, but for the replies that must be given again.

ghost use Rattle.std.specs.Prelude.{◌≡◌, IfOk, OnOk};
ghost use Rattle.number_table.specs.Entries.{entry_at};
ghost use Rattle.trace_hits.specs.Point as plain;

use crate::question::{Question, question_of};
use cache_rules::Key;
use client_request::{Event, Out, What};
use dns_base::NoMemory;
use std::alloc::Global;
use trace_tables::Requests;

/// What is known at a point of a trace.
pub(crate) struct Point {
    pub requests: Requests,
    /// The request that the newest row asks.
    pub here: Option<u64>,
    /// How many replies were put.
    pub replied: u64,
}

impl Drop for Point {
    fn drop(self) {
        let Point {
            requests: _,
            here: _,
            replied: _,
        } = self;
    }
}

/// A number, if it is given, is this one.
pub(crate) fn is_number(number: u64, given: Option<u64>) -> bool
    ensures { result ≡ plain.is_number number given }
{
    match given {
        None => false,
        Some(given) => given == number,
    }
}

/// The request that an event asks, where so many were asked before.
fn asked_by(what: &What, asked: u64) -> Option<u64>
    ensures { result ≡ plain.asked_by what.now asked }
{
    match what {
        What::Ask { .. } => Some(asked),
        _ => None,
    }
}

impl Point {
    /// Before the first row.
    pub(crate) fn new(alloc: Global) -> Point
        ensures { result ≡ plain.nothing }
    {
        Point {
            requests: Requests::new(alloc),
            here: None,
            replied: 0,
        }
    }

    /// An event comes.
    pub(crate) fn meet(&mut self, alloc: Global, event: &Event) -> Result<(), NoMemory>
        ensures { OnOk result (self.new ≡ plain.met event.now self.old) }
    {
        self.here = asked_by(&event.what, self.requests.asked);
        self.requests.meet(alloc, event)
    }

    /// A reply more, if an out is one.
    fn count(&mut self, out: &Out) -> Result<(), NoMemory>
        ensures { OnOk result (self.new ≡ plain.counted out.now self.old) }
    {
        if let Out::Reply { .. } = out {
            let Some(replied) = self.replied.checked_add(1) else {
                return Err(NoMemory);
            };
            self.replied = replied;
        }
        Ok(())
    }

    /// An out is put.
    pub(crate) fn put(&mut self, alloc: Global, out: &Out) -> Result<(), NoMemory>
        ensures { OnOk result (self.new ≡ plain.has_put out.now self.old) }
    {
        self.count(out)?;
        self.requests.put(alloc, out)
    }

    /// What a request asks that was asked. None exactly where it was not, or its results are not kept.
    pub(crate) fn question_at(
        &self,
        alloc: Global,
        request: u64,
    ) -> Result<Option<Question>, NoMemory>
        ensures { IfOk result (plain.IsToldAt (entry_at request self.now.requests.askings)) }
    {
        match self.requests.askings.get(request) {
            None => Ok(None),
            Some(asked) => question_of(alloc, &asked.request),
        }
    }

    /// Whether a request has a key.
    pub(crate) fn has_key(&self, alloc: Global, key: &Key, request: u64) -> Result<bool, NoMemory>
        ensures { IfOk result (λ b. b ≡ plain.has_key key.now (entry_at request self.now.requests.askings)) }
    {
        match self.question_at(alloc, request)? {
            None => Ok(false),
            Some(question) => Ok(question.key == *key),
        }
    }
}
