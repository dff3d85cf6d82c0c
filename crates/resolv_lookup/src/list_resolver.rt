//! A resolver in memory.

ghost use Rattle.std.specs.Prelude.{◌≡◌, ◌≤◌, [], Some, drop, IfOk, IfErr};
ghost use Rattle.resolv_lookup.specs.Asked.{asking, IsTold, IsCounted};
ghost use Rattle.resolv_lookup.specs.ListAnswers.{next_got, AnswersNext};

use crate::answer::Answer;
use crate::fault::QueryFault;
use crate::resolver::{Asking, Resolver, SearchNames};
use crate::search_iter::SearchIter;
use dns_base::{Message, Name, NoMemory, Rtype};
use resolv_conf::SearchList;
use std::alloc::Global;
use std::collections::VecDeque;
use std::marker::Model;

/// A resolver that answers from a list, and keeps the questions that it was asked.
#[derive(Drop)]
pub struct ListResolver {
    /// The results that are left to give.
    left: VecDeque<Result<Answer, QueryFault>>,
    asked: Vec<Asking>,
    faults: u64,
    suffixes: SearchList,
}

impl Model for ListResolver {
    ghost use Rattle.resolv_lookup.specs.ListAnswers.{Listed};

    ghost Value = { Listed };

    ghost view = { λ l. record {
      left = l.left.items;
      asked = l.asked.items;
      faults = l.faults;
      suffixes = l.suffixes;
    } };
}

impl ListResolver {
    /// A resolver that gives these results in turn, and `NoReply` after the last. It has no suffixes.
    pub fn new(alloc: Global, results: Vec<Result<Answer, QueryFault>>) -> ListResolver
        ensures { result ≡ record { left = results.items; asked = []; faults = 0; suffixes = [] } }
    {
        ListResolver::with_search(alloc, results, SearchList::new(alloc))
    }

    /// The same with suffixes to search.
    pub fn with_search(
        alloc: Global,
        results: Vec<Result<Answer, QueryFault>>,
        suffixes: SearchList,
    ) -> ListResolver
        ensures { result ≡ record { left = results.items; asked = []; faults = 0; suffixes = suffixes } }
    {
        ListResolver {
            left: VecDeque::from(results),
            asked: Vec::new(alloc),
            faults: 0,
            suffixes,
        }
    }

    /// The questions that were asked, in order.
    pub fn asked(&self) -> &[Asking]
        ensures { result.now ≡ self.now.asked }
    {
        &self.asked
    }
}

/// A copy of a result, to be told.
fn copy_of(got: &Result<Answer, QueryFault>) -> Result<Result<Message, QueryFault>, NoMemory>
    ensures { IfOk result (λ copy. copy ≡ got.now) }
{
    match got {
        Err(fault) => Ok(Err(*fault)),
        Ok(answer) => Ok(Ok(answer.try_clone()?.into_message())),
    }
}

/// A copy of what the next question gets.
fn copy_of_next(
    left: &VecDeque<Result<Answer, QueryFault>>,
) -> Result<Result<Message, QueryFault>, NoMemory>
    ensures { IfOk result (λ copy. copy ≡ next_got left.now.items) }
{
    match left.front() {
        None => Ok(Err(QueryFault::NoReply)),
        Some(got) => copy_of(got),
    }
}

/// Takes what the next question gets.
fn take_next(left: &mut VecDeque<Result<Answer, QueryFault>>) -> Result<Answer, QueryFault>
    ensures got { result ≡ next_got left.old.items }
    ensures rest { left.new.items ≡ drop 1 left.old.items }
{
    match left.pop_front() {
        None => Err(QueryFault::NoReply),
        Some(got) => got,
    }
}

impl Resolver for ListResolver {
    type Answer = Answer;

    ghost says = { λ old one new. AnswersNext one.name one.rtype.0 old one.got new };

    ghost asked = { λ l. Some l.asked };

    ghost faults = { λ l. l.faults };

    fn query(&mut self, alloc: Global, name: &Name, rtype: Rtype) -> Result<Answer, QueryFault>
        // It gives the next of its results; where there is no memory, nothing has changed.
        ensures says { AnswersNext name.now rtype.0 self.old result self.new }
        ensures asked { IsTold (asking name.now rtype.0 result) (Some self.old.asked) (Some self.new.asked) }
        ensures count { self.old.faults ≤ self.new.faults }
        ensures failed { IfErr result (IsCounted self.old.faults self.new.faults) }
    {
        let name = name.try_clone(alloc)?;
        let got = copy_of_next(&self.left)?;
        if self.asked.push(Asking { name, rtype, got }).is_err() {
            return Err(QueryFault::from(NoMemory));
        }
        let got = take_next(&mut self.left);
        self.faults = self.faults.saturating_add(u64::from(got.is_err()));
        got
    }
}

impl SearchNames for ListResolver {
    ghost suffixes = { λ l. l.suffixes };

    fn search_iter(&self) -> SearchIter<'_> {
        SearchIter::new(&self.suffixes)
    }
}
