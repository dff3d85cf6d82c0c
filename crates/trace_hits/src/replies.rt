//! The replies that must be given again, by what they answer.

ghost use Rattle.std.specs.Prelude.{◌≡◌, [], IfOk, OnOk, option_copied};
ghost use Rattle.trace_hits.specs.Replies as plain;

use crate::kept::{Kept, begin};
use crate::point::{Point, is_number};
use crate::question::Question;
use cache_rules::Key;
use client_request::Error;
use client_settings::cache;
use dns_base::{Message, NoMemory};
use std::alloc::Global;
use std::collections::HashMap;
use std::marker::Model;

/// At most one reply to each question: the key of the request to which it was.
pub(crate) struct Replies {
    kept: HashMap<Key, Kept>,
}

impl Drop for Replies {
    fn drop(self) {
        let Replies { kept: _ } = self;
    }
}

impl Model for Replies {
    ghost use Rattle.trace_hits.specs.Kept.{Table};

    ghost Value = { Table };

    ghost view = { λ t. t.kept.entries };
}

impl Replies {
    /// Before the first row.
    pub(crate) fn new(alloc: Global) -> Replies
        ensures { result ≡ [] }
    {
        Replies {
            kept: HashMap::new(alloc),
        }
    }

    /// The reply to a question that must be given again.
    pub(crate) fn get(&self, key: &Key) -> Option<&Kept>
        ensures { option_copied result ≡ plain.kept_of key.now self.now }
    {
        self.kept.get(key)
    }

    /// The reply to a question is this one from now on, or there is none.
    fn set(&mut self, key: Key, kept: Option<Kept>) -> Result<(), NoMemory>
        ensures { OnOk result (plain.Sets key kept self.old self.new) }
    {
        match kept {
            Some(kept) => match self.kept.insert(key, kept) {
                Ok(_) => Ok(()),
                Err(_) => Err(NoMemory),
            },
            None => {
                let _ = self.kept.remove(&key);
                Ok(())
            }
        }
    }

    /// The reply to a question stays, or is forgotten.
    fn keep_if(&mut self, keeps: bool, key: &Key)
        ensures { plain.Keeps keeps key.now self.old self.new }
    {
        if !keeps {
            let _ = self.kept.remove(key);
        }
    }

    /// Whether a message is the view of the reply that is kept, if there is one.
    fn is_again(
        &self,
        alloc: Global,
        question: &Question,
        moment: u64,
        message: &Message,
    ) -> Result<bool, NoMemory>
        ensures { IfOk result (plain.TellsAgain question.now moment message.now (plain.kept_of question.now.key self.now)) }
    {
        match self.get(&question.key) {
            None => Ok(true),
            Some(kept) => kept.is_given(alloc, question, moment, message),
        }
    }

    /// A message is the reply to a request in the row that asks it: what is kept goes on being so where this is its view.
    fn meet(
        &mut self,
        alloc: Global,
        question: &Question,
        moment: u64,
        message: &Message,
    ) -> Result<(), NoMemory>
        ensures { OnOk result (plain.Meets question.now moment message.now self.old self.new) }
    {
        let again = self.is_again(alloc, question, moment, message)?;
        self.keep_if(again, &question.key);
        Ok(())
    }

    /// A request that asks this has its reply.
    fn take(
        &mut self,
        alloc: Global,
        cache: &cache::Config,
        point: &Point,
        question: Question,
        request: u64,
        outcome: &Result<Message, Error>,
    ) -> Result<(), NoMemory>
        ensures { OnOk result (plain.Takes cache.now question request outcome.now point.now self.old self.new) }
    {
        match outcome {
            Err(_) => self.set(question.key, None),
            Ok(message) => {
                if is_number(request, point.here) {
                    return self.meet(alloc, &question, point.requests.clock, message);
                }
                let kept = begin(cache, point, request, message)?;
                self.set(question.key, kept)
            }
        }
    }

    /// A request has its reply at a point.
    pub(crate) fn put(
        &mut self,
        alloc: Global,
        cache: &cache::Config,
        point: &Point,
        request: u64,
        outcome: &Result<Message, Error>,
    ) -> Result<(), NoMemory>
        ensures { OnOk result (plain.Puts cache.now request outcome.now point.now self.old self.new) }
    {
        if point.requests.is_marked(request) {
            return Ok(());
        }
        match point.question_at(alloc, request)? {
            None => Ok(()),
            Some(question) => self.take(alloc, cache, point, question, request, outcome),
        }
    }
}
