//! Replies that later requests may share.

ghost use Rattle.std.specs.Prelude.{◌≡◌, [], false, OnOk, IfOk, option_copied};
ghost use Rattle.std.specs.Map.{lookup};
ghost use Rattle.right_trace.specs.Keys as keys;
ghost use Rattle.cache_rules.specs.Key.{same_key};
ghost use Rattle.trace_tables.specs.Lists.{list_or_none};
ghost use Rattle.trace_replies.specs.given.Earlier as plain;

use crate::given::asks::{Asks, asks_of};
use cache_rules::Key;
use client_request::Error;
use dns_base::{Message, NoMemory};
use message_judging::views::Flags;
use std::alloc::Global;
use std::collections::HashMap;
use std::marker::Model;
use trace_tables::{Newest, Requests};

/// A reply to a request: with which flags it was asked, and when it was given, in microseconds.
pub struct Earlier {
    pub request: u64,
    pub flags: Flags,
    pub moment: u64,
    pub outcome: Result<Message, Error>,
}

impl Drop for Earlier {
    fn drop(self) {
        let Earlier {
            request: _,
            flags: _,
            moment: _,
            outcome: _,
        } = self;
    }
}

/// Replies by what they answer: the key of their requests without AD, DO and RD.
pub struct Earliers {
    replies: HashMap<Key, Newest<Earlier>>,
}

impl Drop for Earliers {
    fn drop(self) {
        let Earliers { replies: _ } = self;
    }
}

impl Model for Earliers {
    ghost use Rattle.trace_replies.specs.given.Earlier.{Table};

    ghost Value = { Table };

    ghost view = { λ t. t.replies.entries };
}

/// Takes the replies to a question out.
fn take(table: &mut HashMap<Key, Newest<Earlier>>, alloc: Global, key: &Key) -> Newest<Earlier>
    ensures taken { result ≡ plain.replies_to key.now table.old.entries }
    ensures others { (q : keys.Key) → same_key key.now q ≡ false → lookup (same_key q) table.new.entries ≡ lookup (same_key q) table.old.entries }
{
    match table.remove(key) {
        Some(replies) => replies,
        None => Newest::new(alloc),
    }
}

/// A reply more.
fn add(
    table: &mut HashMap<Key, Newest<Earlier>>,
    alloc: Global,
    key: Key,
    reply: Earlier,
) -> Result<(), NoMemory>
    ensures { OnOk result (plain.Adds key reply table.old.entries table.new.entries) }
{
    let mut replies = take(table, alloc, &key);
    replies.push(reply)?;
    match table.insert(key, replies) {
        Ok(_) => Ok(()),
        Err(_) => Err(NoMemory),
    }
}

/// The same result.
fn copy_of(outcome: &Result<Message, Error>) -> Result<Result<Message, Error>, NoMemory>
    ensures { IfOk result (λ copy. copy ≡ outcome.now) }
{
    match outcome {
        Ok(message) => {
            let copy = message.try_clone()?;
            Ok(Ok(copy))
        }
        Err(error) => Ok(Err(*error)),
    }
}

impl Earliers {
    /// Before the first row.
    pub fn new(alloc: Global) -> Earliers
        ensures { result ≡ [] }
    {
        Earliers {
            replies: HashMap::new(alloc),
        }
    }

    /// The replies to a question, the newest first.
    pub fn get(&self, key: &Key) -> Option<&Newest<Earlier>>
        ensures { list_or_none (option_copied result) ≡ plain.replies_to key.now self.now }
    {
        self.replies.get(key)
    }

    /// A request is given a reply, a fresh message or an error by its own cause, which is kept if its results are.
    pub fn put(
        &mut self,
        alloc: Global,
        requests: &Requests,
        request: u64,
        outcome: &Result<Message, Error>,
    ) -> Result<(), NoMemory>
        ensures { OnOk result (plain.Keeps requests.now request outcome.now self.old self.new) }
    {
        let Some(asked) = requests.askings.get(request) else {
            return Ok(());
        };
        let Some(asks) = asks_of(alloc, &asked.request)? else {
            return Ok(());
        };
        let Asks {
            key,
            flags,
            name: _,
        } = asks;
        let reply = Earlier {
            request,
            flags,
            moment: requests.clock,
            outcome: copy_of(outcome)?,
        };
        add(&mut self.replies, alloc, key, reply)
    }
}
