//! Requests that are asked together, and the turns until all replies.

ghost use Rattle.std.specs.Prelude.{ℕ, [], ◌≡◌, ◌⊎◌, ◌≤◌, true, false, length, OnOk, IfOk, IfErr, IsErrOf};
ghost use Rattle.client_request.specs.Response.{IsRefusal};
ghost use Rattle.client_request.specs.declared.error.Error.TheVariants.{NumbersUsed};
ghost use Rattle.client_loop.specs.All.{AllBegun, AllReplied, StopAll, first_replies, of_each, or_each, there};
ghost use Rattle.client_loop.specs.Asking.{between};
ghost use Rattle.client_loop.specs.Replies.{reply_in, reply_of};

use crate::asking::{MOST_TURNS, begin};
use crate::turns::turn;
use client_core::{Client, Clock, Edge};
use client_request::{Error, Out, RequestMessage, Row, Words};
use dns_base::{Message, NoMemory};
use std::alloc::Global;
use std::collections::VecDeque;

/// No reply to any of so many requests.
fn no_replies(alloc: Global, count: usize) -> Result<Vec<Option<Result<Message, Error>>>, NoMemory>
    ensures { IfOk result (λ replies. (number : ℕ) → replies.items ≡ first_replies number count []) }
{
    let mut replies = Vec::new(alloc);
    for _ in 0..count {
        replies.push(None)?;
    }
    Ok(replies)
}

/// Takes what an out replies to one of the requests from a number on, where that has no reply yet.
fn take_reply(number: u64, replies: &mut Vec<Option<Result<Message, Error>>>, out: Out)
    ensures { replies.new.items ≡ or_each replies.old.items (of_each (λ k. reply_of k out) number (length replies.old.items)) }
{
    let Out::Reply { request, result } = out else {
        return;
    };
    if request < number {
        return;
    }
    let place = (request - number) as usize;
    if place < replies.len() && replies[place].is_none() {
        replies[place] = Some(result);
    }
}

/// Takes the replies in a row to requests from a number on that have none yet.
fn take_replies(number: u64, replies: &mut Vec<Option<Result<Message, Error>>>, row: Row)
    ensures { replies.new.items ≡ or_each replies.old.items (of_each (λ k. reply_in k row.outs) number (length replies.old.items)) }
{
    let Row { event: _, outs } = row;
    let mut left = VecDeque::from(outs.into_vec());
    while let Some(out) = left.pop_front() {
        take_reply(number, replies, out);
    }
}

/// How many replies stand before the first that is missing, from where so many do.
fn count_there(replies: &[Option<Result<Message, Error>>], from: usize) -> usize
    requires { from ≤ there replies.now }
    ensures { result ≡ there replies.now }
{
    let mut count = from;
    while count < replies.len() && replies[count].is_some() {
        count += 1;
    }
    count
}

/// A client is asked requests, each at the clock's moment, and its edge acts on what it puts out for each. What it replies at once.
fn begin_all<E: Edge, C: Clock, W: Words>(
    alloc: Global,
    client: &mut Client,
    edge: &mut E,
    clock: &mut C,
    words: &mut W,
    number: u64,
    requests: Vec<RequestMessage>,
) -> Result<Vec<Option<Result<Message, Error>>>, Error>
    ensures begun { IfOk result (λ r. between E.deeds E.waits E.polls C.given W.stream (client.old, edge.old, clock.old, words.old) (client.new, edge.new, clock.new, words.new) (AllBegun number requests.items r.items)) }
    ensures numbers { IsErrOf result NumbersUsed → between E.deeds E.waits E.polls C.given W.stream (client.old, edge.old, clock.old, words.old) (client.new, edge.new, clock.new, words.new) (StopAll requests.items) }
    ensures timeout { OnOk result (client.new.timeout ≡ client.old.timeout) }
    ensures lasts { OnOk result ((requests.items ≡ []) ⊎ (client.new.failed ≡ false)) }
    ensures refused { IfErr result IsRefusal }
    ensures failed_only { IsErrOf result Error.Failed → client.old.failed ≡ true }
{
    let mut replies = match no_replies(alloc, requests.len()) {
        Ok(replies) => replies,
        Err(NoMemory) => return Err(Error::NoMemory),
    };
    let mut left = VecDeque::from(requests);
    while let Some(request) = left.pop_front() {
        let row = match begin(client, edge, clock, words, request) {
            Ok(row) => row,
            Err(error) => return Err(error),
        };
        take_replies(number, &mut replies, row);
    }
    Ok(replies)
}

/// Asks a client requests, each right behind the one before, and turns until all replies are there, in whichever order they come, at
/// most `MOST_TURNS` times: of each request its reply, or none where none of the turns had it. All deadlines run from the asking on, so
/// that a server that is silent costs one of them. The number is that of the client's next request, and the requests have it and
/// those behind it, in order.
///
/// `NoMemory`, or `NumbersUsed` where a number would pass the greatest `u64`, or `Failed` where an earlier step of the client
/// was refused. After an error the edge may not have acted on what the client put out: neither is to be used again.
pub fn ask_all<E: Edge, C: Clock, W: Words>(
    alloc: Global,
    client: &mut Client,
    edge: &mut E,
    clock: &mut C,
    words: &mut W,
    number: u64,
    requests: Vec<RequestMessage>,
) -> Result<Vec<Option<Result<Message, Error>>>, Error>
    ensures answered { IfOk result (λ r. between E.deeds E.waits E.polls C.given W.stream (client.old, edge.old, clock.old, words.old) (client.new, edge.new, clock.new, words.new) (AllReplied number requests.items r.items)) }
    ensures numbers { IsErrOf result NumbersUsed → between E.deeds E.waits E.polls C.given W.stream (client.old, edge.old, clock.old, words.old) (client.new, edge.new, clock.new, words.new) (StopAll requests.items) }
    ensures timeout { OnOk result (client.new.timeout ≡ client.old.timeout) }
    ensures lasts { OnOk result ((requests.items ≡ []) ⊎ (client.new.failed ≡ false)) }
    ensures refused { IfErr result IsRefusal }
    ensures failed_only { IsErrOf result Error.Failed → client.old.failed ≡ true }
{
    let mut replies = match begin_all(alloc, client, edge, clock, words, number, requests) {
        Ok(replies) => replies,
        Err(error) => return Err(error),
    };
    let mut count = count_there(&replies, 0);
    let mut left = MOST_TURNS;
    while left > 0 && count < replies.len() {
        let row = match turn(client, edge, clock, words) {
            Ok(row) => row,
            Err(error) => return Err(error),
        };
        take_replies(number, &mut replies, row);
        count = count_there(&replies, count);
        left -= 1;
    }
    Ok(replies)
}
