//! Two requests that are asked together, and the turns until both replies.

ghost use Rattle.std.specs.Prelude.{◌≡◌, ◌<◌, true, false, OnOk, IfOk, IfErr, IsErrOf};
ghost use Rattle.client_request.specs.Response.{IsRefusal};
ghost use Rattle.client_request.specs.declared.error.Error.TheVariants.{NumbersUsed};
ghost use Rattle.client_loop.specs.Asking.{between};
ghost use Rattle.client_loop.specs.Both.{AreAnswered, AreBegun, StopForNumbers, are_there, no_replies, or_replies, replies_in, replies_of};

use crate::asking::{MOST_TURNS, begin};
use crate::turns::turn;
use client_core::{Client, Clock, Edge};
use client_request::{Error, Out, RequestMessage, Row, Words};
use dns_base::Message;
use std::collections::VecDeque;

/// The replies to two requests, each none where it did not come.
#[derive(Drop)]
pub struct BothReplies {
    /// The reply to the first.
    pub first: Option<Result<Message, Error>>,
    /// The reply to the second.
    pub second: Option<Result<Message, Error>>,
}

impl BothReplies {
    /// That neither came.
    fn none() -> BothReplies
        ensures { result ≡ no_replies }
    {
        BothReplies {
            first: None,
            second: None,
        }
    }

    /// Whether both came.
    fn are_there(&self) -> bool
        ensures { result ≡ are_there self.now }
    {
        self.first.is_some() && self.second.is_some()
    }

    /// These, and of others what is missing.
    fn or(self, later: BothReplies) -> BothReplies
        ensures { result ≡ or_replies self later }
    {
        BothReplies {
            first: self.first.or(later.first),
            second: self.second.or(later.second),
        }
    }
}

/// What an out replies to the request of a number and to the next one.
fn replies_of(number: u64, out: Out) -> BothReplies
    requires { number < u64.MAX }
    ensures { result ≡ replies_of number out }
{
    match out {
        Out::Reply { request, result } => {
            if request == number {
                BothReplies {
                    first: Some(result),
                    second: None,
                }
            } else if request == number + 1 {
                BothReplies {
                    first: None,
                    second: Some(result),
                }
            } else {
                BothReplies::none()
            }
        }
        _ => BothReplies::none(),
    }
}

/// The first replies in a row to the request of a number and to the next one.
fn replies_in(number: u64, row: Row) -> BothReplies
    requires { number < u64.MAX }
    ensures { result ≡ replies_in number row.outs }
{
    let Row { event: _, outs } = row;
    let mut left = VecDeque::from(outs.into_vec());
    let mut replies = BothReplies::none();
    while let Some(out) = left.pop_front() {
        replies = replies.or(replies_of(number, out));
    }
    replies
}

/// A client is asked two requests, each at the clock's moment, and its edge acts on what it puts out for each. What it replies at
/// once.
fn begin_both<E: Edge, C: Clock, W: Words>(
    client: &mut Client,
    edge: &mut E,
    clock: &mut C,
    words: &mut W,
    number: u64,
    first: RequestMessage,
    second: RequestMessage,
) -> Result<BothReplies, Error>
    requires { number < u64.MAX }
    ensures begun { IfOk result (between E.deeds E.waits E.polls C.given W.stream (client.old, edge.old, clock.old, words.old) (client.new, edge.new, clock.new, words.new) (AreBegun number first second)) }
    ensures numbers { IsErrOf result NumbersUsed → between E.deeds E.waits E.polls C.given W.stream (client.old, edge.old, clock.old, words.old) (client.new, edge.new, clock.new, words.new) (StopForNumbers first second) }
    ensures timeout { OnOk result (client.new.timeout ≡ client.old.timeout) }
    ensures lasts { OnOk result (client.new.failed ≡ false) }
    ensures refused { IfErr result IsRefusal }
    ensures failed_only { IsErrOf result Error.Failed → client.old.failed ≡ true }
{
    let row = begin(client, edge, clock, words, first)?;
    let at_first = replies_in(number, row);
    let behind = match begin(client, edge, clock, words, second) {
        Ok(row) => row,
        Err(error) => return Err(error),
    };
    Ok(at_first.or(replies_in(number, behind)))
}

/// Asks a client two requests, the second right behind the first, and turns until both replies are there, in whichever order they
/// come, at most `MOST_TURNS` times. Both deadlines run from the asking on, so that a server that is silent costs one of them. The
/// number is that of the client's next request, and the second request has the next one.
///
/// `NoMemory`, or `NumbersUsed` where a number would pass the greatest `u64`, or `Failed` where an earlier step of the client
/// was refused. After an error the edge may not have acted on what the client put out: neither is to be used again.
pub fn ask_both<E: Edge, C: Clock, W: Words>(
    client: &mut Client,
    edge: &mut E,
    clock: &mut C,
    words: &mut W,
    number: u64,
    first: RequestMessage,
    second: RequestMessage,
) -> Result<BothReplies, Error>
    requires { number < u64.MAX }
    ensures answered { IfOk result (between E.deeds E.waits E.polls C.given W.stream (client.old, edge.old, clock.old, words.old) (client.new, edge.new, clock.new, words.new) (AreAnswered number 1000000 first second)) }
    ensures numbers { IsErrOf result NumbersUsed → between E.deeds E.waits E.polls C.given W.stream (client.old, edge.old, clock.old, words.old) (client.new, edge.new, clock.new, words.new) (StopForNumbers first second) }
    ensures timeout { OnOk result (client.new.timeout ≡ client.old.timeout) }
    ensures lasts { OnOk result (client.new.failed ≡ false) }
    ensures refused { IfErr result IsRefusal }
    ensures failed_only { IsErrOf result Error.Failed → client.old.failed ≡ true }
{
    let mut replies = match begin_both(client, edge, clock, words, number, first, second) {
        Ok(replies) => replies,
        Err(error) => return Err(error),
    };
    let mut left = MOST_TURNS;
    while left > 0 && !replies.are_there() {
        let row = match turn(client, edge, clock, words) {
            Ok(row) => row,
            Err(error) => return Err(error),
        };
        replies = replies.or(replies_in(number, row));
        left -= 1;
    }
    Ok(replies)
}
