//! A request that is asked, and the turns until its reply.

ghost use Rattle.std.specs.Prelude.{◌≡◌, true, false, OnOk, IfOk, IfErr, IsErrOf};
ghost use Rattle.client_request.specs.Response.{IsRefusal};
ghost use Rattle.client_loop.specs.Asking.{Begun, IsAnswered, StopsForNumbers, between};

use crate::reply::reply_in;
use crate::turns::{take, turn};
use client_core::{Client, Clock, Edge};
use client_request::{Error, Event, RequestMessage, Row, What, Words};
use dns_base::Message;

/// How many turns a request is given. With an edge that sleeps where nothing happens they outlast any timeout.
pub const MOST_TURNS: u64 = 1_000_000;

/// Asks a client a request, and turns until its reply is there, at most `MOST_TURNS` times: none where none of them had it.
/// The number is that of the client's next request.
///
/// `NoMemory`, or `NumbersUsed` where a number would pass the greatest `u64`, or `Failed` where an earlier step of the client
/// was refused. After an error the edge may not have acted on what the client put out: neither is to be used again.
pub fn ask<E: Edge, C: Clock, W: Words>(
    client: &mut Client,
    edge: &mut E,
    clock: &mut C,
    words: &mut W,
    number: u64,
    request: RequestMessage,
) -> Result<Option<Result<Message, Error>>, Error>
    ensures answered { IfOk result (between E.deeds E.waits E.polls C.given W.stream (client.old, edge.old, clock.old, words.old) (client.new, edge.new, clock.new, words.new) (IsAnswered number 1000000 request)) }
    ensures numbers { IsErrOf result Error.NumbersUsed → between E.deeds E.waits E.polls C.given W.stream (client.old, edge.old, clock.old, words.old) (client.new, edge.new, clock.new, words.new) (StopsForNumbers request) }
    ensures timeout { OnOk result (client.new.timeout ≡ client.old.timeout) }
    ensures lasts { OnOk result (client.new.failed ≡ false) }
    ensures refused { IfErr result IsRefusal }
    ensures failed_only { IsErrOf result Error.Failed → client.old.failed ≡ true }
{
    ask_within(client, edge, clock, words, number, request, MOST_TURNS)
}

/// A client is asked a request at the clock's moment, and its edge acts on what it puts out.
pub(crate) fn begin<E: Edge, C: Clock, W: Words>(
    client: &mut Client,
    edge: &mut E,
    clock: &mut C,
    words: &mut W,
    request: RequestMessage,
) -> Result<Row, Error>
    ensures begun { IfOk result (between E.deeds E.waits E.polls C.given W.stream (client.old, edge.old, clock.old, words.old) (client.new, edge.new, clock.new, words.new) (Begun request)) }
    ensures numbers { IsErrOf result Error.NumbersUsed → between E.deeds E.waits E.polls C.given W.stream (client.old, edge.old, clock.old, words.old) (client.new, edge.new, clock.new, words.new) (StopsForNumbers request) }
    ensures timeout { OnOk result (client.new.timeout ≡ client.old.timeout) }
    ensures lasts { OnOk result (client.new.failed ≡ false) }
    ensures refused { IfErr result IsRefusal }
    ensures failed_only { IsErrOf result Error.Failed → client.old.failed ≡ true }
{
    request.is_of_octets();
    let event = Event {
        moment: clock.now(),
        what: What::Ask { request },
    };
    take(client, edge, words, event)
}

/// As `ask`, with at most so many turns.
pub fn ask_within<E: Edge, C: Clock, W: Words>(
    client: &mut Client,
    edge: &mut E,
    clock: &mut C,
    words: &mut W,
    number: u64,
    request: RequestMessage,
    most: u64,
) -> Result<Option<Result<Message, Error>>, Error>
    ensures answered { IfOk result (between E.deeds E.waits E.polls C.given W.stream (client.old, edge.old, clock.old, words.old) (client.new, edge.new, clock.new, words.new) (IsAnswered number most request)) }
    ensures numbers { IsErrOf result Error.NumbersUsed → between E.deeds E.waits E.polls C.given W.stream (client.old, edge.old, clock.old, words.old) (client.new, edge.new, clock.new, words.new) (StopsForNumbers request) }
    ensures timeout { OnOk result (client.new.timeout ≡ client.old.timeout) }
    ensures lasts { OnOk result (client.new.failed ≡ false) }
    ensures refused { IfErr result IsRefusal }
    ensures failed_only { IsErrOf result Error.Failed → client.old.failed ≡ true }
{
    let row = begin(client, edge, clock, words, request)?;
    match reply_in(number, row) {
        Some(reply) => return Ok(Some(reply)),
        None => {}
    }
    let mut left = most;
    while left > 0 {
        let row = match turn(client, edge, clock, words) {
            Ok(row) => row,
            Err(error) => return Err(error),
        };
        match reply_in(number, row) {
            Some(reply) => return Ok(Some(reply)),
            None => left -= 1,
        }
    }
    Ok(None)
}
