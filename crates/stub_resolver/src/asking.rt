//! A request that is asked, and once more where its reply says that it could not be read.

ghost use Rattle.std.specs.Prelude.{◌≡◌, false, true, OnOk, IfOk, IfErr, IsErrOf};
ghost use Rattle.client_request.specs.Response.{IsRefusal};
ghost use Rattle.client_loop.specs.Asking.{StopsForNumbers, between};
ghost use Rattle.stub_resolver.specs.Queries.{Answers, IsGot, Replies, Stops, got_of, is_formerr, is_want};

use client_core::{Client, Clock, Edge};
use client_loop::ask;
use client_request::{Compose, Error, RequestMessage, Words};
use dns_base::{Message, Rcode};
use resolv_lookup::{Answer, QueryFault};
use std::alloc::Global;

/// The client's reply to a request; none where a million turns had none.
pub(crate) type Reply = Option<Result<Message, Error>>;

/// Whether a reply is a message that says that its question could not be read (RFC 1035 4.1.1, code 1).
pub(crate) fn is_formerr(reply: &Reply) -> bool
    ensures { result ≡ is_formerr reply.now }
{
    match reply {
        Some(Ok(message)) => message.header().rcode() == Rcode::FORMERR,
        _ => false,
    }
}

/// What a query gets of a reply.
pub(crate) fn got_of(reply: Reply) -> Result<Answer, QueryFault>
    ensures { result ≡ got_of reply }
{
    match reply {
        Some(Ok(message)) => Ok(Answer::from(message)),
        Some(Err(error)) => Err(QueryFault::Client(error)),
        None => Err(QueryFault::NoReply),
    }
}

/// Whether memory or numbers ran out.
pub(crate) fn is_want(got: &Result<Answer, QueryFault>) -> bool
    ensures { result ≡ is_want got.now }
{
    matches!(
        got,
        Err(QueryFault::Client(Error::NoMemory | Error::NumbersUsed))
    )
}

/// The client's reply to a request.
pub(crate) fn reply_to<E: Edge, C: Clock, W: Words>(
    client: &mut Client,
    edge: &mut E,
    clock: &mut C,
    words: &mut W,
    request: RequestMessage,
) -> Result<Reply, Error>
    ensures answers { IfOk result (between E.deeds E.waits E.polls C.given W.stream (client.old, edge.old, clock.old, words.old) (client.new, edge.new, clock.new, words.new) (Answers request)) }
    ensures numbers { IsErrOf result Error.NumbersUsed → between E.deeds E.waits E.polls C.given W.stream (client.old, edge.old, clock.old, words.old) (client.new, edge.new, clock.new, words.new) (StopsForNumbers request) }
    ensures timeout { OnOk result (client.new.timeout ≡ client.old.timeout) }
    ensures lasts { OnOk result (client.new.failed ≡ false) }
    ensures refused { IfErr result IsRefusal }
    ensures failed_only { IsErrOf result Error.Failed → client.old.failed ≡ true }
{
    let number = client.next_request();
    ask(client, edge, clock, words, number, request)
}

/// The client's reply to a request. Where `again` is set and the reply says that the request could not be read, it is asked once
/// more, with a timeout of its own.
fn last_reply<E: Edge, C: Clock, W: Words>(
    alloc: Global,
    client: &mut Client,
    edge: &mut E,
    clock: &mut C,
    words: &mut W,
    request: RequestMessage,
    again: bool,
) -> Result<Reply, Error>
    ensures replies { IfOk result (between E.deeds E.waits E.polls C.given W.stream (client.old, edge.old, clock.old, words.old) (client.new, edge.new, clock.new, words.new) (Replies again request)) }
    ensures numbers { IsErrOf result Error.NumbersUsed → between E.deeds E.waits E.polls C.given W.stream (client.old, edge.old, clock.old, words.old) (client.new, edge.new, clock.new, words.new) (Stops again request) }
    ensures timeout { OnOk result (client.new.timeout ≡ client.old.timeout) }
    ensures lasts { OnOk result (client.new.failed ≡ false) }
    ensures refused { IfErr result IsRefusal }
    ensures failed_only { IsErrOf result Error.Failed → client.old.failed ≡ true }
{
    let copy = request.try_clone(alloc)?;
    let reply = reply_to(client, edge, clock, words, request)?;
    if again && is_formerr(&reply) {
        reply_to(client, edge, clock, words, copy)
    } else {
        Ok(reply)
    }
}

/// What a query of a message gets. `Client(FormError)` where several messages answer it, and nothing is asked.
pub(crate) fn got_to<E: Edge, C: Clock, W: Words>(
    alloc: Global,
    client: &mut Client,
    edge: &mut E,
    clock: &mut C,
    words: &mut W,
    message: Message,
    again: bool,
) -> Result<Answer, QueryFault>
    ensures gets { client.old.failed ≡ false → between E.deeds E.waits E.polls C.given W.stream (client.old, edge.old, clock.old, words.old) (client.new, edge.new, clock.new, words.new) (IsGot result again message) }
    ensures lasts { client.old.failed ≡ false → is_want result ≡ false → client.new.failed ≡ false }
{
    let request = match RequestMessage::new(alloc, message) {
        Ok(request) => request,
        Err(error) => return Err(QueryFault::Client(error)),
    };
    match last_reply(alloc, client, edge, clock, words, request, again) {
        Ok(reply) => got_of(reply),
        Err(error) => Err(QueryFault::Client(error)),
    }
}
