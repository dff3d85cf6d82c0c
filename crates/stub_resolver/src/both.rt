//! Two requests that are asked side by side, and each once more whose reply says that it could not be read.

ghost use Rattle.std.specs.Prelude.{◌≡◌, ◌<◌, ◌⊎◌, ◌≤◌, ◌||◌, true, false, OnErr, OnOk, IfOk, IfErr, IsErrOf};
ghost use Rattle.dns_values.specs.Source.{Rose};
ghost use Rattle.client_request.specs.Request.{is_misformed, recorded_from};
ghost use Rattle.client_request.specs.Response.{IsRefusal};
ghost use Rattle.client_request.specs.declared.error.Error.TheVariants.{NumbersUsed};
ghost use Rattle.client_loop.specs.Asking.{StopsForNumbers, between};
ghost use Rattle.resolv_lookup.specs.ListAnswers.{faults_after};
ghost use Rattle.stub_resolver.specs.Both.{AreGot, ReplyBoth, SettleBoth, Settles, StopBoth, StopAgain};
ghost use Rattle.stub_resolver.specs.Queries.{is_formerr, is_want, question};

use crate::asking::{Reply, got_of, is_formerr, is_want, reply_to};
use crate::question::question;
use client_core::{Client, Clock, Edge};
use client_loop::{BothReplies, ask_both};
use client_request::{Compose, Error, RequestMessage, Words};
use dns_base::{Name, Rtype};
use resolv_lookup::{Answer, QueryFault};
use std::alloc::Global;

/// What two questions get.
pub(crate) type BothGot = (Result<Answer, QueryFault>, Result<Answer, QueryFault>);

/// The request of a question.
pub(crate) fn request_of(alloc: Global, name: &Name, rtype: Rtype) -> Result<RequestMessage, Error>
    ensures made { IfOk result (λ r. r ≡ recorded_from (question name.now rtype.0)) }
    ensures formed { OnOk result (is_misformed (question name.now rtype.0) ≡ false) }
    ensures misformed { IsErrOf result Error.FormError → is_misformed (question name.now rtype.0) ≡ true }
    ensures refused { IfErr result (λ e. (e ≡ Error.FormError) ⊎ (e ≡ Error.NoMemory)) }
{
    let message = question(alloc, name, rtype)?;
    RequestMessage::new(alloc, message)
}

/// The requests of two questions.
pub(crate) fn requests_of(
    alloc: Global,
    name: &Name,
    first: Rtype,
    second: Rtype,
) -> Result<(RequestMessage, RequestMessage), Error>
    ensures first_made { IfOk result (λ r. r.0 ≡ recorded_from (question name.now first.0)) }
    ensures second_made { IfOk result (λ r. r.1 ≡ recorded_from (question name.now second.0)) }
    ensures first_formed { OnOk result (is_misformed (question name.now first.0) ≡ false) }
    ensures second_formed { OnOk result (is_misformed (question name.now second.0) ≡ false) }
    ensures misformed { IsErrOf result Error.FormError → (is_misformed (question name.now first.0) ≡ true) ⊎ (is_misformed (question name.now second.0) ≡ true) }
    ensures refused { IfErr result (λ e. (e ≡ Error.FormError) ⊎ (e ≡ Error.NoMemory)) }
{
    let one = request_of(alloc, name, first)?;
    let other = request_of(alloc, name, second)?;
    Ok((one, other))
}

/// A reply to a request, or where it says that the request could not be read the one that comes when it is asked once more, with a
/// timeout of its own.
fn settled<E: Edge, C: Clock, W: Words>(
    client: &mut Client,
    edge: &mut E,
    clock: &mut C,
    words: &mut W,
    request: RequestMessage,
    reply: Reply,
) -> Result<Reply, Error>
    ensures settles { IfOk result (between E.deeds E.waits E.polls C.given W.stream (client.old, edge.old, clock.old, words.old) (client.new, edge.new, clock.new, words.new) (Settles request reply)) }
    ensures again { IsErrOf result Error.NumbersUsed → is_formerr reply ≡ true }
    ensures numbers { IsErrOf result Error.NumbersUsed → between E.deeds E.waits E.polls C.given W.stream (client.old, edge.old, clock.old, words.old) (client.new, edge.new, clock.new, words.new) (StopsForNumbers request) }
    ensures lasts { OnOk result (client.old.failed ≡ false → client.new.failed ≡ false) }
    ensures refused { IfErr result IsRefusal }
    ensures failed_only { IsErrOf result Error.Failed → client.old.failed ≡ true }
{
    if is_formerr(&reply) {
        reply_to(client, edge, clock, words, request)
    } else {
        Ok(reply)
    }
}

/// The same of two replies, the first before the second.
fn both_settled<E: Edge, C: Clock, W: Words>(
    client: &mut Client,
    edge: &mut E,
    clock: &mut C,
    words: &mut W,
    first: RequestMessage,
    second: RequestMessage,
    replies: BothReplies,
) -> Result<BothReplies, Error>
    ensures settle { IfOk result (between E.deeds E.waits E.polls C.given W.stream (client.old, edge.old, clock.old, words.old) (client.new, edge.new, clock.new, words.new) (SettleBoth first second replies)) }
    ensures numbers { IsErrOf result NumbersUsed → between E.deeds E.waits E.polls C.given W.stream (client.old, edge.old, clock.old, words.old) (client.new, edge.new, clock.new, words.new) (StopAgain first second replies) }
    ensures lasts { OnOk result (client.old.failed ≡ false → client.new.failed ≡ false) }
    ensures refused { IfErr result IsRefusal }
    ensures failed_only { IsErrOf result Error.Failed → client.old.failed ≡ true }
{
    let one = match settled(client, edge, clock, words, first, replies.first) {
        Ok(reply) => reply,
        Err(error) => return Err(error),
    };
    let other = match settled(client, edge, clock, words, second, replies.second) {
        Ok(reply) => reply,
        Err(error) => return Err(error),
    };
    Ok(BothReplies {
        first: one,
        second: other,
    })
}

/// The client's replies to two requests that wait at once.
fn replies_to_both<E: Edge, C: Clock, W: Words>(
    alloc: Global,
    client: &mut Client,
    edge: &mut E,
    clock: &mut C,
    words: &mut W,
    first: RequestMessage,
    second: RequestMessage,
) -> Result<BothReplies, Error>
    requires { client.old.asked.next < u64.MAX }
    ensures replies { IfOk result (between E.deeds E.waits E.polls C.given W.stream (client.old, edge.old, clock.old, words.old) (client.new, edge.new, clock.new, words.new) (ReplyBoth first second)) }
    ensures numbers { IsErrOf result Error.NumbersUsed → between E.deeds E.waits E.polls C.given W.stream (client.old, edge.old, clock.old, words.old) (client.new, edge.new, clock.new, words.new) (StopBoth first second) }
    ensures lasts { OnOk result (client.new.failed ≡ false) }
    ensures refused { IfErr result IsRefusal }
    ensures failed_only { IsErrOf result Error.Failed → client.old.failed ≡ true }
{
    let one = first.try_clone(alloc)?;
    let other = second.try_clone(alloc)?;
    let number = client.next_request();
    match ask_both(client, edge, clock, words, number, first, second) {
        Ok(replies) => both_settled(client, edge, clock, words, one, other, replies),
        Err(error) => Err(error),
    }
}

/// What two questions get whose requests wait at once.
pub(crate) fn got_to_both<E: Edge, C: Clock, W: Words>(
    alloc: Global,
    client: &mut Client,
    edge: &mut E,
    clock: &mut C,
    words: &mut W,
    first: RequestMessage,
    second: RequestMessage,
) -> BothGot
    requires { client.old.asked.next < u64.MAX }
    ensures gets { client.old.failed ≡ false → between E.deeds E.waits E.polls C.given W.stream (client.old, edge.old, clock.old, words.old) (client.new, edge.new, clock.new, words.new) (AreGot result first second) }
    ensures lasts { client.old.failed ≡ false → (is_want result.0 || is_want result.1) ≡ false → client.new.failed ≡ false }
{
    match replies_to_both(alloc, client, edge, clock, words, first, second) {
        Ok(BothReplies { first, second }) => (got_of(first), got_of(second)),
        Err(error) => (
            Err(QueryFault::Client(error)),
            Err(QueryFault::Client(error)),
        ),
    }
}

/// Whether memory or numbers ran out for one of two questions.
pub(crate) fn are_want(both: &BothGot) -> bool
    ensures { result ≡ (is_want both.now.0 || is_want both.now.1) }
{
    is_want(&both.0) || is_want(&both.1)
}

/// The count of faults behind what a question got. It stands still at its last value.
pub(crate) fn faults_after(got: &Result<Answer, QueryFault>, faults: u64) -> u64
    ensures is { result ≡ faults_after got.now faults }
    ensures rose { OnErr got.now (Rose faults result) }
    ensures count { faults ≤ result }
{
    match got {
        Ok(_) => faults,
        Err(_) => faults.saturating_add(1),
    }
}
