//! The requests of a lookup.

ghost use Rattle.std.specs.Prelude.{◌≡◌, ◌≢◌, IfOk, IfErr, IsErrOf};
ghost use Rattle.client_request.specs.declared.error.Error.TheVariants.{NumbersUsed};
ghost use Rattle.dns_lookup_run.specs.Asking.{Gave, Stopped, dnssec_asked, option_asked, request_by, request_for};
ghost use Rattle.dns_lookup_run.specs.Making.{GaveIf};
ghost use Rattle.dns_lookup_run.specs.Watched.{on};

use crate::asks::{Answered, Asks};
use crate::watched_clock::WatchedClock;
use crate::watched_edge::{Heard, WatchedEdge};
use client_core::{Client, Clock, Edge};
use client_request::{Compose, Error, RequestMessage};
use dns_base::Message;
use dns_lookup_pages::query_of;
use dns_lookup_words::{Ask, Flags};
use std::alloc::Global;

/// What a request came to.
#[derive(Drop)]
pub(crate) struct Outcome {
    /// What was answered.
    pub(crate) answer: Answered,
    /// From whom octets came last while it was asked; none where it was answered from what is kept.
    pub(crate) heard: Option<Heard>,
    /// How long it took, in microseconds.
    pub(crate) micros: u64,
}

/// The code of the option by which a server is asked for its name (RFC 5001 2.1).
const NSID: u16 = 3;

/// The code of the option by which it is asked when its copy of a zone expires (RFC 7314 2).
const EXPIRE: u16 = 9;

/// A request, with DO set where that is asked for.
fn dnssec_asked(is_asked: bool, mut request: RequestMessage) -> RequestMessage
    ensures { result ≡ dnssec_asked is_asked request }
{
    if is_asked {
        request.set_dnssec_ok(true);
    }
    request
}

/// A request, with an empty option of this code where that is asked for.
fn option_asked(
    code: u16,
    is_asked: bool,
    mut request: RequestMessage,
) -> Result<RequestMessage, Error>
    ensures made { IfOk result (λ r. r ≡ option_asked code is_asked request) }
    ensures refused { IfErr result (λ e. e ≢ Error.NumbersUsed) }
{
    if !is_asked {
        return Ok(request);
    }
    request.add_opt(code, &[])?;
    Ok(request)
}

/// The request of a message, with DO and the options of these flags: NSID and EXPIRE, both empty.
///
/// `FormError` where the message is none that can be asked, and `NoMemory`.
pub fn request_by(alloc: Global, flags: Flags, message: Message) -> Result<RequestMessage, Error>
    ensures made { IfOk result (λ r. r ≡ request_by flags message) }
    ensures refused { IfErr result (λ e. e ≢ Error.NumbersUsed) }
{
    let request = RequestMessage::new(alloc, message)?;
    let request = option_asked(NSID, flags.nsid, dnssec_asked(flags.dnssec, request))?;
    option_asked(EXPIRE, flags.expire, request)
}

/// The request of an ask.
fn request_for(alloc: Global, ask: &Ask) -> Result<RequestMessage, Error>
    ensures made { IfOk result (λ r. r ≡ request_for ask.now) }
    ensures refused { IfErr result (λ e. e ≢ Error.NumbersUsed) }
{
    let message = query_of(alloc, ask)?;
    request_by(alloc, ask.manner.flags, message)
}

/// Asks a client the request of an ask, under the number of its next request.
///
/// `NoMemory`, or `NumbersUsed` where a number would pass the greatest `u64`. After an error the client is not to be used again.
pub(crate) fn asked<E: Edge + Drop, C: Clock + Drop, A: Asks>(
    alloc: Global,
    ask: &Ask,
    number: u64,
    client: &mut Client,
    edge: &mut WatchedEdge<E>,
    clock: &mut WatchedClock<C>,
    words: &mut A,
) -> Result<Outcome, Error>
    ensures answered { IfOk result (λ c. on E.deeds E.waits E.polls C.given A.stream (client.old, edge.old, clock.old, words.old) (client.new, edge.new, clock.new, words.new)
        (Gave ask.now number c.answer)) }
    ensures made { GaveIf result E.deeds E.waits E.polls C.given A.stream A.made (client.old, edge.old, clock.old, words.old) (client.new, edge.new, clock.new, words.new) ask.now number }
    ensures numbers { IsErrOf result NumbersUsed → on E.deeds E.waits E.polls C.given A.stream (client.old, edge.old, clock.old, words.old)
        (client.new, edge.new, clock.new, words.new) (Stopped ask.now) }
{
    edge.forget();
    clock.forget();
    let request = request_for(alloc, ask)?;
    match words.ask(client, edge, clock, number, request) {
        Ok(answer) => Ok(Outcome {
            answer,
            heard: edge.heard(),
            micros: clock.passed(),
        }),
        Err(error) => Err(error),
    }
}
