//! Transfers on a connection: how they begin, and what a message is to them.

ghost use Rattle.std.specs.Prelude.{◌≡◌, option_map, IfOk};
ghost use Rattle.client_transfer.specs.Transfers.{part_given};
ghost use Rattle.client_stream.specs.Plain as plain;

use client_request::{ComposeRequestMulti, Error};
use client_transfer::XfrState;
use dns_base::{Message, NoMemory, Rtype};

/// How a transfer begins, by the type of its message's one question, or why it does not.
fn state_for(rtype: Option<Rtype>) -> Result<XfrState, Error>
    ensures { result ≡ plain.state_for (option_map (λ t. t.0) rtype) }
{
    match rtype {
        None => Err(Error::MessageParseError),
        Some(rtype) => {
            if rtype == Rtype::AXFR {
                Ok(XfrState::AxfrInit)
            } else if rtype == Rtype::IXFR {
                Ok(XfrState::IxfrInit)
            } else {
                Err(Error::FormError)
            }
        }
    }
}

/// How a transfer begins, or why it does not.
pub(crate) fn first_state<T: ComposeRequestMulti>(
    request: &T,
) -> Result<Result<XfrState, Error>, NoMemory>
    ensures { IfOk result (λ state. state ≡ plain.first_state (T.requests.composed request.now)) }
{
    match request.to_message() {
        Ok(message) => {
            let rtype = match message.sole_question() {
                Ok(question) => Some(question.qtype()),
                Err(_) => None,
            };
            Ok(state_for(rtype))
        }
        Err(Error::NoMemory) => Err(NoMemory),
        Err(error) => Ok(Err(error)),
    }
}

/// A message that was taken as it is, or the error of one that was not.
pub(crate) fn part_of(message: Message, taken: bool) -> Result<Option<Message>, Error>
    ensures { result ≡ part_given message taken }
{
    if taken {
        Ok(Some(message))
    } else {
        Err(Error::WrongReplyForQuery)
    }
}
