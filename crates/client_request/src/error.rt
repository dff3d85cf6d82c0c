//! Why a request got no message, or a call gave up.

ghost use Rattle.std.specs.Prelude.{◌≡◌, Some, Ok};
ghost use Rattle.client_request.specs.declared.error.Error.TheVariants as errors;
ghost use Rattle.client_request.specs.declared.error.CopyRecordsError.TheVariants as copying;

use crate::fault::Fault;
use dns_base::{LongOptData, NoMemory, ParseError, PushError, ShortMessage};
use std::alloc::AllocFailed;

/// Why a datagram try failed: what was being done, and the fault.
#[derive(Clone, Copy, Debug, PartialEq, Eq, Hash)]
pub enum QueryError {
    /// Its socket could not be opened.
    Connect(Fault),
    /// The request could not be sent, or was sent in part (`ShortSend`).
    Send(Fault),
    /// No datagram could be received.
    Receive(Fault),
    /// The last try got no answer in time. Its fault is `Expired`.
    Timeout,
}

/// What a datagram try was doing when it failed.
#[derive(Clone, Copy, Debug, PartialEq, Eq, Hash)]
pub enum QueryErrorKind {
    /// Opening its socket.
    Connect,
    /// Sending the request.
    Send,
    /// Waiting for the answer until its time was over.
    Timeout,
    /// Receiving a datagram.
    Receive,
}

/// Why a message was not copied into a builder.
#[derive(Clone, Copy, Debug, PartialEq, Eq)]
pub enum CopyRecordsError {
    /// The message can't be read.
    Parse(ParseError),
    /// The builder refuses an entry.
    Push(PushError),
}

/// The result of a request that is no message, or why a call was refused.
#[derive(Clone, Copy, Debug, PartialEq, Eq, Hash)]
pub enum Error {
    /// The connection had ended before the request came to it, or a transfer has ended.
    ConnectionClosed,
    /// An option would make the OPT record's data longer than 65535 octets.
    OptTooLong,
    /// The request is too long to be composed: a section or the message would pass its limit.
    MessageBuilderPushError,
    /// The request's base message can't be read.
    MessageParseError,
    /// A choice among connections has none by the number that was named.
    RedundantTransportNotFound,
    /// The request has no question that may be asked this way.
    FormError,
    /// A message is shorter than its header, 12 octets.
    ShortMessage,
    /// The request can't be composed in 65535 octets, the most that a stream carries as one message.
    StreamLongMessage,
    /// A stream was idle for too long. No call answers it.
    StreamIdleTimeout,
    /// A stream ended while the request was queued for it.
    StreamReceiveError,
    /// A stream could not be read.
    StreamReadError(Fault),
    /// A stream gave no answer within its response time.
    StreamReadTimeout,
    /// All message ids of a stream, 32768, are held by requests.
    StreamTooManyOutstandingQueries,
    /// A stream could not be written.
    StreamWriteError(Fault),
    /// A stream came to its end inside the body of a message.
    StreamUnexpectedEndOfData,
    /// A message came under the request's id that does not answer it.
    WrongReplyForQuery,
    /// There is no server to ask.
    NoTransportAvailable,
    /// The last try by datagrams failed.
    Dgram(QueryError),
    /// Memory ran out. What answers so by `Err` of a call answers `Failed` from then on.
    NoMemory,
    /// A number would pass the greatest `u64`. What answers so answers `Failed` from then on.
    NumbersUsed,
    /// The client's timeout for a request was over.
    TimedOut,
    /// The result was given before.
    AlreadyDone,
    /// An earlier call answered `NoMemory` or `NumbersUsed`. Nothing was changed.
    Failed,
}

impl Error {
    /// The same error once more. It takes no memory.
    pub fn try_clone(&self) -> Result<Error, NoMemory>
        ensures { result ≡ Ok self.now }
    {
        Ok(*self)
    }
}

impl From<ParseError> for CopyRecordsError {
    ghost from_gives = { λ p e. e ≡ copying.Parse p };

    fn from(error: ParseError) -> CopyRecordsError {
        CopyRecordsError::Parse(error)
    }
}

impl From<PushError> for CopyRecordsError {
    ghost from_gives = { λ p e. e ≡ copying.Push p };

    fn from(error: PushError) -> CopyRecordsError {
        CopyRecordsError::Push(error)
    }
}

impl From<NoMemory> for Error {
    ghost from_gives = { λ _ e. e ≡ errors.NoMemory };

    fn from(_error: NoMemory) -> Error {
        Error::NoMemory
    }
}

impl<T: Drop> From<AllocFailed<T>> for Error {
    ghost from_gives = { λ _ e. e ≡ errors.NoMemory };

    fn from(_error: AllocFailed<T>) -> Error {
        Error::NoMemory
    }
}

impl From<ParseError> for Error {
    ghost from_gives = { λ _ e. e ≡ errors.MessageParseError };

    fn from(_error: ParseError) -> Error {
        Error::MessageParseError
    }
}

impl From<ShortMessage> for Error {
    ghost from_gives = { λ _ e. e ≡ errors.ShortMessage };

    fn from(_error: ShortMessage) -> Error {
        Error::ShortMessage
    }
}

impl From<QueryError> for Error {
    ghost from_gives = { λ q e. e ≡ errors.Dgram q };

    fn from(error: QueryError) -> Error {
        Error::Dgram(error)
    }
}

impl From<LongOptData> for Error {
    ghost from_gives = { λ _ e. e ≡ errors.OptTooLong };

    fn from(_error: LongOptData) -> Error {
        Error::OptTooLong
    }
}

impl From<CopyRecordsError> for Error {
    ghost use Rattle.client_request.specs.Composed.{error_of};

    ghost from_gives = { λ c e. e ≡ error_of c };

    fn from(error: CopyRecordsError) -> Error {
        match error {
            CopyRecordsError::Parse(_) => Error::MessageParseError,
            CopyRecordsError::Push(PushError::Count | PushError::Limit) => {
                Error::MessageBuilderPushError
            }
            CopyRecordsError::Push(PushError::NoMemory) => Error::NoMemory,
        }
    }
}
