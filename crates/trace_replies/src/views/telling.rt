//! Whether two errors are the same.

ghost use Rattle.std.specs.Prelude.{◌≡◌};
ghost use Rattle.trace_replies.specs.views.Telling as plain;

use client_request::{Error, Fault, QueryError};

/// The number of a fault, from 0.
fn fault_number(fault: Fault) -> u8
    ensures { result ≡ plain.fault_number fault }
{
    match fault {
        Fault::Refused => 0,
        Fault::Reset => 1,
        Fault::Unreachable => 2,
        Fault::InUse => 3,
        Fault::Broken => 4,
        Fault::Other => 5,
        Fault::Expired => 6,
        Fault::ShortSend => 7,
        Fault::NothingTaken => 8,
        Fault::EndOfData => 9,
    }
}

/// The number of what was being done, from 0.
fn query_number(error: QueryError) -> u8
    ensures { result ≡ plain.query_number error }
{
    match error {
        QueryError::Connect(_) => 0,
        QueryError::Send(_) => 1,
        QueryError::Receive(_) => 2,
        QueryError::Timeout => 3,
    }
}

/// The number of its fault.
fn query_fault(error: QueryError) -> u8
    ensures { result ≡ plain.query_fault error }
{
    match error {
        QueryError::Connect(fault) => fault_number(fault),
        QueryError::Send(fault) => fault_number(fault),
        QueryError::Receive(fault) => fault_number(fault),
        QueryError::Timeout => 0,
    }
}

/// The number of an error, from 0, whatever it has more.
fn kind_number(error: Error) -> u8
    ensures { result ≡ plain.kind_number error }
{
    match error {
        Error::ConnectionClosed => 0,
        Error::OptTooLong => 1,
        Error::MessageBuilderPushError => 2,
        Error::MessageParseError => 3,
        Error::RedundantTransportNotFound => 4,
        Error::FormError => 5,
        Error::ShortMessage => 6,
        Error::StreamLongMessage => 7,
        Error::StreamIdleTimeout => 8,
        Error::StreamReceiveError => 9,
        Error::StreamReadError(_) => 10,
        Error::StreamReadTimeout => 11,
        Error::StreamTooManyOutstandingQueries => 12,
        Error::StreamWriteError(_) => 13,
        Error::StreamUnexpectedEndOfData => 14,
        Error::WrongReplyForQuery => 15,
        Error::NoTransportAvailable => 16,
        Error::Dgram(_) => 17,
        Error::NoMemory => 18,
        Error::NumbersUsed => 19,
        Error::TimedOut => 20,
        Error::AlreadyDone => 21,
        Error::Failed => 22,
    }
}

/// The number of what a datagram try was doing, or 0.
fn doing_number(error: Error) -> u8
    ensures { result ≡ plain.doing_number error }
{
    match error {
        Error::Dgram(error) => query_number(error),
        _ => 0,
    }
}

/// The number of its fault, or 0.
fn with_number(error: Error) -> u8
    ensures { result ≡ plain.with_number error }
{
    match error {
        Error::Dgram(error) => query_fault(error),
        Error::StreamReadError(fault) => fault_number(fault),
        Error::StreamWriteError(fault) => fault_number(fault),
        _ => 0,
    }
}

/// Whether two errors are the same.
pub(crate) fn is_same_error(a: Error, b: Error) -> bool
    ensures { result ≡ plain.same_error a b }
{
    kind_number(a) == kind_number(b)
        && doing_number(a) == doing_number(b)
        && with_number(a) == with_number(b)
}
