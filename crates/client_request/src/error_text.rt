//! What errors say when they are printed.

ghost use Rattle.std.specs.Prelude.{◌≡◌, Some};
ghost use Rattle.client_request.specs.ErrorText.{kind_of, fault_of, step_text, kind_text, plain_text, error_text, query_error_text, copy_error_text};

use crate::error::{CopyRecordsError, Error, QueryError, QueryErrorKind};
use crate::fault::Fault;
use dns_base::PushError;
use std::fmt;

impl QueryErrorKind {
    fn text(self) -> &'static str
        ensures { result.now ≡ kind_text self }
    {
        match self {
            QueryErrorKind::Connect => "connecting failed",
            QueryErrorKind::Send => "sending request failed",
            QueryErrorKind::Timeout => "request timeout",
            QueryErrorKind::Receive => "reading response failed",
        }
    }
}

impl fmt::Display for QueryErrorKind {
    ghost output = { λ k. Some (kind_text k) };

    fn fmt<W: fmt::Write>(&self, f: &mut fmt::Formatter<W>) -> fmt::Result {
        f.write_str(self.text())
    }
}

impl QueryError {
    /// What was being done.
    pub fn kind(&self) -> QueryErrorKind
        ensures { result ≡ kind_of self.now }
    {
        match self {
            QueryError::Connect(_) => QueryErrorKind::Connect,
            QueryError::Send(_) => QueryErrorKind::Send,
            QueryError::Receive(_) => QueryErrorKind::Receive,
            QueryError::Timeout => QueryErrorKind::Timeout,
        }
    }

    /// The fault. That of a timeout is `Expired`.
    pub fn io_error(self) -> Fault
        ensures { result ≡ fault_of self }
    {
        match self {
            QueryError::Connect(fault) | QueryError::Send(fault) | QueryError::Receive(fault) =>
                fault,
            QueryError::Timeout => Fault::Expired,
        }
    }

    fn step_text(self) -> &'static str
        ensures { result.now ≡ step_text self }
    {
        match self {
            QueryError::Connect(_) => "connecting failed",
            QueryError::Send(_) => "sending request failed",
            QueryError::Receive(_) | QueryError::Timeout => "reading response failed",
        }
    }
}

impl From<QueryError> for Fault {
    ghost from_gives = { λ q f. f ≡ fault_of q };

    fn from(error: QueryError) -> Fault {
        error.io_error()
    }
}

impl fmt::Display for QueryError {
    ghost output = { λ q. Some (query_error_text q) };

    fn fmt<W: fmt::Write>(&self, f: &mut fmt::Formatter<W>) -> fmt::Result {
        let step = self.step_text();
        let fault = self.io_error();
        write!(f, "{step}: {fault}")
    }
}

impl std::error::Error for QueryError {}

impl CopyRecordsError {
    fn text(self) -> &'static str
        ensures { result.now ≡ copy_error_text self }
    {
        match self {
            CopyRecordsError::Parse(_) => "message can't be read",
            CopyRecordsError::Push(PushError::Count) => "section is full",
            CopyRecordsError::Push(PushError::Limit) => "message passes its limit",
            CopyRecordsError::Push(PushError::NoMemory) => "out of memory",
        }
    }
}

impl fmt::Display for CopyRecordsError {
    ghost output = { λ e. Some (copy_error_text e) };

    fn fmt<W: fmt::Write>(&self, f: &mut fmt::Formatter<W>) -> fmt::Result {
        f.write_str(self.text())
    }
}

impl std::error::Error for CopyRecordsError {}

impl Error {
    fn plain_text(self) -> &'static str
        ensures { result.now ≡ plain_text self }
    {
        match self {
            Error::ConnectionClosed => "connection closed",
            Error::OptTooLong => "OPT record is too long",
            Error::MessageBuilderPushError => "PushError from MessageBuilder",
            Error::MessageParseError => "ParseError from Message",
            Error::RedundantTransportNotFound => {
                "Underlying transport not found in redundant connection"
            }
            Error::FormError => "message violates a constraint",
            Error::ShortMessage => "octet sequence to short to be a valid message",
            Error::StreamLongMessage => "message too long for stream transport",
            Error::StreamIdleTimeout => "stream was idle for too long",
            Error::StreamReceiveError => "error receiving a reply",
            Error::StreamReadError(_) => "error reading from stream",
            Error::StreamReadTimeout => "timeout reading from stream",
            Error::StreamTooManyOutstandingQueries => "too many outstanding queries on stream",
            Error::StreamWriteError(_) => "error writing to stream",
            Error::StreamUnexpectedEndOfData => "unexpected end of data",
            Error::WrongReplyForQuery => "reply does not match query",
            Error::NoTransportAvailable => "no transport available",
            Error::Dgram(_) => "dgram error",
            Error::NoMemory => "out of memory",
            Error::NumbersUsed => "numbers are used up",
            Error::TimedOut => "request timed out",
            Error::AlreadyDone => "already done",
            Error::Failed => "an earlier step was refused",
        }
    }
}

impl fmt::Display for Error {
    ghost output = { λ e. Some (error_text e) };

    fn fmt<W: fmt::Write>(&self, f: &mut fmt::Formatter<W>) -> fmt::Result {
        match self {
            Error::Dgram(error) => write!(f, "dgram error: {error}"),
            _ => f.write_str(self.plain_text()),
        }
    }
}

impl std::error::Error for Error {}
