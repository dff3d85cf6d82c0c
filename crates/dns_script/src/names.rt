//! The words that have a meaning.

ghost use Rattle.std.specs.Prelude.{◌≡◌};
ghost use Rattle.dns_script.specs.Reading.{named};
ghost use Rattle.dns_script.specs.Names.{error_names, event_names, fault_names, kind_names, out_names, script_names, via_names};

use client_request::{Error, Fault, QueryErrorKind, Via};

/// The kinds of events, as a line names them.
#[derive(Clone, Copy, Debug, PartialEq, Eq)]
pub(crate) enum EventName {
    Ask,
    Opened,
    OpenFailed,
    SendFailed,
    ShortSend,
    Datagram,
    RecvFailed,
    Wrote,
    WriteFailed,
    Bytes,
    ReadFailed,
    Ended,
    Tick,
}

/// The kinds of a script's lines that have more than one word.
#[derive(Clone, Copy, Debug, PartialEq, Eq)]
pub(crate) enum ScriptName {
    Conf,
    Set,
    Words,
    At,
}

/// The kinds of what is put out, as a line names them.
#[derive(Clone, Copy, Debug, PartialEq, Eq)]
pub(crate) enum OutName {
    Start,
    OpenDgram,
    OpenStream,
    Send,
    Write,
    Resume,
    Close,
    Stale,
    Reply,
}

/// How a request is tried.
pub(crate) fn via_named(word: &[u8]) -> Option<Via>
    ensures { result ≡ named via_names word.now }
{
    if word == b"dgram".as_slice() {
        return Some(Via::Dgram);
    }
    if word == b"stream".as_slice() {
        return Some(Via::Stream);
    }
    None
}

/// A fault.
pub(crate) fn fault_named(word: &[u8]) -> Option<Fault>
    ensures { result ≡ named fault_names word.now }
{
    if word == b"refused".as_slice() {
        return Some(Fault::Refused);
    }
    if word == b"reset".as_slice() {
        return Some(Fault::Reset);
    }
    if word == b"unreachable".as_slice() {
        return Some(Fault::Unreachable);
    }
    if word == b"in-use".as_slice() {
        return Some(Fault::InUse);
    }
    if word == b"broken".as_slice() {
        return Some(Fault::Broken);
    }
    if word == b"other".as_slice() {
        return Some(Fault::Other);
    }
    if word == b"expired".as_slice() {
        return Some(Fault::Expired);
    }
    if word == b"short-send".as_slice() {
        return Some(Fault::ShortSend);
    }
    if word == b"nothing-taken".as_slice() {
        return Some(Fault::NothingTaken);
    }
    if word == b"end-of-data".as_slice() {
        return Some(Fault::EndOfData);
    }
    None
}

/// What a datagram try was doing.
pub(crate) fn kind_named(word: &[u8]) -> Option<QueryErrorKind>
    ensures { result ≡ named kind_names word.now }
{
    if word == b"Connect".as_slice() {
        return Some(QueryErrorKind::Connect);
    }
    if word == b"Send".as_slice() {
        return Some(QueryErrorKind::Send);
    }
    if word == b"Timeout".as_slice() {
        return Some(QueryErrorKind::Timeout);
    }
    if word == b"Receive".as_slice() {
        return Some(QueryErrorKind::Receive);
    }
    None
}

/// An error that is one word.
pub(crate) fn error_named(word: &[u8]) -> Option<Error>
    ensures { result ≡ named error_names word.now }
{
    if word == b"ConnectionClosed".as_slice() {
        return Some(Error::ConnectionClosed);
    }
    if word == b"OptTooLong".as_slice() {
        return Some(Error::OptTooLong);
    }
    if word == b"MessageBuilderPushError".as_slice() {
        return Some(Error::MessageBuilderPushError);
    }
    if word == b"MessageParseError".as_slice() {
        return Some(Error::MessageParseError);
    }
    if word == b"RedundantTransportNotFound".as_slice() {
        return Some(Error::RedundantTransportNotFound);
    }
    if word == b"FormError".as_slice() {
        return Some(Error::FormError);
    }
    if word == b"ShortMessage".as_slice() {
        return Some(Error::ShortMessage);
    }
    if word == b"StreamLongMessage".as_slice() {
        return Some(Error::StreamLongMessage);
    }
    if word == b"StreamIdleTimeout".as_slice() {
        return Some(Error::StreamIdleTimeout);
    }
    if word == b"StreamReceiveError".as_slice() {
        return Some(Error::StreamReceiveError);
    }
    if word == b"StreamReadTimeout".as_slice() {
        return Some(Error::StreamReadTimeout);
    }
    if word == b"StreamTooManyOutstandingQueries".as_slice() {
        return Some(Error::StreamTooManyOutstandingQueries);
    }
    if word == b"StreamUnexpectedEndOfData".as_slice() {
        return Some(Error::StreamUnexpectedEndOfData);
    }
    if word == b"WrongReplyForQuery".as_slice() {
        return Some(Error::WrongReplyForQuery);
    }
    if word == b"NoTransportAvailable".as_slice() {
        return Some(Error::NoTransportAvailable);
    }
    if word == b"NoMemory".as_slice() {
        return Some(Error::NoMemory);
    }
    if word == b"NumbersUsed".as_slice() {
        return Some(Error::NumbersUsed);
    }
    if word == b"TimedOut".as_slice() {
        return Some(Error::TimedOut);
    }
    if word == b"AlreadyDone".as_slice() {
        return Some(Error::AlreadyDone);
    }
    if word == b"Failed".as_slice() {
        return Some(Error::Failed);
    }
    None
}

/// An event.
pub(crate) fn event_named(word: &[u8]) -> Option<EventName>
    ensures { result ≡ named event_names word.now }
{
    if word == b"ask".as_slice() {
        return Some(EventName::Ask);
    }
    if word == b"opened".as_slice() {
        return Some(EventName::Opened);
    }
    if word == b"open-failed".as_slice() {
        return Some(EventName::OpenFailed);
    }
    if word == b"send-failed".as_slice() {
        return Some(EventName::SendFailed);
    }
    if word == b"short-send".as_slice() {
        return Some(EventName::ShortSend);
    }
    if word == b"datagram".as_slice() {
        return Some(EventName::Datagram);
    }
    if word == b"recv-failed".as_slice() {
        return Some(EventName::RecvFailed);
    }
    if word == b"wrote".as_slice() {
        return Some(EventName::Wrote);
    }
    if word == b"write-failed".as_slice() {
        return Some(EventName::WriteFailed);
    }
    if word == b"bytes".as_slice() {
        return Some(EventName::Bytes);
    }
    if word == b"read-failed".as_slice() {
        return Some(EventName::ReadFailed);
    }
    if word == b"ended".as_slice() {
        return Some(EventName::Ended);
    }
    if word == b"tick".as_slice() {
        return Some(EventName::Tick);
    }
    None
}

/// What is put out.
pub(crate) fn out_named(word: &[u8]) -> Option<OutName>
    ensures { result ≡ named out_names word.now }
{
    if word == b"start".as_slice() {
        return Some(OutName::Start);
    }
    if word == b"open-dgram".as_slice() {
        return Some(OutName::OpenDgram);
    }
    if word == b"open-stream".as_slice() {
        return Some(OutName::OpenStream);
    }
    if word == b"send".as_slice() {
        return Some(OutName::Send);
    }
    if word == b"write".as_slice() {
        return Some(OutName::Write);
    }
    if word == b"resume".as_slice() {
        return Some(OutName::Resume);
    }
    if word == b"close".as_slice() {
        return Some(OutName::Close);
    }
    if word == b"stale".as_slice() {
        return Some(OutName::Stale);
    }
    if word == b"reply".as_slice() {
        return Some(OutName::Reply);
    }
    None
}

/// A line of a script.
pub(crate) fn script_named(word: &[u8]) -> Option<ScriptName>
    ensures { result ≡ named script_names word.now }
{
    if word == b"conf".as_slice() {
        return Some(ScriptName::Conf);
    }
    if word == b"set".as_slice() {
        return Some(ScriptName::Set);
    }
    if word == b"words".as_slice() {
        return Some(ScriptName::Words);
    }
    if word == b"at".as_slice() {
        return Some(ScriptName::At);
    }
    None
}
