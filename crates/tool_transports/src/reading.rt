//! What words say. Events, errors and faults are named as in a trace.

use client_request::{Error, Event, Fault, Out, RequestMessage, Trace, What, WordList};
use dns_base::{Duration, Message, Octets};
use dns_script::read_trace;
use std::alloc::Global;

/// The first word of a text, and what stands behind it.
pub fn first_word(text: &str) -> (&str, &str) {
    match text.split_once(' ') {
        Some((word, rest)) => (word, rest),
        None => (text, ""),
    }
}

pub fn number(word: &str) -> Option<u64> {
    word.parse::<u64>().ok()
}

/// The time of so many microseconds.
pub fn time_of(word: &str) -> Option<Duration> {
    Some(Duration::from_micros(number(word)?))
}

/// The list of the numbers between blanks.
pub fn word_list(alloc: Global, text: &str) -> Option<WordList> {
    let mut list = WordList::new(alloc);
    for word in text.split_whitespace() {
        list.push(number(word)?).ok()?;
    }
    Some(list)
}

/// The trace of one row, by its event and, behind a line feed, its out.
fn trace_of(alloc: Global, row: &str) -> Option<Trace> {
    let text = format!(in alloc; "trace 1\n{row}\nend\n").ok()?;
    read_trace(alloc, text.as_str().as_bytes()).ok()
}

/// The event of a line of a trace.
pub fn event_of(alloc: Global, line: &str) -> Option<Event> {
    let trace = trace_of(alloc, line)?;
    trace.rows.as_slice().first()?.event.try_clone(alloc).ok()
}

/// What happens by the words of a trace.
pub fn what_of(alloc: Global, words: &str) -> Option<What> {
    let line = format!(in alloc; "at 0 {words}").ok()?;
    let Event { what, .. } = event_of(alloc, line.as_str())?;
    Some(what)
}

/// The error by the words of a trace.
pub fn error_of(alloc: Global, words: &str) -> Option<Error> {
    let row = format!(in alloc; "at 0 tick\n> reply 0 err {words}").ok()?;
    let trace = trace_of(alloc, row.as_str())?;
    match trace.rows.as_slice().first()?.outs.as_slice().first()? {
        Out::Reply {
            result: Err(error),
            ..
        } => Some(*error),
        _ => None,
    }
}

/// The fault of a word of events.
pub fn fault_of(alloc: Global, word: &str) -> Option<Fault> {
    let words = format!(in alloc; "open-failed 0 {word}").ok()?;
    match what_of(alloc, words.as_str())? {
        What::OpenFailed { fault, .. } => Some(fault),
        _ => None,
    }
}

/// The octets of hexadecimal digits, read as those that come by a stream.
pub fn octets_of(alloc: Global, digits: &str) -> Option<Octets> {
    let words = format!(in alloc; "bytes 0 {digits}").ok()?;
    match what_of(alloc, words.as_str())? {
        What::Bytes { octets, .. } => Some(octets),
        _ => None,
    }
}

pub fn message_of(alloc: Global, digits: &str) -> Option<Message> {
    Message::from_octets(octets_of(alloc, digits)?).ok()
}

/// The request for what a message asks.
pub fn request_of(alloc: Global, digits: &str) -> Option<RequestMessage> {
    RequestMessage::new(alloc, message_of(alloc, digits)?).ok()
}
