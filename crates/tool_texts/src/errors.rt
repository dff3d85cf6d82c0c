//! Errors in traces and of configurations, by their words.

use client_request::{Error, Out, Trace};
use dns_script::{read_trace, trace_text};
use std::alloc::Global;
use std::str;

/// What is printed of an error by its words in a trace: the error, and the words that are printed of it again.
pub fn text_of(alloc: Global, word: &str, rest: &str) -> Option<String> {
    match word {
        "trace-error" => trace_error(alloc, rest),
        "conf-error" => conf_error(alloc, rest),
        _ => None,
    }
}

/// The trace of one row, whose out is a reply with an error.
fn trace_of(alloc: Global, words: &str) -> Option<Trace> {
    let text = format!(in alloc; "trace 1\nat 1 tick\n> reply 7 err {words}\nend\n").ok()?;
    read_trace(alloc, text.as_bytes()).ok()
}

/// The error of the first reply that is put out in the first row.
fn error_in(trace: &Trace) -> Option<Error> {
    let row = trace.rows.as_slice().first()?;
    match row.outs.as_slice().first()? {
        Out::Reply {
            request: 7,
            result: Err(error),
        } => Some(*error),
        _ => None,
    }
}

/// The words of the error in a trace's text.
fn words_in(text: &str) -> Option<&str> {
    let behind = text.strip_prefix("trace 1\nat 1 tick\n> reply 7 err ")?;
    behind.strip_suffix("\nend\n")
}

fn trace_error(alloc: Global, words: &str) -> Option<String> {
    let trace = trace_of(alloc, words)?;
    let error = error_in(&trace)?;
    let octets = trace_text(alloc, &trace).ok()?;
    let printed = words_in(str::from_utf8(octets.as_slice()).ok()?)?;
    format!(in alloc; "{error:?} {printed}\n").ok()
}

/// The text of an error of configurations.
fn conf_error(alloc: Global, word: &str) -> Option<String> {
    use resolv_conf::{Error, IoFault};
    let error = match word {
        "parse" => Error::ParseError(1),
        "read" => Error::Io(IoFault::Read),
        "utf-8" => Error::Io(IoFault::NotUtf8(1)),
        "long" => Error::TooLong,
        "memory" => Error::NoMemory,
        _ => return None,
    };
    format!(in alloc; "{error}\n").ok()
}
