//! Traces by their texts.

use crate::answer::line_of;
use crate::escapes;
use dns_script::{ScriptFault, read_trace, summary_text, trace_text};
use std::alloc::Global;
use std::str;

/// What is printed of a trace.
pub fn text_of(alloc: Global, word: &str, rest: &str) -> Option<String> {
    match word {
        "trace" => trace(alloc, rest),
        "trace-again" => again(alloc, rest),
        "trace-summary" => summary(alloc, rest),
        _ => None,
    }
}

/// Why a text is not read.
pub fn fault_text(alloc: Global, fault: ScriptFault) -> Option<String> {
    match fault {
        ScriptFault::Line(line) => format!(in alloc; "line {line}\n").ok(),
        ScriptFault::NoMemory => line_of(alloc, &"out of memory"),
    }
}

/// Octets that are text.
pub fn text(alloc: Global, octets: &[u8]) -> Option<String> {
    String::from_str(alloc, str::from_utf8(octets).ok()?).ok()
}

/// Whether a text is read.
fn trace(alloc: Global, rest: &str) -> Option<String> {
    match read_trace(alloc, escapes::octets(alloc, rest)?.as_slice()) {
        Ok(_) => line_of(alloc, &"ok"),
        Err(fault) => fault_text(alloc, fault),
    }
}

/// How many rows a trace has, and its text as it is printed again.
fn again(alloc: Global, rest: &str) -> Option<String> {
    let trace = read_trace(alloc, escapes::octets(alloc, rest)?.as_slice()).ok()?;
    let octets = trace_text(alloc, &trace).ok()?;
    let printed = str::from_utf8(octets.as_slice()).ok()?;
    let rows = trace.rows.len();
    format!(in alloc; "{rows} rows\n{printed}").ok()
}

/// A trace's summary.
fn summary(alloc: Global, rest: &str) -> Option<String> {
    let trace = read_trace(alloc, escapes::octets(alloc, rest)?.as_slice()).ok()?;
    text(alloc, summary_text(alloc, &trace).ok()?.as_slice())
}
