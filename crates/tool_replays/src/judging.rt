//! What is said of a trace by its script.

use dns_base::Octets;
use dns_values::{MemSink, MemSource};
use std::alloc::Global;
use std::str;
use trace_audit_run::run_audit;

/// The words of a line.
fn words_of(alloc: Global, line: &str) -> Option<Vec<String>> {
    let mut words = Vec::new(alloc);
    for word in line.split(' ') {
        words.push(String::from_str(alloc, word).ok()?).ok()?;
    }
    Some(words)
}

/// The number of a call that fails, or none.
fn failing(alloc: Global, word: &String) -> Option<Vec<u64>> {
    match word.as_str().parse::<u64>() {
        Ok(number) => Vec::from_slice(alloc, &[number]).ok(),
        Err(_) => Some(Vec::new(alloc)),
    }
}

/// A source of a text.
fn source(alloc: Global, text: &str, fails: &String) -> Option<MemSource> {
    let octets = Octets::from_slice(alloc, text.as_bytes()).ok()?;
    Some(MemSource::new(octets, failing(alloc, fails)?))
}

/// What the program writes, and its exit status.
fn said(
    alloc: Global,
    words: &[String],
    mut script: MemSource,
    mut trace: MemSource,
    mut sink: MemSink,
) -> Option<String> {
    let status = run_audit(alloc, words, &mut script, &mut trace, &mut sink);
    let written = str::from_utf8(sink.as_slice()).ok()?;
    format!(in alloc; "{written}status {}\n", status.0).ok()
}

/// What is said of a trace, by the line that begins it.
pub fn judged(alloc: Global, line: &str, script: &str, trace: &str) -> Option<String> {
    let all = words_of(alloc, line)?;
    let [_, first, second, third, words @ ..] = all.as_slice() else {
        return None;
    };
    let script = source(alloc, script, first)?;
    let trace = source(alloc, trace, second)?;
    let sink = MemSink::new(alloc, failing(alloc, third)?, Vec::new(alloc));
    said(alloc, words, script, trace, sink)
}
