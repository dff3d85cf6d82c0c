//! Scripts by their texts, and scripts that are generated.

use crate::answer::line_of;
use crate::escapes;
use crate::traces::fault_text;
use client_request::{Outs, Row, Rows, Trace};
use dns_base::NoMemory;
use dns_script::{Lanes, Script, generate, read_script, trace_text};
use std::alloc::Global;
use std::str;

/// What is printed of a script.
pub fn text_of(alloc: Global, word: &str, rest: &str) -> Option<String> {
    match word {
        "script" => script(alloc, rest),
        "script-parts" => parts(alloc, rest),
        "script-lanes" => lanes(alloc, rest),
        "script-generated" => generated(alloc, rest),
        _ => None,
    }
}

/// Whether a text is read.
fn script(alloc: Global, rest: &str) -> Option<String> {
    match read_script(alloc, escapes::octets(alloc, rest)?.as_slice(), false) {
        Ok(_) => line_of(alloc, &"ok"),
        Err(fault) => fault_text(alloc, fault),
    }
}

/// How many words, lanes and servers a script has, and some of its settings.
fn parts_text(alloc: Global, script: &Script) -> Option<String> {
    let words = script.words.len();
    let lanes = script.lanes.len();
    let servers = script.conf.servers.len();
    let use_vc = script.conf.options.use_vc;
    let defer_refused = script.redundant.defer_refused();
    let validity = script.cache.max_validity().as_secs();
    format!(in alloc; "{words} {lanes} {servers} {use_vc} {defer_refused} {validity}\n").ok()
}

fn parts(alloc: Global, rest: &str) -> Option<String> {
    let text = escapes::octets(alloc, rest)?;
    parts_text(alloc, &read_script(alloc, text.as_slice(), false).ok()?)
}

/// How many events each lane of a script has.
fn lanes(alloc: Global, rest: &str) -> Option<String> {
    let text = escapes::octets(alloc, rest)?;
    let script = read_script(alloc, text.as_slice(), true).ok()?;
    let mut counts = format!(in alloc; "{}:", script.lanes.len()).ok()?;
    for events in script.lanes.as_slice() {
        let count = format!(in alloc; " {}", events.len()).ok()?;
        counts.push_str(count.as_str()).ok()?;
    }
    line_of(alloc, &counts)
}

/// The events of lanes as rows in which nothing is put out.
fn rows_of(alloc: Global, lanes: Lanes) -> Result<Trace, NoMemory> {
    let mut rows = Rows::new(alloc);
    for events in lanes.into_vec() {
        for event in events.into_vec() {
            let outs = Outs::new(alloc);
            rows.push(Row { event, outs })?;
        }
    }
    Ok(Trace { rows })
}

/// The first and the last lines of a text.
fn ends_of(alloc: Global, text: &str, first: usize, last: usize) -> Option<String> {
    let left_out = text.lines().count().saturating_sub(last);
    let mut ends = String::new(alloc);
    for (at, line) in text.lines().enumerate() {
        if at < first || left_out <= at {
            let line = format!(in alloc; "{line}\n").ok()?;
            ends.push_str(line.as_str()).ok()?;
        }
    }
    Some(ends)
}

/// The events of lanes as a trace's text, of which the first eleven lines and the last four are printed.
fn events_text(alloc: Global, lanes: Lanes) -> Option<String> {
    let trace = rows_of(alloc, lanes).ok()?;
    let octets = trace_text(alloc, &trace).ok()?;
    let ends = ends_of(alloc, str::from_utf8(octets.as_slice()).ok()?, 11, 4)?;
    let rows = trace.rows.len();
    format!(in alloc; "{rows} events\n{ends}").ok()
}

/// How many words the generated script of a number has, one of them, and its events, by `NUMBER PLACE`.
fn generated(alloc: Global, rest: &str) -> Option<String> {
    let (number, place) = rest.split_once(' ')?;
    let number = number.parse::<u32>().ok()?;
    if number == 0 || 1000 < number {
        return None;
    }
    let script = generate(alloc, number).ok()?;
    let words = script.words.len();
    let word = script
        .words
        .as_slice()
        .get(place.parse::<usize>().ok()?)
        .copied()?;
    let events = events_text(alloc, script.lanes)?;
    format!(in alloc; "{words} words, {word} among them\n{events}").ok()
}
