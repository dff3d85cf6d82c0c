//! Prints what lookups make of given answers, what a cache makes of messages, and what a forwarder makes of queries, one a line of
//! standard input: a tool for comparisons with others.
//!
//! `addr ANSWER` prints the names of an address. `host ANSWER ANSWER` prints what is found of a host, by the answers to the
//! questions for AAAA and for A records. `srv WORDS ANSWER` prints the servers of the service _s._tcp at example.com, whose order
//! is drawn by words between commas. An answer is a message in hexadecimal digits, and `-` stands for none.
//!
//! `answer ANSWER` prints what an answer says of itself. `asked ANSWER` prints the questions of `addr`. `lookup A AAAA` looks a host up,
//! `search SUFFIXES ANSWER..` searches it. `service SERVICE WORDS ANSWER` looks a service up, `resolve LISTING ANSWER..` its first
//! server, and `merge LISTING LISTING` orders servers together. `late` stands for an answer that comes too late.
//!
//! `walk NAME TYPE SERVER SAID..` prints what is done in a walk from the root down: the server and others say these, one after another, a
//! message for a question and addresses between commas for a name that is looked up.
//!
//! What a cache makes of messages: `view FROM TO CLEARS SECONDS MESSAGE` and `under MESSAGE` print as what one is given later, `validity
//! TRUNCATED MESSAGE` for how long it may be kept, `key FLAGS DO MESSAGE` and `asking FLAGS DO MESSAGE` the key of a request, and `same`
//! and `changed` whether two keys with a slash between them are the same.
//!
//! `front LINE` is of queries of DNS clients and of a forwarder; the module says what stands there. A line that begins with `#`, or is empty,
//! prints nothing.
#![tactic(auto)]

mod answers;
mod front;
mod given;
mod hosts;
mod kept;
mod keys;
mod names;
mod servers;
mod services;
mod trouble;
mod walks;

use front::Front;
use std::alloc::Global;
use trouble::Trouble;

/// What is printed of a lookup.
fn looked_up(alloc: Global, kind: &str, rest: &str) -> Option<String> {
    match kind {
        "answer" => answers::text_of(alloc, rest),
        "asked" => names::asked(alloc, rest),
        "lookup" => hosts::lookup_text(alloc, rest),
        "search" => hosts::search_text(alloc, rest),
        "service" => services::service_text(alloc, rest),
        "resolve" => services::resolved_text(alloc, rest),
        "merge" => services::merged_text(alloc, rest),
        "walk" => walks::walk_text(alloc, rest),
        _ => kept_text(alloc, kind, rest),
    }
}

/// What is printed of what a cache keeps.
fn kept_text(alloc: Global, kind: &str, rest: &str) -> Option<String> {
    match kind {
        "view" => kept::view_text(alloc, rest),
        "under" => kept::under_text(alloc, rest),
        "validity" => kept::validity_text(alloc, rest),
        "key" => keys::key_text(alloc, rest),
        "asking" => keys::asking_text(alloc, rest),
        "same" => keys::same_text(alloc, rest),
        "changed" => keys::changed_text(alloc, rest),
        _ => None,
    }
}

/// What is printed for a line.
fn text_of(alloc: Global, front: &mut Front, line: &str) -> Result<String, Trouble> {
    let (kind, rest) = line.split_once(' ').ok_or(Trouble::Usage)?;
    match kind {
        "addr" => names::text_of(alloc, rest),
        "host" => hosts::text_of(alloc, rest),
        "front" => front.text_of(alloc, rest),
        "srv" => servers::text_of(alloc, rest),
        _ => looked_up(alloc, kind, rest).ok_or(Trouble::Usage),
    }
}

/// Whether a line prints nothing.
fn is_silent(line: &str) -> bool {
    line.is_empty() || line.starts_with('#')
}

fn main(rt: HostRuntime) -> Result<(), Trouble> {
    let mut front = Front::new();
    for line in rt.lines(rt.alloc()) {
        let line = line?;
        if is_silent(line.as_str()) {
            continue;
        }
        let text = text_of(rt.alloc(), &mut front, line.as_str())?;
        println!(rt; "{text}end")?;
    }
    Ok(())
}
