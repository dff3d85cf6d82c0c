//! The replay of one script, printed.

use crate::fault::TableFault;
use client_core::{ListClock, ListEdge};
use client_request::{ListWords, WordList};
use dns_base::Octets;
use dns_values::{MemSource, StdSink};
use dnsq_run::run_alone;
use std::alloc::{AllocError, Global};

/// The words of the command line that replays a script.
fn replay_words(alloc: Global) -> Result<Vec<String>, AllocError> {
    let mut words = Vec::new(alloc);
    words.push(String::from_str(alloc, "replay")?)?;
    Ok(words)
}

/// A source of a script, no call of which fails.
fn source(alloc: Global, script: &str) -> Result<MemSource, TableFault> {
    let octets = Octets::from_slice(alloc, script.as_bytes())?;
    Ok(MemSource::new(octets, Vec::new(alloc)))
}

/// Prints what is written for a script, and its exit status.
pub fn print_replay(rt: &HostRuntime, script: &str) -> Result<(), TableFault> {
    let alloc = rt.alloc();
    let words = replay_words(alloc)?;
    let mut source = source(alloc, script)?;
    let status = run_alone(
        alloc,
        &words,
        &mut source,
        &mut StdSink::new(rt.stdout()),
        &mut ListEdge::new(alloc, Vec::new(alloc)),
        &mut ListClock::new(Vec::new(alloc)),
        &mut ListWords::new(WordList::new(alloc)),
    );
    println!(rt; "status {}", status.0)?;
    Ok(())
}
