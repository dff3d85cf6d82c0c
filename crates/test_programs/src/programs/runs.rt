//! A run of the program in memory.

use client_core::{ListClock, ListEdge};
use client_request::{ListWords, WordList};
use dns_base::{Octets, Status};
use dns_values::{MemSink, MemSource, Sink};
use dnsq_run::run_alone;
use std::alloc::{AllocError, Global};
use std::test::Fail;

/// Words of a command line with this one alone.
pub fn words(alloc: Global, word: &str) -> Result<Vec<String>, AllocError> {
    let mut words = Vec::new(alloc);
    words.push(String::from_str(alloc, word)?)?;
    Ok(words)
}

/// A source of a text, of which one call fails.
pub fn source(alloc: Global, text: &str, fails: u64) -> Result<MemSource, Fail> {
    let octets = Octets::from_slice(alloc, text.as_bytes())?;
    Ok(MemSource::new(octets, Vec::from_slice(alloc, &[fails])?))
}

/// A sink of which one call fails.
pub fn sink(alloc: Global, fails: u64) -> Result<MemSink, AllocError> {
    let fails = Vec::from_slice(alloc, &[fails])?;
    Ok(MemSink::new(alloc, fails, Vec::new(alloc)))
}

/// The program's exit status. It asks no server.
pub fn run<K: Sink>(alloc: Global, words: &[String], source: &mut MemSource, sink: &mut K) -> u8 {
    let mut edge = ListEdge::new(alloc, Vec::new(alloc));
    let mut clock = ListClock::new(Vec::new(alloc));
    let mut random = ListWords::new(WordList::new(alloc));
    let status: Status = run_alone(
        alloc,
        words,
        source,
        sink,
        &mut edge,
        &mut clock,
        &mut random,
    );
    status.0
}
