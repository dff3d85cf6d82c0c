//! Runs of `dns_lookup` in memory.

use crate::programs::lookup_runs::{RUNS, Run};
use crate::programs::runs::{sink, source};
use client_core::{ListClock, ListEdge, What};
use client_request::{Fault, ListWords, WordList};
use dns_base::Octets;
use dns_lookup_run::{PassingEdge, WatchedClock, WatchedEdge, run, run_recorded};
use dns_values::{MemSink, MemSource};
use record_file::record_of;
use std::alloc::{AllocError, Global};
use std::test::Fail;

/// The words of a line, with single blanks between.
fn words(alloc: Global, line: &str) -> Result<Vec<String>, AllocError> {
    let mut words = Vec::new(alloc);
    for word in line.split(' ') {
        words.push(String::from_str(alloc, word)?)?;
    }
    Ok(words)
}

/// The answer under the id 0: 192.0.2.1.
const ANSWER: [u8; 45] = [
    0, 0, 0x81, 0x80, 0, 1, 0, 1, 0, 0, 0, 0, 7, 101, 120, 97, 109, 112, 108, 101, 3, 99, 111, 109,
    0, 0, 1, 0, 1, 0xc0, 12, 0, 1, 0, 1, 0, 0, 0, 100, 0, 4, 192, 0, 2, 1,
];

/// That no socket could be opened for a place.
fn unopened(place: u64) -> Option<What> {
    let fault = Fault::Refused;
    Some(What::OpenFailed { place, fault })
}

/// A socket opens for a place, and this comes there.
fn push_answer(
    alloc: Global,
    events: &mut Vec<Option<What>>,
    place: u64,
    answer: &[u8],
) -> Result<(), Fail> {
    let octets = Octets::from_slice(alloc, answer)?;
    events.push(Some(What::Opened { place }))?;
    events.push(Some(What::Datagram { place, octets }))?;
    Ok(())
}

/// A socket opens and an answer comes; none opens for a second request, of which each server is asked twice.
fn answering(alloc: Global) -> Result<Vec<Option<What>>, Fail> {
    let mut events = Vec::new(alloc);
    push_answer(alloc, &mut events, 0, &ANSWER)?;
    events.push(unopened(1))?;
    events.push(unopened(2))?;
    Ok(events)
}

/// No socket opens.
fn refusing(alloc: Global) -> Result<Vec<Option<What>>, Fail> {
    let mut events = Vec::new(alloc);
    events.push(unopened(0))?;
    events.push(unopened(1))?;
    Ok(events)
}

fn edge(alloc: Global, answers: bool) -> Result<ListEdge, Fail> {
    let events = if answers {
        answering(alloc)?
    } else {
        refusing(alloc)?
    };
    Ok(ListEdge::new(alloc, events))
}

fn status(
    alloc: Global,
    words: &[String],
    source: &mut MemSource,
    written: &mut MemSink,
    said: &mut MemSink,
    edge: ListEdge,
) -> u8 {
    let mut edge = WatchedEdge::new(alloc, PassingEdge::new(alloc, edge));
    let mut clock = WatchedClock::new(ListClock::new(Vec::new(alloc)));
    let mut random = ListWords::new(WordList::new(alloc));
    let (file, words) = record_of(words);
    if file.is_none() {
        let status = run(
            alloc,
            words,
            source,
            written,
            said,
            &mut edge,
            &mut clock,
            &mut random,
        );
        return status.0;
    }
    let recorded = run_recorded(
        alloc,
        words,
        source,
        written,
        said,
        &mut edge,
        &mut clock,
        &mut random,
        MemSink::new(alloc, Vec::new(alloc), Vec::new(alloc)),
    );
    recorded.tell_ended(alloc, said);
    // The words alone have 8192 octets: each is 0, which is the id of the answer.
    if recorded.status.0 == 0 && recorded.sink.as_slice().len() < 8192 {
        return u8::MAX;
    }
    recorded.status.0
}

/// Whether a run with a sink ends so. The configuration, which words may make needless, names no server.
fn ends_so(alloc: Global, run: &Run, written: &mut MemSink) -> Result<bool, Fail> {
    let words = words(alloc, run.words)?;
    let mut conf = source(alloc, "nonsense\n", 9)?;
    let edge = edge(alloc, run.answers)?;
    let mut said = MemSink::new(alloc, Vec::new(alloc), Vec::new(alloc));
    let status = status(alloc, &words, &mut conf, written, &mut said, edge);
    Ok(
        status == run.status
            && written.as_slice() == run.written.as_bytes()
            && said.as_slice() == run.said.as_bytes(),
    )
}

fn ends(alloc: Global, run: &Run) -> Result<bool, Fail> {
    let mut written = MemSink::new(alloc, Vec::new(alloc), Vec::new(alloc));
    ends_so(alloc, run, &mut written)
}

#[test]
fn a_lookup_ends_by_a_page_or_a_sentence(rt: HostRuntime) -> Result<(), Fail> {
    for run in RUNS.iter() {
        assert!(rt; ends(rt.alloc(), run)?, "{}", run.words);
    }
    Ok(())
}

/// There is no such name, under the id 0: example.com, and example.
const NO_NAME: [u8; 29] = [
    0, 0, 0x81, 0x83, 0, 1, 0, 0, 0, 0, 0, 0, 7, 101, 120, 97, 109, 112, 108, 101, 3, 99, 111, 109,
    0, 0, 1, 0, 1,
];

const NO_SHORT_NAME: [u8; 25] = [
    0, 0, 0x81, 0x83, 0, 1, 0, 0, 0, 0, 0, 0, 7, 101, 120, 97, 109, 112, 108, 101, 0, 0, 1, 0, 1,
];

/// One answer after another, each at a socket of its own.
fn in_turn(alloc: Global, first: &[u8], second: &[u8]) -> Result<ListEdge, Fail> {
    let mut events = Vec::new(alloc);
    push_answer(alloc, &mut events, 0, first)?;
    push_answer(alloc, &mut events, 1, second)?;
    Ok(ListEdge::new(alloc, events))
}

/// Whether a search of two names, which are answered so, ends by this status with this written.
fn searches(
    alloc: Global,
    line: &str,
    first: &[u8],
    second: &[u8],
    ends: u8,
    text: &str,
) -> Result<bool, Fail> {
    let words = words(alloc, line)?;
    let mut conf = source(alloc, "nonsense\n", 9)?;
    let mut said = MemSink::new(alloc, Vec::new(alloc), Vec::new(alloc));
    let mut written = MemSink::new(alloc, Vec::new(alloc), Vec::new(alloc));
    let edge = in_turn(alloc, first, second)?;
    let status = status(alloc, &words, &mut conf, &mut written, &mut said, edge);
    Ok(status == ends && written.as_slice() == text.as_bytes())
}

#[test]
fn a_search_passes_by_that_there_is_no_such_name(rt: HostRuntime) -> Result<(), Fail> {
    let first = "@192.0.2.53 +domain=com +ndots=0 example A +short";
    let found = searches(rt.alloc(), first, &NO_SHORT_NAME, &ANSWER, 0, "192.0.2.1\n")?;
    assert!(rt; found);
    let last = "@192.0.2.53 +domain=com +ndots=1 example A +short";
    let none = searches(rt.alloc(), last, &NO_NAME, &NO_SHORT_NAME, 9, "")?;
    assert!(rt; none);
    Ok(())
}

#[test]
fn a_lookup_ends_by_a_fault_of_its_sink(rt: HostRuntime) -> Result<(), Fail> {
    let run = Run {
        words: "@192.0.2.53 example.com A",
        answers: true,
        status: 4,
        written: "",
        said: "dns_lookup: writing to standard output failed\n",
    };
    let mut written = sink(rt.alloc(), 0)?;
    assert!(rt; ends_so(rt.alloc(), &run, &mut written)?);
    Ok(())
}
