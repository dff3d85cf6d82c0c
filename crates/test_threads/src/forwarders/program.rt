//! Runs of the program in memory.

use client_core::ListClock;
use client_request::{Fault, ListWords, WordList};
use dns_base::Octets;
use dns_values::{MemSink, MemSource};
use forward_run::{ListFront, serve};
use front_peers::FrontWhat;
use std::alloc::{AllocError, Global};

/// The words of a line, with single blanks between.
pub fn words_of(alloc: Global, line: &str) -> Result<Vec<String>, AllocError> {
    let mut words = Vec::new(alloc);
    for word in line.split(' ') {
        words.push(String::from_str(alloc, word)?)?;
    }
    Ok(words)
}

/// Words, the text of the source, whether it can't be listened, the status, and what is written.
#[derive(Clone, Copy)]
struct Run {
    words: &'static str,
    text: &'static str,
    deaf: bool,
    status: u8,
    written: &'static str,
}

const RUNS: [Run; 8] = [
    Run {
        words: "15353 1",
        text: "nameserver 192.0.2.53",
        deaf: false,
        status: 0,
        written: "answered 1\n",
    },
    Run {
        words: "15353 3",
        text: "nameserver 192.0.2.53",
        deaf: false,
        status: 0,
        written: "answered 1\n",
    },
    Run {
        words: "5353 10",
        text: "nameserver x",
        deaf: false,
        status: 1,
        written: "line 1 refused\n",
    },
    Run {
        words: "0 10",
        text: "",
        deaf: false,
        status: 2,
        written: "",
    },
    Run {
        words: "53 01",
        text: "",
        deaf: false,
        status: 2,
        written: "",
    },
    Run {
        words: "53 18446744073709551616",
        text: "",
        deaf: false,
        status: 2,
        written: "",
    },
    Run {
        words: "53 1",
        text: "nameserver 127.0.0.1",
        deaf: false,
        status: 5,
        written: "",
    },
    Run {
        words: "53 1",
        text: "",
        deaf: true,
        status: 5,
        written: "",
    },
];

/// A front to which a query of another opcode comes.
pub fn front(alloc: Global, deaf: bool) -> Option<ListFront> {
    let octets = Octets::from_slice(alloc, &[0, 1, 0x28, 0, 0, 0, 0, 0, 0, 0, 0, 0]).ok()?;
    let mut events = Vec::new(alloc);
    events
        .push(Some(FrontWhat::Datagram { peer: 7, octets }))
        .ok()?;
    let fault = if deaf { Some(Fault::Other) } else { None };
    Some(ListFront::new(alloc, events, fault))
}

pub fn source(alloc: Global, text: &str) -> Option<MemSource> {
    let octets = Octets::from_slice(alloc, text.as_bytes()).ok()?;
    Some(MemSource::new(octets, Vec::new(alloc)))
}

/// Whether a run ends as it is to.
fn ends(alloc: Global, run: &Run) -> Option<bool> {
    let words = words_of(alloc, run.words).ok()?;
    let mut source = source(alloc, run.text)?;
    let mut front = front(alloc, run.deaf)?;
    let mut sink = MemSink::new(alloc, Vec::new(alloc), Vec::new(alloc));
    let mut clock = ListClock::new(Vec::new(alloc));
    let mut random = ListWords::new(WordList::new(alloc));
    let status = serve(
        alloc,
        &words,
        &mut source,
        &mut sink,
        &mut front,
        &mut clock,
        &mut random,
    );
    Some(status.0 == run.status && sink.as_slice() == run.written.as_bytes())
}

#[test]
fn runs_end_as_they_are_to(rt: HostRuntime) {
    assert!(rt; RUNS.iter().all(|run| ends(rt.alloc(), run) == Some(true)));
}
