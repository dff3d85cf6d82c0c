//! What options say, and a run under them.

use crate::forwarders::program::{front, source, words_of};
use client_core::ListClock;
use client_request::{ListWords, WordList};
use dns_values::{IpAddr, MemSink};
use forward_record::serve_recorded;
use forward_run::{Unwatched, serve_as};
use forward_words::{Fault, Policy, options_of};
use std::alloc::Global;

/// All options, and the words behind them.
const ALL: &str =
    "--listen 127.0.0.2 --listen ::1 --port 5300 --entries 50 --stale 0 --failure 9 --max-ttl 60 --max-negative-ttl 61 --policy crate --status 60 53 10";

/// Words whose options are refused.
const REFUSED: [&str; 9] = [
    "--listen 0.0.0.0 53 10",
    "--listen ::ffff:127.0.0.1 53 10",
    "--port 0 53 10",
    "--entries 01 53 10",
    "--stale 604801 53 10",
    "--policy none 53 10",
    "--failure 0 53 10",
    "--max-ttl 59 53 10",
    "--max-negative-ttl 86401 53 10",
];

/// Whether all options are taken.
fn takes_all(alloc: Global) -> Option<bool> {
    let words = words_of(alloc, ALL).ok()?;
    let (options, rest) = options_of(alloc, &words).ok()?;
    let listened = [
        IpAddr::V4([127, 0, 0, 2]),
        IpAddr::V6([0, 0, 0, 0, 0, 0, 0, 1]),
    ];
    Some(
        options.listened.as_slice() == listened.as_slice()
            && options.port == Some(5300)
            && options.entries == 50
            && options.stale == Some(0)
            && options.failure == Some(9)
            && options.max_ttl == 60
            && options.max_negative_ttl == 61
            && options.policy == Policy::Plain
            && options.status == Some(60)
            && rest.len() == 2,
    )
}

fn is_refused(alloc: Global, line: &str) -> Option<bool> {
    let words = words_of(alloc, line).ok()?;
    match options_of(alloc, &words) {
        Ok(_) => Some(false),
        Err(fault) => Some(matches!(fault, Fault::Refused(_))),
    }
}

/// The status of a run under these words, and what is told of it.
fn run(alloc: Global, line: &str, text: &str) -> Option<(u8, MemSink)> {
    let words = words_of(alloc, line).ok()?;
    let (options, rest) = options_of(alloc, &words).ok()?;
    let mut errors = mem_sink(alloc);
    let status = serve_as(
        alloc,
        &options,
        7,
        rest,
        &mut source(alloc, text)?,
        &mut mem_sink(alloc),
        &mut errors,
        &mut front(alloc, false)?,
        &mut ListClock::new(Vec::new(alloc)),
        &mut ListWords::new(WordList::new(alloc)),
        &mut Unwatched,
    );
    Some((status.0, errors))
}

/// The status of a run under these words.
fn status(alloc: Global, line: &str, text: &str) -> Option<u8> {
    Some(run(alloc, line, text)?.0)
}

/// Whether this is told of a run, and nothing else.
fn is_told(alloc: Global, line: &str, text: &str, told: &str) -> Option<bool> {
    let (_, errors) = run(alloc, line, text)?;
    Some(errors.as_slice() == told.as_bytes())
}

fn mem_sink(alloc: Global) -> MemSink {
    MemSink::new(alloc, Vec::new(alloc), Vec::new(alloc))
}

/// The status of a recorded run under these words, whose record does not end.
fn status_recorded(alloc: Global, line: &str, text: &str) -> Option<u8> {
    let words = words_of(alloc, line).ok()?;
    let (options, rest) = options_of(alloc, &words).ok()?;
    let served = serve_recorded(
        alloc,
        &options,
        7,
        rest,
        &mut source(alloc, text)?,
        &mut mem_sink(alloc),
        &mut mem_sink(alloc),
        &mut front(alloc, false)?,
        &mut ListClock::new(Vec::new(alloc)),
        &mut ListWords::new(WordList::new(alloc)),
        &mut Unwatched,
        mem_sink(alloc),
    );
    let forwarder = served.forwarder?;
    let within = forwarder.within();
    if within.ended().is_some() || within.lost() > 0 {
        return None;
    }
    Some(served.status.0)
}

#[test]
fn options_say_what_they_are_to(rt: HostRuntime) {
    assert!(rt; takes_all(rt.alloc()) == Some(true));
    assert!(rt;
        REFUSED
            .iter()
            .all(|line| is_refused(rt.alloc(), line) == Some(true))
    );
}

#[test]
fn runs_obey_their_options(rt: HostRuntime) {
    let alloc = rt.alloc();
    assert!(rt; status(alloc, "--policy practice 53 2", "nameserver 192.0.2.53") == Some(0));
    assert!(rt; status(alloc, "--listen 127.0.0.2 53 2", "nameserver 127.0.0.1") == Some(0));
    assert!(rt; status(alloc, "--listen 127.0.0.2 53 2", "nameserver 127.0.0.2") == Some(5));
    assert!(rt; status(alloc, "--port 5300 5300 2", "nameserver 127.0.0.1") == Some(5));
    assert!(rt; status(alloc, "--port 5300", "nameserver 127.0.0.1") == Some(2));
    assert!(rt; status_recorded(alloc, "53 2", "nameserver 192.0.2.53") == Some(0));
}

/// A server that is another file's way to say a port.
const WITH_PORT: &str = "nameserver 127.0.0.1:5353\n";

const NOTE: &str = "dns_forward: line 1 has something else than one address behind nameserver\n";

#[test]
fn runs_tell_why_they_end(rt: HostRuntime) {
    let alloc = rt.alloc();
    assert!(rt; is_told(alloc, "53 2", "nameserver 192.0.2.53", "") == Some(true));
    assert!(rt; status(alloc, "53 2", WITH_PORT) == Some(1));
    assert!(rt; status(alloc, "--policy crate 53 2", "nameserver 192.0.2.53 # main") == Some(1));
    assert!(rt;
        is_told(
            alloc,
            "--policy crate 53 2",
            "nameserver 192.0.2.53 # main",
            "dns_forward: standard input: line 1 refused\n",
        ) == Some(true)
    );
    assert!(rt;
        is_told(
            alloc,
            "53 2",
            "nameserver 127.0.0.1",
            "dns_forward: the server 127.0.0.1:53 is this very forwarder, which would ask itself\n",
        ) == Some(true)
    );
    assert!(rt;
        is_told(
            alloc,
            "53 x",
            "nameserver 192.0.2.53",
            "dns_forward: x: no number of turns from 1 to 18446744073709551615; see dns_forward --help\n",
        ) == Some(true)
    );
}

#[test]
fn runs_tell_of_lines(rt: HostRuntime) {
    let alloc = rt.alloc();
    let second = format!(in alloc; "{WITH_PORT}nameserver 192.0.2.53\n");
    let Ok(second) = second else {
        return;
    };
    assert!(rt; status(alloc, "53 2", &second) == Some(0));
    assert!(rt; is_told(alloc, "53 2", &second, NOTE) == Some(true));
}
