//! Questions to servers, over edges in memory.

ghost use Rattle.std.specs.Prelude.{◌≡◌, None, OnOk, IfOk};
ghost use Rattle.dns_values.specs.Source.{one_more};

use crate::programs::runs::{sink, source};
use client_core::{Edge, ListClock, ListEdge, Out, What};
use client_request::{Fault, ListWords, WordList};
use dns_base::{NoMemory, Octets};
use dnsq_run::run_alone;
use resolv_conf::ServerConf;
use std::alloc::{AllocError, Global};
use std::test::Fail;

/// Words of a command line, with single blanks between.
fn words(alloc: Global, line: &str) -> Result<Vec<String>, AllocError> {
    let mut words = Vec::new(alloc);
    for word in line.split(' ') {
        words.push(String::from_str(alloc, word)?)?;
    }
    Ok(words)
}

/// The status and what is written, over a source and a sink of which one call each fails.
fn asked<E: Edge>(
    alloc: Global,
    line: &str,
    conf: &str,
    fails: [u64; 2],
    edge: &mut E,
) -> Result<(u8, Vec<u8>), Fail> {
    let words = words(alloc, line)?;
    let mut random = WordList::new(alloc);
    random.push(4660)?;
    let mut sink = sink(alloc, fails[1])?;
    let status = run_alone(
        alloc,
        &words,
        &mut source(alloc, conf, fails[0])?,
        &mut sink,
        edge,
        &mut ListClock::new(Vec::new(alloc)),
        &mut ListWords::new(random),
    );
    Ok((status.0, Vec::from_slice(alloc, sink.as_slice())?))
}

/// Words, and whether they are those of a query.
const WORDS: [(&str, bool); 40] = [
    ("query example.com A", true),
    ("query example.com NS", true),
    ("query example.com CNAME", true),
    ("query example.com SOA", true),
    ("query 1.2.0.192.in-addr.arpa PTR", true),
    ("query example.com MX", true),
    ("query example.com TXT", true),
    ("query example.com AAAA", true),
    ("query _sip._udp.example.com SRV", true),
    ("query example.com DNAME", true),
    ("query example.com ANY", true),
    ("query . NS", true),
    ("query example.com. A", true),
    ("query example.com A --port 5300", true),
    ("query --port 5300 example.com A", true),
    ("query example.com --port 5300 A", true),
    ("query example.com --port=5300 A", true),
    ("query --port=1 -- example.com A", true),
    ("query -- example.com A", true),
    ("query example.com -- A", true),
    ("query -- -example.com A", true),
    ("query example.com A --port=65535", true),
    ("query", false),
    ("query example.com", false),
    ("query example.com A A", false),
    ("query example.com a", false),
    ("query example.com AXFR", false),
    ("query example..com A", false),
    ("query -example.com A", false),
    ("query example.com A -", false),
    ("query example.com A --port", false),
    ("query example.com A --port 0", false),
    ("query example.com A --port 053", false),
    ("query example.com A --port +53", false),
    ("query example.com A --port 65536", false),
    ("query example.com A --port=", false),
    ("query example.com A --port 1 --port 2", false),
    ("query example.com A --port=1 --port=2", false),
    ("query example.com A --help", false),
    ("query example.com -- A --port=53", false),
];

/// Whether words are taken as a query: the source fails then, and else they are refused before it is read.
fn is_taken(alloc: Global, line: &str, good: bool) -> Result<bool, Fail> {
    let mut edge = ListEdge::new(alloc, Vec::new(alloc));
    let (status, _) = asked(alloc, line, "", [0, 9], &mut edge)?;
    Ok(status == if good { 3 } else { 2 })
}

#[test]
fn words_are_a_query_or_refused(rt: HostRuntime) -> Result<(), Fail> {
    for (line, good) in WORDS {
        assert!(rt; is_taken(rt.alloc(), line, good)?, "{line}");
    }
    Ok(())
}

/// The answer under the id 4660: 192.0.2.1.
const ANSWER: [u8; 45] = [
    0x12, 0x34, 0x81, 0x80, 0, 1, 0, 1, 0, 0, 0, 0, 7, 101, 120, 97, 109, 112, 108, 101, 3, 99,
    111, 109, 0, 0, 1, 0, 1, 0xc0, 12, 0, 1, 0, 1, 0, 0, 0, 100, 0, 4, 192, 0, 2, 1,
];

const QUESTION: &str = "query example.com A";

const CONF: &str = "nameserver 192.0.2.53\n";

const REPLY: &str =
    "reply 0 ok 123481800001000100000000076578616d706c6503636f6d0000010001c00c00010001000000640004c0000201\n";

/// An edge that answers, or at which nothing can be opened.
fn edge(alloc: Global, answers: bool) -> Result<ListEdge, Fail> {
    let mut events = Vec::new(alloc);
    if answers {
        let octets = Octets::from_slice(alloc, &ANSWER)?;
        events.push(Some(What::Opened { place: 0 }))?;
        events.push(Some(What::Datagram { place: 0, octets }))?;
    } else {
        let fault = Fault::Refused;
        events.push(Some(What::OpenFailed { place: 0, fault }))?;
    }
    Ok(ListEdge::new(alloc, events))
}

/// The configuration, whether the edge answers, the calls of the source and of the sink that fail, the status, and what is
/// written.
const ENDINGS: [(&str, bool, [u64; 2], u8, &str); 8] = [
    (CONF, true, [9, 9], 0, REPLY),
    ("", true, [9, 9], 0, REPLY),
    (
        CONF,
        false,
        [9, 9],
        5,
        "reply 0 err Dgram Connect refused\n",
    ),
    ("nameserver x\n", true, [9, 9], 1, "line 1 refused\n"),
    (CONF, true, [0, 9], 3, ""),
    (CONF, true, [9, 0], 4, ""),
    (CONF, true, [9, 1], 4, REPLY),
    (CONF, false, [9, 0], 5, ""),
];

fn ends(
    alloc: Global,
    conf: &str,
    answers: bool,
    fails: [u64; 2],
    status: u8,
    written: &str,
) -> Result<bool, Fail> {
    let mut edge = edge(alloc, answers)?;
    let (was, octets) = asked(alloc, QUESTION, conf, fails, &mut edge)?;
    Ok(was == status && octets.as_slice() == written.as_bytes())
}

#[test]
fn a_query_ends_by_its_reply_or_a_fault(rt: HostRuntime) -> Result<(), Fail> {
    for (conf, answers, fails, status, written) in ENDINGS {
        assert!(rt;
            ends(rt.alloc(), conf, answers, fails, status, written)?,
            "{status} {written}"
        );
    }
    Ok(())
}

/// An edge at which nothing ever happens. It keeps nothing but the count of its polls.
#[derive(Drop)]
struct Silent {
    polls: u64,
}

impl Edge for Silent {
    ghost deeds = { λ _. None };

    ghost polls = { λ s. s.polls };

    ghost faults = { λ _. 0 };

    fn learn_server(&mut self, _server: &ServerConf) -> Result<(), NoMemory>
        ensures { self.new.polls ≡ self.old.polls }
    {
        Ok(())
    }

    fn act(&mut self, _out: &Out) -> Result<(), NoMemory>
        ensures { self.new.polls ≡ self.old.polls }
    {
        Ok(())
    }

    fn poll(&mut self) -> Result<Option<What>, NoMemory>
        ensures polls { OnOk result (self.new.polls ≡ one_more self.old.polls) }
        ensures nothing { IfOk result (λ what. what ≡ None) }
    {
        self.polls = self.polls.saturating_add(1);
        Ok(None)
    }
}

#[test]
fn a_million_turns_without_a_reply(rt: HostRuntime) -> Result<(), Fail> {
    let mut edge = Silent { polls: 0 };
    let (status, written) = asked(rt.alloc(), QUESTION, CONF, [9, 9], &mut edge)?;
    assert_eq!(rt; status, 5);
    assert!(rt; written.as_slice() == b"no reply\n".as_slice());
    assert_eq!(rt; edge.polls, 1_000_000);
    Ok(())
}
