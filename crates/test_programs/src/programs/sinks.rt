//! Sinks that take a part at a time, fail, or take nothing.

ghost use Rattle.std.specs.Prelude.{Some};

use crate::programs::runs::{run, sink, source, words};
use dns_values::{Failed, MemSink, Sink, SinkFault};
use std::alloc::{AllocError, Global};
use std::test::Fail;

/// A sink that takes three octets a call at most.
#[derive(Drop)]
struct Slow {
    sink: MemSink,
}

impl Sink for Slow {
    ghost held = { λ s. Some s.sink.octets };

    ghost faults = { λ s. s.sink.faults };

    fn write(&mut self, buf: &[u8]) -> Result<usize, SinkFault> {
        self.sink.write(&buf[..buf.len().min(3)])
    }

    fn flush(&mut self) -> Result<(), Failed> {
        self.sink.flush()
    }
}

fn ends<K: Sink>(
    alloc: Global,
    word: &str,
    input: &str,
    sink: &mut K,
    status: u8,
) -> Result<bool, Fail> {
    let mut source = source(alloc, input, 9)?;
    let words = words(alloc, word)?;
    Ok(run(alloc, &words, &mut source, sink) == status)
}

const CONF: &str = "nameserver 192.0.2.53\n";

/// The command, its input, the call of the sink that fails, the status, and what was written before.
const CUT: [(&str, &str, u64, u8, &str); 13] = [
    ("replay", "", 0, 4, ""),
    ("replay", "", 1, 4, "tra"),
    ("replay", "", 2, 4, "trace "),
    ("replay", "", 3, 4, "trace 1\ne"),
    ("replay", "", 4, 4, "trace 1\nend\n"),
    ("replay", "", 5, 0, "trace 1\nend\n"),
    ("conf", CONF, 0, 4, ""),
    ("conf", CONF, 1, 4, "nam"),
    ("conf", CONF, 2, 4, "namese"),
    ("conf", CONF, 3, 4, "nameserve"),
    ("conf", CONF, 99, 0, "nameserver 192.0.2.53\ndomain .\n"),
    ("replay", "x\n", 2, 1, "line 1"),
    ("conf", "x\n", 2, 1, "line 1"),
];

fn is_cut(
    alloc: Global,
    word: &str,
    input: &str,
    call: u64,
    status: u8,
    written: &str,
) -> Result<bool, Fail> {
    let mut slow = Slow {
        sink: sink(alloc, call)?,
    };
    let ends = ends(alloc, word, input, &mut slow, status)?;
    Ok(ends && slow.sink.as_slice() == written.as_bytes())
}

#[test]
fn each_fault_of_the_sink_is_told(rt: HostRuntime) -> Result<(), Fail> {
    for (word, input, call, status, written) in CUT {
        assert!(rt;
            is_cut(rt.alloc(), word, input, call, status, written)?,
            "{word} {call}"
        );
    }
    Ok(())
}

/// The command, its input, and the status where the sink takes nothing.
const UNTAKEN: [(&str, &str, u8); 4] = [
    ("replay", "", 4),
    ("conf", CONF, 4),
    ("replay", "x\n", 1),
    ("help", "", 2),
];

fn takes_nothing(alloc: Global) -> Result<MemSink, AllocError> {
    let calls = Vec::from_slice(alloc, &[0, 1, 2, 3])?;
    Ok(MemSink::new(alloc, Vec::new(alloc), calls))
}

fn is_untaken(alloc: Global, word: &str, input: &str, status: u8) -> Result<bool, Fail> {
    let mut sink = takes_nothing(alloc)?;
    let ends = ends(alloc, word, input, &mut sink, status)?;
    Ok(ends && sink.as_slice().is_empty())
}

#[test]
fn a_sink_that_takes_nothing_has_failed(rt: HostRuntime) -> Result<(), Fail> {
    for (word, input, status) in UNTAKEN {
        assert!(rt;
            is_untaken(rt.alloc(), word, input, status)?,
            "{word} {input}"
        );
    }
    Ok(())
}
