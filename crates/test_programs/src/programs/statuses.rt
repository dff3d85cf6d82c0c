//! The exit status and what is written, where something is refused or one call fails.

use crate::programs::runs::{run, sink, source, words};
use std::alloc::{AllocError, Global};
use std::test::Fail;

/// Whether a run has this status and writes this.
fn ends(
    alloc: Global,
    word: &str,
    input: &str,
    fails: [u64; 2],
    status: u8,
    written: &str,
) -> Result<bool, Fail> {
    let mut source = source(alloc, input, fails[0])?;
    let mut sink = sink(alloc, fails[1])?;
    let words = words(alloc, word)?;
    Ok(
        run(alloc, &words, &mut source, &mut sink) == status
            && sink.as_slice() == written.as_bytes(),
    )
}

const CONF: &str =
    "search corp.example example.com\nnameserver 2001:db8::53\noptions edns0 trust-ad timeout:3\n";

/// The command, its input, the call of the source and that of the sink that fail, the status, and what is written.
const ENDINGS: [(&str, &str, [u64; 2], u8, &str); 9] = [
    ("replay", "", [9, 9], 0, "trace 1\nend\n"),
    (
        "replay",
        "conf nameserver 192.0.2.53\nat x tick\n",
        [9, 9],
        1,
        "line 2 refused\n",
    ),
    (
        "replay",
        "conf nameserver 192.0.2.53\nat 0 bytes 0 00\n",
        [9, 9],
        0,
        "trace 1\nat 0 bytes 0 00\nend\n",
    ),
    (
        "help",
        "",
        [9, 9],
        2,
        "usage: dnsq replay|conf|gen N|many|query NAME TYPE [--port P]\n",
    ),
    (
        "conf",
        "nameserver ns.example\n",
        [9, 9],
        1,
        "line 1 refused\n",
    ),
    (
        "conf",
        CONF,
        [9, 9],
        0,
        "nameserver 2001:db8::53\nsearch corp.example example.com .\noptions timeout:3 use-edns0\n",
    ),
    ("replay", "", [0, 9], 3, ""),
    ("replay", "", [9, 0], 4, ""),
    ("replay", "", [9, 1], 4, "trace 1\nend\n"),
];

#[test]
fn what_is_refused_or_fails_has_its_status(rt: HostRuntime) -> Result<(), Fail> {
    for (word, input, fails, status, written) in ENDINGS {
        assert!(rt;
            ends(rt.alloc(), word, input, fails, status, written)?,
            "at {word} {input}"
        );
    }
    Ok(())
}

/// Comments of 29000 octets: three reads of 8192 octets, one of 4424, and one that finds the end.
fn comments(alloc: Global) -> Result<String, AllocError> {
    let mut input = String::new(alloc);
    for _ in 0..1000 {
        input.push_str("# a line that is passed over\n")?;
    }
    Ok(input)
}

/// The commands, each with what it writes for comments.
const COMMENTED: [(&str, &str); 2] = [
    ("replay", "trace 1\nend\n"),
    ("conf", "nameserver 127.0.0.1\ndomain .\n"),
];

/// Whether a command on an input has status 3 and writes nothing, where a call of the source fails.
fn is_told(alloc: Global, word: &str, input: &str, call: u64) -> Result<bool, Fail> {
    ends(alloc, word, input, [call, 9], 3, "")
}

/// Whether each of five calls of the source that fails is told.
fn are_told(alloc: Global, word: &str, input: &str) -> Result<bool, Fail> {
    for call in 0..5 {
        if !is_told(alloc, word, input, call)? {
            return Ok(false);
        }
    }
    Ok(true)
}

#[test]
fn each_fault_of_the_source_is_told(rt: HostRuntime) -> Result<(), Fail> {
    let input = comments(rt.alloc())?;
    for (word, _) in COMMENTED {
        assert!(rt; are_told(rt.alloc(), word, input.as_str())?, "{word}");
    }
    Ok(())
}

#[test]
fn comments_alone_are_taken(rt: HostRuntime) -> Result<(), Fail> {
    let input = comments(rt.alloc())?;
    for (word, written) in COMMENTED {
        assert!(rt;
            ends(rt.alloc(), word, input.as_str(), [5, 9], 0, written)?,
            "{word}"
        );
    }
    Ok(())
}
