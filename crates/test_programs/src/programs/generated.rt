//! `gen N`: the summary of what a generated script's replay comes to.

use crate::programs::runs::{run, sink, source};
use std::alloc::{AllocError, Global};
use std::test::Fail;

/// The words that a text has between its blanks.
fn words_of(alloc: Global, text: &str) -> Result<Vec<String>, AllocError> {
    let mut words = Vec::new(alloc);
    for word in text.split(' ') {
        words.push(String::from_str(alloc, word)?)?;
    }
    Ok(words)
}

/// Whether these words have this status and write this, with a source that fails where it is read.
fn ends(alloc: Global, text: &str, status: u8, written: &str) -> Result<bool, Fail> {
    let mut source = source(alloc, "", 0)?;
    let mut sink = sink(alloc, 9)?;
    let words = words_of(alloc, text)?;
    Ok(
        run(alloc, &words, &mut source, &mut sink) == status
            && sink.as_slice() == written.as_bytes(),
    )
}

#[test]
fn a_generated_script_is_summed_up(rt: HostRuntime) -> Result<(), Fail> {
    let summary =
        "asks 200\nok 200\nerrors 0\nrows 406\ndgram-opens 100\nstream-opens 2\ncloses 102\nhits 100\n";
    assert!(rt; ends(rt.alloc(), "gen 1", 0, summary)?);
    Ok(())
}

/// Words that are no command.
const REFUSED: [&str; 8] = [
    "gen", "gen 0", "gen 1001", "gen 01", "gen +1", "gen 1 2", "gen x", "gen ",
];

#[test]
fn other_counts_are_refused(rt: HostRuntime) -> Result<(), Fail> {
    let usage = "usage: dnsq replay|conf|gen N|many|query NAME TYPE [--port P]\n";
    for text in REFUSED {
        assert!(rt; ends(rt.alloc(), text, 2, usage)?, "at {text}");
    }
    Ok(())
}
