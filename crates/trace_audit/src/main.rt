//! The program `trace_audit`: it says whether a trace is right by its script.
#![tactic(auto)]

mod named_file;

use client_edge::{FileOpener, command_words};
use dns_values::StdSink;
use named_file::NamedFile;
use program_words::page_asked;
use std::process::ExitCode;
use trace_audit_run::{audit_to, names_among, tell_no_memory, tell_page};

/// The path that is the word with this number, or none.
fn path(words: &[String], number: usize) -> &str {
    match words.get(number) {
        Some(word) => word.as_str(),
        None => "",
    }
}

/// Judges the trace in the second of two files by the script in the first.
fn judge(rt: HostRuntime, words: &[String]) -> u8 {
    let names = names_among(words);
    let status = audit_to(
        rt.alloc(),
        words,
        &mut NamedFile::new(FileOpener::new(rt), path(names, 0)),
        &mut NamedFile::new(FileOpener::new(rt), path(names, 1)),
        &mut StdSink::new(rt.stdout()),
        &mut StdSink::new(rt.stderr()),
    );
    status.0
}

/// Does what the command line asks for: help, the release, or a verdict.
fn run(rt: HostRuntime) -> u8 {
    let mut errors = StdSink::new(rt.stderr());
    let Ok(words) = command_words(&rt) else {
        return tell_no_memory(&mut errors).0;
    };
    match page_asked(&words) {
        Some(page) => {
            tell_page(
                rt.alloc(),
                page,
                &mut StdSink::new(rt.stdout()),
                &mut errors,
            )
            .0
        }
        None => judge(rt, &words),
    }
}

fn main(rt: HostRuntime) -> ExitCode {
    ExitCode::from(run(rt))
}
