//! The program `dns_lookup`: it asks servers for records, and writes what they answer.
#![tactic(auto)]

mod named_servers;
mod root_walk;
mod walked_world;

use client_edge::{ConfFile, FileOpener, RandWords, RealClock, SocketEdge, command_words};
use command_parts::{end_by, statuses};
use dns_lookup_files::{FileFault, with_files};
use dns_lookup_run::{
    PassingEdge, WatchedClock, WatchedEdge, page_of, run, run_recorded, tell_no_memory,
    tell_no_random, tell_page,
};
use dns_values::{NoMemory, Status, StdSink};
use named_servers::with_addresses;
use rand::rngs::StdRng;
use record_file::{RecordFile, record_of};
use root_walk::{ended_by, walk_all, walk_of};
use std::alloc::Global;
use std::io::Stderr;
use std::process::ExitCode;

/// The system's random words, where they can be had.
fn random_words(rt: &HostRuntime) -> Option<RandWords<StdRng>> {
    match rand::make_rng::<StdRng, _>(rt) {
        Ok(generator) => Some(RandWords::new(generator)),
        Err(_) => None,
    }
}

/// Does what the words ask for and records it to a file of this name.
fn ask_recorded(
    rt: HostRuntime,
    file: String,
    words: &[String],
    errors: &mut StdSink<Stderr>,
    edge: SocketEdge<HostRuntime>,
    clock: RealClock<HostRuntime>,
    random: &mut RandWords<StdRng>,
) -> Status {
    let recorded = run_recorded(
        rt.alloc(),
        words,
        &mut ConfFile::new(FileOpener::new(rt)),
        &mut StdSink::new(rt.stdout()),
        errors,
        &mut WatchedEdge::new(rt.alloc(), PassingEdge::new(rt.alloc(), edge)),
        &mut WatchedClock::new(clock),
        random,
        RecordFile::new(rt, file),
    );
    recorded.tell_ended(rt.alloc(), errors);
    recorded.status
}

/// Does what words ask for: of servers that the system's file names, over the system's sockets, by its clock and under its random words.
/// The types are the real ones, so that nothing in memory stands for one of them. Without random words nothing is asked.
fn ask(
    rt: HostRuntime,
    words: &[String],
    errors: &mut StdSink<Stderr>,
    edge: SocketEdge<HostRuntime>,
    clock: RealClock<HostRuntime>,
) -> Status {
    let Some(mut random) = random_words(&rt) else {
        return tell_no_random(errors);
    };
    let (file, words) = record_of(words);
    if let Some(lookup) = walk_of(rt.alloc(), words) {
        return walk_all(rt, &lookup, file.is_some(), errors, &mut random);
    }
    if let Some(file) = file {
        return match String::from_str(rt.alloc(), file) {
            Ok(file) => ask_recorded(rt, file, words, errors, edge, clock, &mut random),
            Err(_) => tell_no_memory(errors),
        };
    }
    let status = run(
        rt.alloc(),
        words,
        &mut ConfFile::new(FileOpener::new(rt)),
        &mut StdSink::new(rt.stdout()),
        errors,
        &mut WatchedEdge::new(rt.alloc(), PassingEdge::new(rt.alloc(), edge)),
        &mut WatchedClock::new(clock),
        &mut random,
    );
    ended_by(status, errors)
}

/// That a file of words could not be read.
fn unread_line(alloc: Global, name: &str) -> Result<String, NoMemory> {
    Ok(format!(in alloc; "dns_lookup: {name} could not be read as words\n")?)
}

/// Tells that a file of words could not be read.
fn tell_unread(alloc: Global, name: &str, errors: &mut StdSink<Stderr>) -> Status {
    match unread_line(alloc, name) {
        Ok(line) => end_by(errors, statuses::SOURCE_FAULT, line.as_bytes()),
        Err(NoMemory) => tell_no_memory(errors),
    }
}

/// Does what words ask for once those of files stand behind them, and the addresses of servers that are named by names.
fn ask_whole(rt: HostRuntime, words: &[String], errors: &mut StdSink<Stderr>) -> Status {
    let words = match with_files(rt.alloc(), &mut FileOpener::new(rt), words) {
        Ok(words) => words,
        Err(FileFault::Unread(name)) => return tell_unread(rt.alloc(), name.as_str(), errors),
        Err(FileFault::NoMemory) => return tell_no_memory(errors),
    };
    let Ok(words) = with_addresses(rt, &words) else {
        return tell_no_memory(errors);
    };
    ask(
        rt,
        &words,
        errors,
        SocketEdge::new(rt, rt.alloc()),
        RealClock::new(rt),
    )
}

/// Does what the command line asks for: help, the release, or a lookup.
fn status_of(rt: HostRuntime, errors: &mut StdSink<Stderr>) -> Status {
    let Ok(words) = command_words(&rt) else {
        return tell_no_memory(errors);
    };
    if let Some(page) = page_of(&words) {
        return tell_page(rt.alloc(), page, &mut StdSink::new(rt.stdout()), errors);
    }
    ask_whole(rt, &words, errors)
}

fn main(rt: HostRuntime) -> ExitCode {
    ExitCode::from(status_of(rt, &mut StdSink::new(rt.stderr())).0)
}
