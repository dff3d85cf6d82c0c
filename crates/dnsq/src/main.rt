//! The program `dnsq`: it replays scripts of events, alone or by several threads, prints configurations, and asks servers.
#![tactic(auto)]

use client_core::{ListClock, ListEdge};
use client_edge::{ConfFile, FileOpener, RandWords, RealClock, SocketEdge, command_words};
use client_request::{ListWords, WordList};
use dns_values::{StdSink, StdSource};
use dnsq_run::run_alone;
use rand::rngs::StdRng;
use std::process::ExitCode;
use std::sync::Wait;
use std::thread::Threads;

/// The exit status where memory, or the system's random words, can't be had.
const NO_MEMORY: u8 = 6;

/// Whether the words begin with `query`.
fn asks_servers(words: &[String]) -> bool {
    match words {
        [word, ..] => word.as_bytes() == b"query".as_slice(),
        [] => false,
    }
}

/// The system's random words, where they can be had.
fn random_words(rt: &HostRuntime) -> Option<RandWords<StdRng>> {
    match rand::make_rng::<StdRng, _>(rt) {
        Ok(generator) => Some(RandWords::new(generator)),
        Err(_) => None,
    }
}

/// Asks servers: those that the system's file names, over the system's sockets, by its clock and under its random words. The types
/// are the real ones, so that nothing in memory stands for one of them.
fn ask(
    rt: HostRuntime,
    words: &[String],
    files: FileOpener<HostRuntime>,
    edge: &mut SocketEdge<HostRuntime>,
    clock: &mut RealClock<HostRuntime>,
    random: &mut RandWords<StdRng>,
) -> u8 {
    let file = &mut ConfFile::new(files);
    let sink = &mut StdSink::new(rt.stdout());
    run_alone(rt.alloc(), words, file, sink, edge, clock, random).0
}

/// Does what the words ask for, which asks no server.
fn read<R: Threads + Wait + Sync>(threads: &R, rt: HostRuntime, words: &[String]) -> u8 {
    let alloc = rt.alloc();
    let status = dnsq_many::run(
        threads,
        alloc,
        words,
        &mut StdSource::new(rt.stdin()),
        &mut StdSink::new(rt.stdout()),
        &mut ListEdge::new(alloc, Vec::new(alloc)),
        &mut ListClock::new(Vec::new(alloc)),
        &mut ListWords::new(WordList::new(alloc)),
    );
    status.0
}

/// Does what the command line asks for. Without random words nothing is asked.
fn run<R: Threads + Wait + Sync>(
    threads: &R,
    rt: HostRuntime,
    files: FileOpener<HostRuntime>,
    mut edge: SocketEdge<HostRuntime>,
    mut clock: RealClock<HostRuntime>,
    random: Option<RandWords<StdRng>>,
) -> u8 {
    let Ok(words) = command_words(&rt) else {
        return NO_MEMORY;
    };
    if !asks_servers(&words) {
        return read(threads, rt, &words);
    }
    match random {
        Some(mut random) => ask(rt, &words, files, &mut edge, &mut clock, &mut random),
        None => NO_MEMORY,
    }
}

fn main(rt: HostRuntime) -> ExitCode {
    ExitCode::from(run(
        &rt,
        rt,
        FileOpener::new(rt),
        SocketEdge::new(rt, rt.alloc()),
        RealClock::new(rt),
        random_words(&rt),
    ))
}
