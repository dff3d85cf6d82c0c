//! The program `zone_fetch`: it fetches a zone from a name server and prints it, or puts it in the place of a file, or keeps zones.
#![tactic(auto)]

mod beside;
mod system;

use beside::FilesBeside;
use client_edge::{FileOpener, RandWords, RealClock, SocketEdge, command_words};
use client_request::Words;
use dns_values::StdSink;
use program_words::page_asked;
use rand::rngs::StdRng;
use std::fs;
use std::io::Stderr;
use std::process::ExitCode;
use system::RealSystem;
use zone_fetch_run::{
    FetchWorld, Means, ProgressLine, fetch_to, tell_no_memory, tell_no_random, tell_page,
};
use zone_refresh_run::{keep_asked, refresh_asked};

/// What is around a fetch. The types are the real ones, so that nothing in memory stands for one of them.
type RealWorld = FetchWorld<
    FileOpener<HostRuntime>,
    SocketEdge<HostRuntime>,
    RealClock<HostRuntime>,
    RandWords<StdRng>,
    ProgressLine<StdSink<Stderr>>,
    FilesBeside<HostRuntime>,
>;

/// The system's random words, where they can be had.
fn random_words(rt: &HostRuntime) -> Option<RandWords<StdRng>> {
    match rand::make_rng::<StdRng, _>(rt) {
        Ok(generator) => Some(RandWords::new(generator)),
        Err(_) => None,
    }
}

/// Standard error, where it is a terminal: where what its descriptor names is a device of one.
fn terminal(rt: &HostRuntime) -> Option<StdSink<Stderr>> {
    let path = fs::read_link(rt, "/proc/self/fd/2").ok()?;
    if path.starts_with("/dev/pts") {
        Some(StdSink::new(rt.stderr()))
    } else {
        None
    }
}

/// The system's files, clock and sockets that were not used before, under these random words.
fn world_of(rt: HostRuntime, mut random: RandWords<StdRng>) -> RealWorld {
    let files = FilesBeside::new(rt, rt.alloc(), random.next());
    FetchWorld {
        opener: FileOpener::new(rt),
        edge: SocketEdge::new(rt, rt.alloc()),
        later: SocketEdge::new(rt, rt.alloc()),
        means: Means {
            clock: RealClock::new(rt),
            random,
            progress: ProgressLine::new(rt.alloc(), terminal(&rt)),
        },
        files,
    }
}

/// Fetches what words ask for: of a server over the system's sockets, with a zone that one of its files may have. Without random words
/// nothing is asked.
fn fetch(rt: HostRuntime, words: &[String]) -> u8 {
    let mut errors = StdSink::new(rt.stderr());
    let Some(random) = random_words(&rt) else {
        return tell_no_random(&mut errors).0;
    };
    let mut world = world_of(rt, random);
    let mut sink = StdSink::new(rt.stdout());
    fetch_to(rt.alloc(), words, &mut sink, &mut errors, &mut world).0
}

/// Does what the command line asks for: help, the release, zones that are kept until a signal ends the program, or a zone.
fn run(rt: HostRuntime) -> u8 {
    let mut errors = StdSink::new(rt.stderr());
    let Ok(words) = command_words(&rt) else {
        return tell_no_memory(&mut errors).0;
    };
    if let Some(page) = page_asked(&words) {
        return tell_page(
            rt.alloc(),
            page,
            &mut StdSink::new(rt.stdout()),
            &mut errors,
        )
        .0;
    }
    if let Some(asked) = refresh_asked(&words) {
        let mut opener = FileOpener::new(rt);
        let system = RealSystem::new(rt);
        let (status, _) = keep_asked(
            rt.alloc(),
            &words,
            asked,
            system,
            &mut opener,
            &mut errors,
            u64::MAX,
        );
        return status.0;
    }
    fetch(rt, &words)
}

fn main(rt: HostRuntime) -> ExitCode {
    ExitCode::from(run(rt))
}
