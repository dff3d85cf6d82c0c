//! Prints the addresses of a host: `example_lookup NAME` asks the servers that `/etc/resolv.conf` names.
#![tactic(auto)]

use client_edge::{FileOpener, RandWords, RealClock, SocketEdge, command_words};
use dns_base::Name;
use rand::rngs::StdRng;
use std::alloc::Global;
use std::process::ExitCode;
use stub_resolver::{Error, FoundHosts, StubResolver};

type Resolver = StubResolver<SocketEdge<HostRuntime>, RealClock<HostRuntime>, RandWords<StdRng>>;

/// Looks the host up: at the servers that the system's file names, over the system's sockets, by its clock and under its random
/// words.
fn find(
    alloc: Global,
    mut files: FileOpener<HostRuntime>,
    edge: SocketEdge<HostRuntime>,
    clock: RealClock<HostRuntime>,
    words: RandWords<StdRng>,
    host: &Name,
) -> Result<FoundHosts<Resolver>, Error> {
    StubResolver::run(
        alloc,
        &mut files,
        edge,
        clock,
        words,
        |resolver: &mut Resolver| { Ok(resolver.lookup_host(alloc, host)?) },
    )
}

/// Prints the addresses of a host.
fn print(rt: HostRuntime, host: &str) -> Result<(), Error> {
    let host = Name::from_text(rt.alloc(), host)?;
    let (files, clock) = (FileOpener::new(rt), RealClock::new(rt));
    let edge = SocketEdge::new(rt, rt.alloc());
    let words = RandWords::new(rand::make_rng::<StdRng, _>(&rt)?);
    for address in find(rt.alloc(), files, edge, clock, words, &host)?.iter() {
        println!(rt; "{address}")?;
    }
    Ok(())
}

fn main(rt: HostRuntime) -> Result<ExitCode, Error> {
    match command_words(&rt)?.as_slice() {
        [host] => {
            print(rt, host.as_str())?;
            Ok(ExitCode::SUCCESS)
        }
        _ => {
            eprintln!(rt; "usage: example_lookup NAME")?;
            Ok(ExitCode::from(2))
        }
    }
}
