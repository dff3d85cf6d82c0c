//! Prints where a service is, in the order in which its servers are tried, as `example_service _sip._udp example.com 5060`.
//! With `domain`: a runtime of `async`, `resolver.lookup_srv(service, name, port).await?`, and `into_stream(&resolver)` to its end.
//! With hickory: the same runtime and `srv_lookup(name).await?`; the order, the fallback and each target's addresses by hand.
#![tactic(auto)]

use client_edge::{FileOpener, RandWords, RealClock, SocketEdge, command_words};
use dns_base::{Name, RelativeName};
use rand::rngs::StdRng;
use std::process::ExitCode;
use stub_resolver::{Error, StubResolver};

fn print_places(rt: HostRuntime, service: &str, name: &str, port: u16) -> Result<(), Error> {
    let (alloc, edge) = (rt.alloc(), SocketEdge::new(rt, rt.alloc()));
    let words = RandWords::new(rand::make_rng::<StdRng, _>(&rt)?);
    let mut order = RandWords::new(rand::make_rng::<StdRng, _>(&rt)?);
    let mut files = FileOpener::new(rt);
    let mut resolver = StubResolver::new(alloc, &mut files, edge, RealClock::new(rt), words)?;
    let service = RelativeName::from_text(alloc, service)?;
    let name = Name::from_text(alloc, name)?;
    if let Some(mut found) = resolver.lookup_srv(alloc, &mut order, &service, &name, port)? {
        while let Some(item) = found.next_item() {
            for place in item.resolve(alloc, &mut resolver)?.resolved() {
                println!(rt; "{place}")?;
            }
        }
    }
    Ok(())
}

fn main(rt: HostRuntime) -> Result<ExitCode, Error> {
    let words = command_words(&rt)?;
    if let [service, name, port] = words.as_slice()
        && let Ok(port) = port.parse()
    {
        print_places(rt, service.as_str(), name.as_str(), port)?;
        return Ok(ExitCode::SUCCESS);
    }
    eprintln!(rt; "usage: example_service SERVICE NAME PORT")?;
    Ok(ExitCode::from(2))
}
