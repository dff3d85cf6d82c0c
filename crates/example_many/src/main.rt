//! Prints the addresses of many hosts, which are all asked for at once: `example_many ADDRESS PORT NAME..` asks the server there.
//!
//! With `domain`: a runtime of `async`, a `ResolvConf` and `join_all(names.iter().map(|name| resolver.lookup_host(name))).await`.
//! With hickory: the same runtime, a `TokioResolver` and `join_all(names.iter().map(|name| resolver.lookup_ip(name))).await`.
#![tactic(auto)]

use client_edge::{RandWords, RealClock, SocketEdge, command_words};
use dns_base::{Duration, IpAddr, Name, SocketAddr};
use rand::rngs::StdRng;
use resolv_conf::{ResolvConf, ServerConf, Transport};
use resolver_policy::{practical, practical_choice};
use std::process::ExitCode;
use stub_resolver::{Error, Settings, StubResolver};

/// A resolver of one server, which is asked again for what is lost, within 30 seconds.
type Resolver = StubResolver<SocketEdge<HostRuntime>, RealClock<HostRuntime>, RandWords<StdRng>>;

fn resolver_of(rt: HostRuntime, addr: SocketAddr) -> Result<Resolver, Error> {
    let mut words = RandWords::new(rand::make_rng::<StdRng, _>(&rt)?);
    let mut conf = ResolvConf::new(rt.alloc());
    conf.servers.push(ServerConf::new(addr, Transport::UdpTcp))?;
    conf.options.attempts = 3;
    conf.options.timeout = Duration::from_secs(10);
    let conf = practical(rt.alloc(), conf, &mut words)?;
    let (edge, clock) = (SocketEdge::new(rt, rt.alloc()), RealClock::new(rt));
    let mut settings = Settings::new();
    settings.redundant = practical_choice();
    Ok(StubResolver::with_settings(rt.alloc(), conf, settings, edge, clock, words)?)
}

/// Prints a line for each host and address.
fn print_all(rt: HostRuntime, addr: SocketAddr, hosts: &[String]) -> Result<(), Error> {
    let mut names = Vec::new(rt.alloc());
    for host in hosts {
        names.push(Name::from_text(rt.alloc(), host.as_str())?)?;
    }
    let found = resolver_of(rt, addr)?.lookup_hosts(rt.alloc(), &names)?;
    for (name, found) in names.iter().zip(&found) {
        match found {
            Ok(found) => {
                for address in found.iter() {
                    println!(rt; "{name} {address}")?;
                }
            }
            Err(fault) => eprintln!(rt; "{name}: {fault}")?,
        }
    }
    Ok(())
}

fn main(rt: HostRuntime) -> Result<ExitCode, Error> {
    let words = command_words(&rt)?;
    if let [address, port, hosts @ ..] = words.as_slice()
        && let (Ok(ip), Ok(port)) = (IpAddr::from_text(address.as_str()), port.parse::<u16>())
    {
        print_all(rt, SocketAddr { ip, port }, hosts)?;
        return Ok(ExitCode::SUCCESS);
    }
    eprintln!(rt; "usage: example_many ADDRESS PORT NAME..")?;
    Ok(ExitCode::from(2))
}
