//! A run of the program that asks a server on this host.

use client_edge::{RandWords, RealClock, SocketEdge};
use dns_base::Octets;
use dns_values::{MemSink, MemSource};
use dnsq_run::run_alone;
use rand::rngs::StdRng;
use std::alloc::{AllocError, Global};
use std::test::Fail;

/// The words that ask for the address of example.com at a port.
fn words(alloc: Global, port: u16) -> Result<Vec<String>, AllocError> {
    let text = format!(in alloc; "query example.com A --port {port}")?;
    let mut words = Vec::new(alloc);
    for word in text.split(' ') {
        words.push(String::from_str(alloc, word)?)?;
    }
    Ok(words)
}

/// A source of a configuration.
fn source(alloc: Global, conf: &str) -> Result<MemSource, Fail> {
    let octets = Octets::from_slice(alloc, conf.as_bytes())?;
    Ok(MemSource::new(octets, Vec::new(alloc)))
}

/// Whether the program, asked at a port under a configuration, ends well with the line of a message.
pub fn is_answered(rt: HostRuntime, conf: &str, port: u16) -> Result<bool, Fail> {
    let alloc = rt.alloc();
    let words = words(alloc, port)?;
    let mut sink = MemSink::new(alloc, Vec::new(alloc), Vec::new(alloc));
    let status = run_alone(
        alloc,
        &words,
        &mut source(alloc, conf)?,
        &mut sink,
        &mut SocketEdge::new(rt, alloc),
        &mut RealClock::new(rt),
        &mut RandWords::new(rand::make_rng::<StdRng, _>(&rt)?),
    );
    Ok(status.0 == 0 && sink.as_slice().starts_with(b"reply 0 ok "))
}
