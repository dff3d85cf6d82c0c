//! Servers that are named, whose addresses are asked for first.

use client_edge::{FileOpener, RandWords, RealClock, SocketEdge};
use dns_lookup_files::Place;
use dns_names::Name;
use dns_values::{IpAddr, NoMemory};
use rand::rngs::StdRng;
use std::alloc::Global;
use stub_resolver::{FoundHosts, StubResolver};

type Resolver = StubResolver<SocketEdge<HostRuntime>, RealClock<HostRuntime>, RandWords<StdRng>>;

/// Whether a text is of the letters, digits and signs that names of hosts have, and has a letter (RFC 1123 2.1).
fn is_host(text: &str) -> bool {
    let octets = text.as_bytes();
    octets.iter().any(|octet| octet.is_ascii_alphabetic())
        && octets.iter().all(|octet| {
            octet.is_ascii_alphanumeric() || *octet == b'-' || *octet == b'.' || *octet == b'_'
        })
}

/// The name of a server, and what stands behind it with its `#`, if a word names one by a name.
fn named_in(place: Place, word: &str) -> Option<(&str, &str)> {
    if place != Place::Free {
        return None;
    }
    let text = word.strip_prefix('@')?;
    let (name, port) = match text.split_once('#') {
        Some((name, port)) => (name, port),
        None => (text, ""),
    };
    if is_host(name)
        && !name.eq_ignore_ascii_case("localhost")
        && IpAddr::from_text(name).is_err()
    {
        Some((name, port))
    } else {
        None
    }
}

/// Adds a word.
fn push_word(alloc: Global, words: &mut Vec<String>, word: &str) -> Result<(), NoMemory> {
    words.push(String::from_str(alloc, word)?)?;
    Ok(())
}

/// The word that names a server by its address.
fn server_word(alloc: Global, ip: IpAddr, port: &str) -> Result<String, NoMemory> {
    if port.is_empty() {
        Ok(format!(in alloc; "@{ip}")?)
    } else {
        Ok(format!(in alloc; "@{ip}#{port}")?)
    }
}

/// Adds the words that name a server by each of its addresses, and says whether there are any. The servers that are asked for them are
/// those of the system's file.
fn push_addresses(
    rt: HostRuntime,
    name: &str,
    port: &str,
    words: &mut Vec<String>,
) -> Result<bool, NoMemory> {
    let alloc = rt.alloc();
    let Ok(name) = Name::from_text(alloc, name) else {
        return Ok(false);
    };
    let Ok(generator) = rand::make_rng::<StdRng, _>(&rt) else {
        return Ok(false);
    };
    let made = Resolver::new(
        alloc,
        &mut FileOpener::new(rt),
        SocketEdge::new(rt, alloc),
        RealClock::new(rt),
        RandWords::new(generator),
    );
    let Ok(mut resolver) = made else {
        return Ok(false);
    };
    let Ok(found) = resolver.lookup_host(alloc, &name) else {
        return Ok(false);
    };
    let mut is_found = false;
    for ip in found.iter() {
        let word = server_word(alloc, ip, port)?;
        push_word(alloc, words, word.as_str())?;
        is_found = true;
    }
    Ok(is_found)
}

/// The words, with the addresses of each server that is named by a name. A name without an address stays, and is refused as any word is that
/// names no server.
pub fn with_addresses(rt: HostRuntime, words: &[String]) -> Result<Vec<String>, NoMemory> {
    let alloc = rt.alloc();
    let mut all = Vec::new(alloc);
    let mut place = Place::Free;
    for word in words {
        let word = word.as_str();
        let is_found = match named_in(place, word) {
            Some((name, port)) => push_addresses(rt, name, port, &mut all)?,
            None => false,
        };
        if !is_found {
            push_word(alloc, &mut all, word)?;
        }
        place = place.behind(word);
    }
    Ok(all)
}
