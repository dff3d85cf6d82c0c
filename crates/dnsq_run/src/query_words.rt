//! The words of a query: what is asked, and at which port.

ghost use Rattle.std.specs.Prelude.{◌≡◌, ◌≤◌, IfOk, IfSome};
ghost use Rattle.dnsq_run.specs.QueryWords as spec;

use crate::usage::number_of;
use dns_base::{Name, NameFault, NoMemory, Rtype};
use std::alloc::Global;

/// What is asked of the servers.
#[derive(Drop)]
pub struct Query {
    /// The name that is asked for.
    pub name: Name,
    /// The type that is asked for.
    pub rtype: Rtype,
    /// The port at which every server is asked, in place of its own.
    pub port: Option<u16>,
}

/// What the next word may be.
#[derive(Clone, Copy)]
pub enum Next {
    /// An option, the name or the type.
    Any,
    /// The port alone.
    Port,
    /// The name or the type.
    Plain,
}

/// What words say of a query so far.
#[derive(Drop)]
pub struct Said {
    /// The name that is asked for.
    pub name: Option<Name>,
    /// The type that is asked for.
    pub rtype: Option<Rtype>,
    /// The port at which every server is asked, in place of its own.
    pub port: Option<u16>,
    /// What the next word may be.
    pub next: Next,
}

/// The type that a word names.
#[tactic(auto, unfolding(crate::specs::QueryWords::rtype_of))]
fn rtype_of(word: &str) -> Option<Rtype>
    ensures { result ≡ spec.rtype_of word.now }
{
    match word {
        "A" => Some(Rtype::A),
        "NS" => Some(Rtype::NS),
        "CNAME" => Some(Rtype::CNAME),
        "SOA" => Some(Rtype::SOA),
        "PTR" => Some(Rtype::PTR),
        "MX" => Some(Rtype::MX),
        "TXT" => Some(Rtype::TXT),
        "AAAA" => Some(Rtype::AAAA),
        "SRV" => Some(Rtype::SRV),
        "DNAME" => Some(Rtype::DNAME),
        "ANY" => Some(Rtype::ANY),
        _ => None,
    }
}

/// The port that a word names: a number from 1 to 65535, without sign or leading zeros.
fn port_of(word: &[u8]) -> Option<u16>
    ensures { result ≡ spec.port_of word.now }
{
    let port = number_of(u16::MAX, word)?;
    if port == 0 { None } else { Some(port) }
}

/// The name that a word is the text of, if it is one.
fn name_in(alloc: Global, word: &str) -> Result<Option<Name>, NoMemory>
    ensures { IfOk result (λ name. name ≡ spec.name_in word.now) }
{
    match Name::from_text(alloc, word) {
        Ok(name) => Ok(Some(name)),
        Err(NameFault::NoMemory) => Err(NoMemory),
        Err(NameFault::Parse) => Ok(None),
        Err(NameFault::Long) => Ok(None),
    }
}

/// What is said with this word too, which is the name or else the type; none where it is neither.
fn with_plain(alloc: Global, word: &str, said: Said) -> Result<Option<Said>, NoMemory>
    ensures { IfOk result (λ s. s ≡ spec.with_plain word.now said) }
{
    let Said {
        name,
        rtype,
        port,
        next,
    } = said;
    match (name, rtype) {
        (None, rtype) => match name_in(alloc, word)? {
            None => Ok(None),
            Some(name) => Ok(Some(Said {
                name: Some(name),
                rtype,
                port,
                next,
            })),
        },
        (Some(name), None) => match rtype_of(word) {
            None => Ok(None),
            Some(rtype) => Ok(Some(Said {
                name: Some(name),
                rtype: Some(rtype),
                port,
                next,
            })),
        },
        (Some(_), Some(_)) => Ok(None),
    }
}

/// What is said with this port too; none where one was said, or it is none.
fn with_port(word: &[u8], said: Said) -> Option<Said>
    ensures { result ≡ spec.with_port word.now said }
{
    if said.port.is_some() {
        return None;
    }
    let port = port_of(word)?;
    let Said {
        name,
        rtype,
        port: _,
        next: _,
    } = said;
    Some(Said {
        name,
        rtype,
        port: Some(port),
        next: Next::Any,
    })
}

/// What is said with a word too, where options may come.
fn any_said(alloc: Global, word: &str, mut said: Said) -> Result<Option<Said>, NoMemory>
    ensures { IfOk result (λ s. s ≡ spec.any_said word.now said) }
{
    let octets = word.as_bytes();
    if octets == b"--".as_slice() {
        said.next = Next::Plain;
        return Ok(Some(said));
    }
    if octets == b"--port".as_slice() {
        said.next = Next::Port;
        return Ok(Some(said));
    }
    if octets.starts_with(b"--port=") {
        return Ok(with_port(&octets[7..], said));
    }
    if octets.starts_with(b"-") {
        return Ok(None);
    }
    with_plain(alloc, word, said)
}

/// What is said with a word too.
fn said_at(alloc: Global, word: &str, said: Said) -> Result<Option<Said>, NoMemory>
    ensures { IfOk result (λ s. s ≡ spec.said_at said.next word.now said) }
{
    match said.next {
        Next::Any => any_said(alloc, word, said),
        Next::Port => Ok(with_port(word.as_bytes(), said)),
        Next::Plain => with_plain(alloc, word, said),
    }
}

/// What words say one after another.
fn said_by(alloc: Global, words: &[String]) -> Result<Option<Said>, NoMemory>
    ensures { IfOk result (λ s. s ≡ spec.said_by words.now spec.nothing_said) }
{
    let mut said = Said {
        name: None,
        rtype: None,
        port: None,
        next: Next::Any,
    };
    for word in words {
        match said_at(alloc, word.as_str(), said)? {
            None => return Ok(None),
            Some(more) => said = more,
        }
    }
    Ok(Some(said))
}

/// The query that is said: a name and a type, and no port is due.
fn asked(said: Said) -> Option<Query>
    ensures { result ≡ spec.asked said }
{
    let Said {
        name,
        rtype,
        port,
        next,
    } = said;
    match (next, name, rtype) {
        (Next::Port, _, _) => None,
        (_, Some(name), Some(rtype)) => Some(Query { name, rtype, port }),
        _ => None,
    }
}

/// The query of the words, which do not hold the program's own name; none where they are no query.
pub fn query_of(alloc: Global, words: &[String]) -> Result<Option<Query>, NoMemory>
    ensures { IfOk result (λ q. q ≡ spec.query_of words.now) }
{
    match words {
        [word, behind @ ..] if word.as_bytes() == b"query".as_slice() => {
            match said_by(alloc, behind)? {
                Some(said) => Ok(asked(said)),
                None => Ok(None),
            }
        }
        _ => Ok(None),
    }
}
