//! What the words ask for.

ghost use Rattle.std.specs.Prelude.{◌≡◌};
ghost use Rattle.zone_fetch_run.specs.Words.{IsJudged, IsSaidBy, command_in, missing, nothing_said};

use crate::wrong::{Fault, Refusal};
use dns_base::{IpAddr, Name, SocketAddr};
use std::alloc::Global;

/// The port at which a server is asked where none is said (RFC 5936 2).
const DNS_PORT: u16 = 53;

/// How much memory the updates of a transfer may be reckoned to take where nothing is said, in octets.
pub const MOST: u64 = 1_000_000_000;

/// What is to be done.
#[derive(Drop)]
pub struct Command {
    /// The zone that is fetched.
    pub apex: Name,
    /// The server that is asked.
    pub server: SocketAddr,
    /// How much memory the updates may be reckoned to take, in octets.
    pub most: u64,
    /// The file that has the zone as it was printed before, if its changes alone are asked for.
    pub file: Option<String>,
    /// The file in whose place the zone is put, if it is not written to the sink.
    pub output: Option<String>,
    /// Whether the zone is written in the form that name servers load.
    pub text: bool,
    /// Whether the whole zone is asked for also where the server fails at its changes (SERVFAIL). No words say so.
    pub whole_at_servfail: bool,
}

/// What the next word is.
#[derive(Clone, Copy)]
pub(crate) enum Next {
    /// An option or the zone.
    Any,
    /// The port.
    Port,
    /// How much memory the updates may take.
    Most,
    /// The file that has the zone.
    File,
    /// The file in whose place the zone is put.
    Output,
    /// The server's address.
    Address,
    /// Nothing: there is none.
    Nothing,
}

/// What an option says.
#[derive(Clone, Copy)]
pub(crate) enum Meaning {
    /// That the zone is written in the form that name servers load.
    Text,
    /// What the next word is, which is its value.
    Value(Next),
}

/// What words say so far.
#[derive(Drop)]
pub(crate) struct Said {
    pub(crate) port: u16,
    pub(crate) most: u64,
    pub(crate) file: Option<String>,
    pub(crate) output: Option<String>,
    pub(crate) text: bool,
    pub(crate) zone: Option<Name>,
    pub(crate) server: Option<IpAddr>,
    pub(crate) next: Next,
}

impl Said {
    /// What no word says.
    fn new() -> Said
        ensures { result ≡ nothing_said }
    {
        Said {
            port: DNS_PORT,
            most: MOST,
            file: None,
            output: None,
            text: false,
            zone: None,
            server: None,
            next: Next::Any,
        }
    }
}

/// Why words end before a zone: the value of an option is due, or the zone itself.
fn missing(next: Next) -> Refusal
    ensures { result ≡ missing next }
{
    match next {
        Next::Port => Refusal::NoPort,
        Next::Most => Refusal::NoMost,
        Next::File => Refusal::NoFile,
        Next::Output => Refusal::NoOutput,
        Next::Any | Next::Address | Next::Nothing => Refusal::NoZone,
    }
}

/// The command that is said: a zone and a server.
fn command_in(said: Said) -> Result<Command, Refusal>
    ensures { result ≡ command_in said }
{
    let Said {
        port,
        most,
        file,
        output,
        text,
        zone,
        server,
        next,
    } = said;
    match (zone, server) {
        (Some(apex), Some(ip)) => Ok(Command {
            apex,
            server: SocketAddr { ip, port },
            most,
            file,
            output,
            text,
            whole_at_servfail: false,
        }),
        (Some(_), None) => Err(Refusal::NoAddress),
        (None, _) => Err(missing(next)),
    }
}

/// What the words say, if each may stand where it does.
fn said_by(alloc: Global, words: &[String]) -> Result<Said, Fault>
    ensures { IsSaidBy words.now result }
{
    let mut said = Said::new();
    match said.take_all(alloc, words) {
        Ok(()) => Ok(said),
        Err(fault) => Err(fault),
    }
}

/// The command of the words, which do not hold the program's own name. `Refused` names the first word that is wrong, or says what is
/// missing.
pub(crate) fn command_of(alloc: Global, words: &[String]) -> Result<Command, Fault>
    ensures { IsJudged words.now result }
{
    match said_by(alloc, words) {
        Ok(said) => match command_in(said) {
            Ok(command) => Ok(command),
            Err(refusal) => Err(Fault::Refused(refusal)),
        },
        Err(fault) => Err(fault),
    }
}
