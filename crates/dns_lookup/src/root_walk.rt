//! Walks from the root down, over the system's sockets.

use crate::walked_world::SocketWorld;
use client_edge::{ConfFile, FileOpener, RandWords};
use command_parts::{end_by, statuses};
use dns_base::{NoMemory, Seq};
use dns_lookup_pages::Lacking;
use dns_lookup_run::{tell_lack, tell_no_memory, told_conf};
use dns_lookup_walk::{Ending, NameServer, walk};
use dns_lookup_words::{Ask, Layout, Lookup, lookup_of};
use dns_values::{Status, StdSink};
use rand::rngs::StdRng;
use resolv_conf::{ResolvConf, ServerConf};
use std::alloc::Global;
use std::io::Stderr;

/// What is told where each server of a step failed.
const STRANDED: &[u8] =
    b"dns_lookup: no answer: each server of the last zone failed; another @SERVER, +tcp or a longer +time= may help\n";

/// What is told where what servers say is not written whole.
const UNWRITTEN: &[u8] = b"dns_lookup: writing to standard output failed\n";

/// What is told where a walk was to be recorded.
const UNRECORDED: &[u8] = b"dns_lookup: +trace is not recorded\n";

/// The lookup of words that ask for walks.
pub fn walk_of(alloc: Global, words: &[String]) -> Option<Lookup> {
    let lookup = lookup_of(alloc, words).ok()?;
    if lookup.walk { Some(lookup) } else { None }
}

/// The servers that are given.
fn given(alloc: Global, servers: &[ServerConf]) -> Result<Seq<NameServer>, NoMemory> {
    let mut given = Seq::new(alloc);
    for server in servers {
        given.push(NameServer {
            name: None,
            ip: server.addr.ip,
        })?;
    }
    Ok(given)
}

/// Walks to the name of an ask; the status where the walk has no end, or is not written whole.
fn walk_to(
    rt: HostRuntime,
    lookup: &Lookup,
    conf: &ResolvConf,
    ask: &Ask,
    errors: &mut StdSink<Stderr>,
    random: &mut RandWords<StdRng>,
) -> Result<Ending, Status> {
    let Ok(servers) = given(rt.alloc(), conf.servers.as_slice()) else {
        return Err(statuses::NO_MEMORY);
    };
    let mut world = SocketWorld::new(rt, lookup, conf, ask.manner, random);
    let walked = walk(rt.alloc(), &mut world, ask, servers);
    let written = world.status();
    if written == statuses::SINK_FAULT {
        return Err(end_by(errors, written, UNWRITTEN));
    }
    if written != statuses::DONE {
        return Err(written);
    }
    match walked {
        Ok(Some(ending)) => Ok(ending),
        Ok(None) => Err(end_by(errors, statuses::NO_REPLY, STRANDED)),
        Err(NoMemory) => Err(statuses::NO_MEMORY),
    }
}

/// Why the end of a walk has no data to write, where these alone are to be written.
fn lack_of(layout: Layout, ending: Ending) -> Option<Lacking> {
    if !layout.short || layout.json || layout.yaml {
        return None;
    }
    match ending {
        Ending::Answered => None,
        Ending::NoName => Some(Lacking::Name),
        Ending::NoData => Some(Lacking::Data),
    }
}

/// The status, which is told of where memory ran out.
pub fn ended_by(status: Status, errors: &mut StdSink<Stderr>) -> Status {
    if status == statuses::NO_MEMORY {
        return tell_no_memory(errors);
    }
    status
}

/// Walks to each name that is asked for, unless it is to be recorded. The first walk without an end ends it; of the others the first that came
/// to no data, where these alone are to be written, says how it ends.
pub fn walk_all(
    rt: HostRuntime,
    lookup: &Lookup,
    is_recorded: bool,
    errors: &mut StdSink<Stderr>,
    random: &mut RandWords<StdRng>,
) -> Status {
    if is_recorded {
        return end_by(errors, statuses::USAGE, UNRECORDED);
    }
    let mut file = ConfFile::new(FileOpener::new(rt));
    let conf = match told_conf(rt.alloc(), lookup, &mut file, errors, random) {
        Ok(conf) => conf,
        Err(status) => return ended_by(status, errors),
    };
    let mut lack = None;
    for ask in lookup.asks.as_slice() {
        let ending = match walk_to(rt, lookup, &conf, ask, errors, random) {
            Ok(ending) => ending,
            Err(status) => return ended_by(status, errors),
        };
        if lack.is_none() {
            lack = lack_of(ask.manner.layout, ending);
        }
    }
    let status = tell_lack(rt.alloc(), lack, errors);
    ended_by(status, errors)
}
