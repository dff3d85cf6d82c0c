//! Two threads on one client.
//!
//! Each lane of the script is submitted by a thread of its own; what both did stands in one journal, whose rows are what one
//! client does with these events in that order.
ghost use Rattle.std.specs.Prelude.{◌≡◌};
ghost use Rattle.client_request.specs.Words.{listed};
ghost use Rattle.client_shared.specs.History.{opening_of};
ghost use Rattle.joint_history.specs.Words.{word_of};

use crate::clients::scenes::script;
use client_core::{cache, redundant};
use client_request::{Error, Events, ListWords};
use client_shared::{ClientKey, NoGate, Opened, Pass, SharedClient, run_lanes};
use dns_script::Script;
use resolv_conf::ResolvConf;
use std::alloc::Global;
use std::marker::Brand;
use std::sync::Wait;
use std::thread::Threads;

/// How many receipts the lanes have, each of which is submitted by a thread of its own.
fn submitted<L: ClientKey + Send + Sync, R: Threads + Wait + Sync>(
    rt: &R,
    alloc: Global,
    shared: &SharedClient<L, ListWords>,
    passes: &mut [Pass<L>],
    lanes: &[Events],
) -> Result<usize, Error> {
    if lanes.len() != passes.len() {
        return Ok(0);
    }
    let receipts = run_lanes(rt, alloc, shared, passes, lanes, &NoGate)?;
    Ok(receipts.len())
}

/// How many entries two callers leave in the journal of a client, and how many receipts they have.
fn shared_by_two<L: ClientKey + Send + Sync, R: Threads + Wait + Sync>(
    rt: &R,
    alloc: Global,
    opened: Opened,
    conf: &ResolvConf,
    redundant: redundant::Config,
    cache: cache::Config,
    words: ListWords,
    lanes: &[Events],
) -> Result<(usize, usize), Error>
    requires table { word_of opened.joint ≡ L.table }
    requires opening { L.opening ≡ opening_of redundant cache conf.now (listed words.items) 2 }
{
    let (shared, mut passes) = SharedClient::<L, ListWords>::new(
        alloc, opened, conf, redundant, cache, words, 2,
    )?;
    let receipts = submitted(rt, alloc, &shared, passes.as_mut_slice(), lanes);
    match shared.close(passes) {
        Ok(closed) => Ok((closed.journal.len(), receipts?)),
        Err(_) => Err(Error::Failed),
    }
}

/// The same for a client of its own, which the call names by the table of its history.
fn shared<R: Threads + Wait + Sync>(rt: &R, alloc: Global) -> Option<(usize, usize)> {
    let opened = Opened::new(alloc).ok()?;
    let Script {
        conf,
        redundant,
        cache,
        transports: _,
        words,
        lanes,
    } = script(alloc)?;
    let words = ListWords::new(words);
    let counts = shared_by_two::<Brand, R>(
        rt,
        alloc,
        opened,
        &conf,
        redundant,
        cache,
        words,
        lanes.as_slice(),
    );
    counts.ok()
}

#[test]
fn two_threads_share_one_client(rt: HostRuntime) {
    assert!(rt; shared(&rt, rt.alloc()) == Some((4, 4)));
}
