//! What a client that the lanes of a script share makes of it.

ghost use Rattle.std.specs.Prelude.{◌≡◌, IfOk, IfErr, IsErrOf};
ghost use Rattle.client_shared.specs.Lanes.{IsLaneEnd};
ghost use Rattle.dnsq_many.specs.Lanes.{AreMade, MayStop, AreInOctets, opening_for};
ghost use Rattle.joint_history.specs.Words.{word_of};

use crate::short_words::words_are_short;
use client_core::{Settings, all_asked_in_octets, all_in_octets};
use client_request::{Error, ListWords};
use client_shared::{ClientKey, Entry, Journal, NoGate, Opened, SharedClient, run_lanes};
use dns_script::Script;
use proof_shared::legal_histories;
use std::alloc::Global;
use std::marker::Brand;
use std::slice;
use std::sync::Wait;
use std::thread::Threads;

/// What comes in entries, and what they ask, is octets.
fn are_in_octets(entries: &[Entry])
    ensures { AreInOctets entries.now }
{
    for entry in entries {
        let event = slice::from_ref(&entry.event);
        all_asked_in_octets(event);
        all_in_octets(event);
    }
}

/// The journal of a client that the lanes of a script share, each by a thread of its own.
#[tactic(auto, using(crate::proofs::Journals::numbered_length))]
fn journal_by<R: Threads + Wait + Sync, L: ClientKey + Send + Sync>(
    rt: &R,
    alloc: Global,
    opened: Opened,
    script: Script,
) -> Result<Journal, Error>
    requires table { word_of opened.joint ≡ L.table }
    requires opening { L.opening ≡ opening_for script }
    ensures made { IfOk result (λ journal. AreMade script journal) }
    ensures ends { IfErr result IsLaneEnd }
    ensures numbers { IsErrOf result Error.NumbersUsed → MayStop script }
{
    let Script {
        conf,
        redundant,
        cache,
        transports,
        words,
        lanes,
    } = script;
    let settings = Settings {
        redundant,
        cache,
        transports,
    };
    words_are_short(words.as_slice());
    settings.cache.max_validity_is_limited();
    legal_histories();
    let lanes = lanes.into_vec();
    let Ok(callers) = u32::try_from(lanes.len()) else {
        return Err(Error::NoMemory);
    };
    let (shared, mut passes) = SharedClient::<L, ListWords>::with_settings(
        alloc,
        opened,
        &conf,
        settings,
        ListWords::new(words),
        callers,
    )?;
    let result = run_lanes(
        rt,
        alloc,
        &shared,
        passes.as_mut_slice(),
        lanes.as_slice(),
        &NoGate,
    );
    let Ok(closed) = shared.close(passes) else {
        unreachable!()
    };
    are_in_octets(closed.journal.as_slice());
    match result {
        Ok(_) => Ok(closed.journal),
        Err(error) => Err(error),
    }
}

/// The journal of a client that the lanes of a script share, each by a thread of its own.
pub fn journal<R: Threads + Wait + Sync>(
    rt: &R,
    alloc: Global,
    script: Script,
) -> Result<Journal, Error>
    ensures made { IfOk result (λ journal. AreMade script journal) }
    ensures ends { IfErr result IsLaneEnd }
    ensures numbers { IsErrOf result Error.NumbersUsed → MayStop script }
{
    let Ok(opened) = Opened::new(alloc) else {
        return Err(Error::NoMemory);
    };
    journal_by::<R, Brand>(rt, alloc, opened, script)
}
