//! A client that two callers share, from its making to its end.

ghost use Rattle.std.specs.Prelude.{◌≡◌};
ghost use Rattle.client_request.specs.Words.{listed};
ghost use Rattle.client_shared.specs.History.{opening_of};
ghost use Rattle.joint_history.specs.Words.{word_of};

use crate::clients::calls::{has_calls, share};
use crate::clients::crossing::cross;
use crate::clients::scenes::script;
use client_core::{cache, redundant};
use client_request::{Events, ListWords};
use client_shared::{ClientKey, CloseFault, Closed, Opened, Pass, SharedClient};
use dns_script::Script;
use resolv_conf::ResolvConf;
use std::alloc::Global;
use std::marker::Brand;
use std::sync::Wait;
use std::thread::Threads;

/// What the callers do.
#[derive(Clone, Copy)]
enum Scene {
    /// They call in turn.
    Calls,
    /// Each has a thread.
    Lanes,
}

/// The client is closed once its last pass is handed in too.
fn closed_at_last<L: ClientKey>(
    fault: CloseFault<L, ListWords>,
    one: Pass<L>,
) -> Option<Closed<ListWords>> {
    let CloseFault {
        shared,
        mut passes,
        given,
        made,
    } = fault;
    let is_told = passes.push(one).is_ok() && given == 1 && made == 2;
    let closed = shared.close(passes).ok();
    if is_told { closed } else { None }
}

/// Closes a client with one of its two passes, which is refused, and then with both.
fn closed_in_two<L: ClientKey>(
    shared: SharedClient<L, ListWords>,
    mut passes: Vec<Pass<L>>,
) -> Option<Closed<ListWords>> {
    let one = passes.pop()?;
    match shared.close(passes) {
        Ok(_) => None,
        Err(fault) => closed_at_last(fault, one),
    }
}

/// Whether the journal is of the scene.
fn is_of(scene: Scene, closed: &Closed<ListWords>) -> bool {
    let journal = closed.journal.as_slice();
    closed.lost.is_none()
        && match scene {
            Scene::Calls => has_calls(journal),
            Scene::Lanes => journal.len() == 4,
        }
}

/// Whether what is left of a client is of the scene. None where it is not closed as it should be.
fn leaves<L: ClientKey>(
    shared: SharedClient<L, ListWords>,
    passes: Vec<Pass<L>>,
    scene: Scene,
) -> Option<bool> {
    let closed = closed_in_two(shared, passes)?;
    Some(is_of(scene, &closed))
}

/// Whether the callers are told what they should be, and the journal has it. None where memory ran out.
fn played<L: ClientKey + Send + Sync, R: Threads + Wait + Sync>(
    rt: &R,
    alloc: Global,
    opened: Opened,
    conf: &ResolvConf,
    redundant: redundant::Config,
    cache: cache::Config,
    words: ListWords,
    lanes: &[Events],
    scene: Scene,
) -> Option<bool>
    requires table { word_of opened.joint ≡ L.table }
    requires opening { L.opening ≡ opening_of redundant cache conf.now (listed words.items) 2 }
{
    let made = SharedClient::<L, ListWords>::new(alloc, opened, conf, redundant, cache, words, 2);
    let (shared, mut passes) = made.ok()?;
    let told = match scene {
        Scene::Calls => share(rt, alloc, &shared, passes.as_mut_slice(), lanes),
        Scene::Lanes => cross(rt, alloc, &shared, passes.as_mut_slice(), lanes),
    };
    let is_left = leaves(shared, passes, scene)?;
    Some(told? && is_left)
}

fn plays<R: Threads + Wait + Sync>(rt: &R, alloc: Global, scene: Scene) -> Option<bool> {
    let opened = Opened::new(alloc).ok()?;
    let Script {
        conf,
        redundant,
        cache,
        transports: _,
        words,
        lanes,
    } = script(alloc)?;
    played::<Brand, R>(
        rt,
        alloc,
        opened,
        &conf,
        redundant,
        cache,
        ListWords::new(words),
        lanes.as_slice(),
        scene,
    )
}

#[test]
fn two_callers_share_one_history(rt: HostRuntime) {
    assert!(rt; plays(&rt, rt.alloc(), Scene::Calls) == Some(true));
}

#[test]
fn lanes_cross(rt: HostRuntime) {
    assert!(rt; plays(&rt, rt.alloc(), Scene::Lanes) == Some(true));
}

/// It is for `rt try --test --fail-alloc N`, where the Nth allocation fails.
#[test]
fn a_call_behind_a_loss_fails(rt: HostRuntime) {
    assert!(rt; plays(&rt, rt.alloc(), Scene::Calls) != Some(false));
}
