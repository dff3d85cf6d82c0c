//! A history of notes, which two callers put there.

use joint_history::{Joint, Owned};
use std::alloc::Global;
use std::marker::Brand;

/// A note of a caller.
#[derive(Drop)]
struct Note {
    caller: u64,
}

impl Owned for Note {
    ghost by = { λ note. note.caller };
}

/// Two callers each put a note, and then both have seen both; false where memory runs out.
fn noted(alloc: Global) -> bool {
    let Ok((joint, mut keeper)) = Joint::<Note>::open(alloc) else {
        return false;
    };
    let mut first = joint.caller(&mut keeper);
    let mut second = joint.caller(&mut keeper);
    joint.append::<Brand>(&mut keeper, &mut first, &Note { caller: 0 });
    joint.append::<Brand>(&mut keeper, &mut second, &Note { caller: 1 });
    joint.tell(&mut second, &mut first);
    joint.catch_up(&mut keeper, &mut first);
    true
}

#[test]
fn callers_put_notes(rt: HostRuntime) {
    assert!(rt; noted(rt.alloc()));
}
