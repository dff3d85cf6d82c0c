//! Lanes that really run beside each other.

use client_request::{Events, ListWords};
use client_shared::{ClientKey, Gate, Pass, Receipt, SharedClient, run_lanes};
use std::alloc::Global;
use std::sync::Wait;
use std::sync::atomic::{AtomicU64, Ordering};
use std::thread::Threads;

/// How often a lane looks whether the other one came.
const TURNS: u32 = 1_000_000_000;

/// Holds the second call of each of two lanes until both have come to it.
#[derive(Drop)]
struct Crossing {
    came: AtomicU64,
    missed: AtomicU64,
}

impl Gate for Crossing {
    fn before(&self, _lane: u32, index: u32) {
        if index != 1 {
            return;
        }
        self.came.fetch_add(1, Ordering::SeqCst);
        for _ in 0..TURNS {
            if self.came.load(Ordering::SeqCst) >= 2 {
                return;
            }
        }
        self.missed.fetch_add(1, Ordering::SeqCst);
    }
}

/// Whether the receipts stand by lane and within it by event, by their moments.
fn are_in_order(receipts: &[Receipt]) -> bool {
    match receipts {
        [a, b, c, d] => {
            a.event.moment.0 == 0
                && b.event.moment.0 == 20
                && c.event.moment.0 == 10
                && d.event.moment.0 == 30
        }
        _ => false,
    }
}

/// Whether each of two lanes comes to its second call while the other one is held there.
pub fn cross<L: ClientKey + Send + Sync, R: Threads + Wait + Sync>(
    rt: &R,
    alloc: Global,
    shared: &SharedClient<L, ListWords>,
    passes: &mut [Pass<L>],
    lanes: &[Events],
) -> Option<bool> {
    if lanes.len() != passes.len() {
        return Some(false);
    }
    let gate = Crossing {
        came: AtomicU64::new(0),
        missed: AtomicU64::new(0),
    };
    match run_lanes(rt, alloc, shared, passes, lanes, &gate) {
        Ok(receipts) => Some(
            gate.missed.load(Ordering::SeqCst) == 0 && are_in_order(receipts.as_slice()),
        ),
        Err(_) => None,
    }
}
