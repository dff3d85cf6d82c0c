//! The first row at whose end a request waits past its timeout.

ghost use Rattle.std.specs.Prelude.{◌≡◌, IfOk};
ghost use Rattle.trace_hits.specs.timely.Longest.{IsLongest, longest};
ghost use Rattle.trace_hits.specs.timely.Timely as plain;
ghost use Rattle.trace_hits.specs.timely.Waiting as waiting;

use crate::timely::waiting::Waiting;
use client_request::Row;
use dns_base::{Duration, NoMemory};
use std::alloc::Global;

/// The first of some rows behind which not all requests that wait are in time.
fn find(alloc: Global, timeout: Duration, rows: &[Row]) -> Result<Option<u64>, NoMemory>
    ensures { IfOk result (λ row. row ≡ plain.first_late timeout 0 rows.now waiting.nothing) }
{
    let mut waiting = Waiting::new(alloc);
    for (i, row) in rows.iter().enumerate() {
        waiting.take(alloc, row)?;
        if !waiting.is_in_time(timeout) {
            return Ok(Some(i as u64));
        }
    }
    Ok(None)
}

/// The first of some rows, counted from 0, at whose end a request that waits is at its timeout or past it.
#[tactic(auto, using(crate::proofs::lemmas::timely::Rows::untimely))]
pub fn first_untimely(
    alloc: Global,
    timeout: Duration,
    rows: &[Row],
) -> Result<Option<u64>, NoMemory>
    ensures { IfOk result (plain.TellsUntimely timeout rows.now) }
{
    find(alloc, timeout, rows)
}

/// The first request that waits once rows have gone by.
fn first_behind(alloc: Global, rows: &[Row]) -> Result<Option<u64>, NoMemory>
    ensures { IfOk result (λ request. request ≡ longest rows.now) }
{
    let mut waiting = Waiting::new(alloc);
    waiting.take_all(alloc, rows)?;
    Ok(waiting.first())
}

/// The request that waits longest behind some rows: of those that were asked and have no reply, that which was asked first.
#[tactic(auto, using(crate::proofs::lemmas::timely::Longest::waits_longest))]
pub fn longest_waiting(alloc: Global, rows: &[Row]) -> Result<Option<u64>, NoMemory>
    ensures value { IfOk result (λ request. request ≡ longest rows.now) }
    ensures waits { IfOk result (IsLongest rows.now) }
{
    first_behind(alloc, rows)
}
