//! The first row whose request should have been answered from the cache.

ghost use Rattle.std.specs.Prelude.{◌≡◌, IfOk};
ghost use Rattle.trace_hits.specs.Hits as plain;

use crate::course::Course;
use crate::row::misses_hit;
use client_request::Row;
use client_settings::cache;
use dns_base::NoMemory;
use std::alloc::Global;

/// A row goes by: whether its request should have been answered from the cache, and was not.
fn step(
    alloc: Global,
    cache: &cache::Config,
    course: &mut Course,
    row: &Row,
) -> Result<bool, NoMemory>
    ensures { IfOk result (plain.Steps cache.now row.now course.old course.new) }
{
    course.meet(alloc, &row.event)?;
    let missed = misses_hit(alloc, cache, course, row)?;
    course.put_all(alloc, cache, row.outs.as_slice())?;
    Ok(missed)
}

/// The first row of a right trace, counted from 0, that asks what the cache has, few enough requests and replies later, and is not
/// answered from it, or is handed to a server or marked as stale all the same.
pub fn first_missed_hit(
    alloc: Global,
    cache: &cache::Config,
    rows: &[Row],
) -> Result<Option<u64>, NoMemory>
    ensures { IfOk result (plain.TellsMissedHit cache.now rows.now) }
{
    let mut course = Course::new(alloc);
    for (i, row) in rows.iter().enumerate() {
        if step(alloc, cache, &mut course, row)? {
            return Ok(Some(i as u64));
        }
    }
    Ok(None)
}
