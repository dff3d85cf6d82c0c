//! The first row whose request failed where what has expired should have served it.

ghost use Rattle.std.specs.Prelude.{◌≡◌, IfOk};
ghost use Rattle.cache_rules.specs.Validity.{cached_by};
ghost use Rattle.trace_hits.specs.Stale as plain;

use crate::course::Course;
use crate::failures::Failures;
use crate::serving::misses_stale;
use client_request::Row;
use client_settings::cache;
use dns_base::NoMemory;
use std::alloc::Global;
use trace_errors::promptness::TraceSettings;
use trace_points::questions::TraceConf;

/// The settings of a client with this cache that defers nothing.
fn with_cache(cache: &cache::Config) -> Result<TraceSettings, NoMemory>
    ensures { IfOk result (λ settings. settings ≡ cached_by cache.now) }
{
    let cache = cache.try_clone()?;
    Ok(TraceSettings::new(cache, false, false, false))
}

/// A row goes by: whether its request fails, in it or later, where what has expired should have served it.
fn step(
    alloc: Global,
    cache: &cache::Config,
    failures: &Failures,
    course: &mut Course,
    row: &Row,
) -> Result<bool, NoMemory>
    ensures { IfOk result (plain.Steps cache.now failures.now row.now course.old course.new) }
{
    course.meet(alloc, &row.event)?;
    let missed = misses_stale(alloc, cache, failures, course, row)?;
    course.put_all(alloc, cache, row.outs.as_slice())?;
    Ok(missed)
}

/// The first row of a right trace, counted from 0, that asks what the cache has but had expired, few enough requests and replies
/// later, and whose request fails, in that row or later, by servers, by their messages or by its deadline, while what the cache has
/// may serve.
pub fn first_missed_stale(
    conf: &TraceConf,
    cache: &cache::Config,
    rows: &[Row],
) -> Result<Option<u64>, NoMemory>
    ensures { IfOk result (plain.TellsMissedStale conf.now cache.now rows.now) }
{
    let alloc = conf.alloc();
    let settings = with_cache(cache)?;
    let failures = Failures::of(conf, &settings, rows)?;
    let mut course = Course::new(alloc);
    for (i, row) in rows.iter().enumerate() {
        if step(alloc, cache, &failures, &mut course, row)? {
            return Ok(Some(i as u64));
        }
    }
    Ok(None)
}
