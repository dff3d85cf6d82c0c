//! What the cache of a right trace misses, by its script.

ghost use Rattle.std.specs.Prelude.{◌≡◌, IfOk, None, true, false};
ghost use Rattle.trace_audit_run.specs.Missed as plain;

use client_request::Trace;
use dns_base::NoMemory;
use dns_script::Script;
use std::alloc::Global;
use trace_hits::{first_missed_hit, first_missed_stale};
use trace_judge::Verdict;
use trace_judge::script::conf_of;

/// What a trace misses.
#[derive(Clone, Copy, Debug, Drop)]
pub struct Missed {
    /// The first row whose request should have been answered from the cache.
    pub hit: Option<u64>,
    /// The first row whose request should have been served by what had expired, in it or later.
    pub stale: Option<u64>,
}

/// What a right trace misses, rows counted from 0. Nothing is said of one that is not right by its script.
pub fn audit_hits(alloc: Global, script: &Script, trace: &Trace) -> Result<Missed, NoMemory>
    ensures { IfOk result (plain.TellsMissed script.now trace.now.rows) }
{
    let rows = trace.rows.as_slice();
    let hit = first_missed_hit(alloc, &script.cache, rows)?;
    let conf = conf_of(alloc, &script.conf, &script.transports)?;
    let stale = first_missed_stale(&conf, &script.cache, rows)?;
    Ok(Missed { hit, stale })
}

/// What a trace of this verdict misses, where that is asked and it is right.
pub(crate) fn missed_in(
    alloc: Global,
    asked: bool,
    verdict: Verdict,
    script: &Script,
    trace: &Trace,
) -> Result<Missed, NoMemory>
    ensures asked { asked ≡ true → verdict ≡ Verdict.Right → IfOk result (plain.TellsMissed script.now trace.now.rows) }
    ensures unasked { asked ≡ false → IfOk result (λ m. m ≡ plain.nothing) }
{
    let nothing = Missed {
        hit: None,
        stale: None,
    };
    if !asked {
        return Ok(nothing);
    }
    match verdict {
        Verdict::Right => audit_hits(alloc, script, trace),
        Verdict::Wrong { .. } => Ok(nothing),
    }
}
