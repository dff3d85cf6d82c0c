//! A trace and its script, judged.

ghost use Rattle.std.specs.Prelude.{◌≡◌, ◌↔◌, [], IfOk};
ghost use Rattle.right_trace.specs.Right.{Right};
ghost use Rattle.trace_judge.specs.clauses.Laws.{HaveEvents};
ghost use Rattle.trace_judge.specs.clauses.Verdicts.{IsVerdict};
ghost use Rattle.trace_judge.specs.script.Judged.{conf_of, settings_of};
ghost use Rattle.trace_judge.specs.Verdict.{first_lane, verdict_of};

use crate::judge::Judge;
use crate::rules::Rules;
use crate::verdict::{Clause, Verdict};
use client_request::{Event, Row, Trace};
use dns_base::NoMemory;
use dns_script::Script;
use std::alloc::Global;

/// What is said of rows and of the events of a script.
fn judge_rows(
    alloc: Global,
    rules: &Rules,
    events: &[Event],
    rows: &[Row],
) -> Result<Verdict, NoMemory>
    ensures { IfOk result (λ v. IsVerdict (verdict_of v) rules.now.conf rules.now.settings [] events.now rows.now) }
{
    let mut judge = Judge::new(alloc, rules);
    for (i, row) in rows.iter().enumerate() {
        let Some(event) = events.get(i) else {
            return Ok(Verdict::Wrong {
                clause: Clause::Events,
                row: i as u64,
            });
        };
        if let Some(clause) = judge.judge_row(alloc, rules, event, row)? {
            return Ok(Verdict::Wrong {
                clause,
                row: i as u64,
            });
        }
    }
    if rows.len() < events.len() {
        return Ok(Verdict::Wrong {
            clause: Clause::Events,
            row: rows.len() as u64,
        });
    }
    Ok(Verdict::Right)
}

/// The events of the first lane.
fn first_lane(script: &Script) -> &[Event]
    ensures { result.now ≡ first_lane script.now.lanes }
{
    match script.lanes.as_slice() {
        [] => &[],
        [events, ..] => events.as_slice(),
    }
}

/// What is said of a trace by its script, which has one lane: that it is right, exactly where its events are the script's and the
/// trace is right; or else the least row that is not, counted from 0, and the first clause that fails there.
pub fn audit(alloc: Global, script: &Script, trace: &Trace) -> Result<Verdict, NoMemory>
    ensures verdict { IfOk result (λ v. IsVerdict (verdict_of v) (conf_of script.now.conf script.now.transports) (settings_of script.now.redundant script.now.cache) [] (first_lane script.now.lanes) trace.now.rows) }
    ensures right { IfOk result (λ v. (v ≡ Verdict.Right) ↔ (HaveEvents (first_lane script.now.lanes) trace.now.rows × Right (conf_of script.now.conf script.now.transports) (settings_of script.now.redundant script.now.cache) trace.now.rows)) }
{
    let rules = Rules::of(alloc, script)?;
    judge_rows(alloc, &rules, first_lane(script), trace.rows.as_slice())
}
