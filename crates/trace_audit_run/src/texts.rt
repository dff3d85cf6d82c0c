//! The texts of a script and of a trace, and what is said of them.

ghost use Rattle.std.specs.Prelude.{◌≡◌, [], None, false, true, IfOk, IfErr, IfSome, MatchResult};
ghost use Rattle.dns_script.specs.ScriptReading.{IsScript};
ghost use Rattle.dns_script.specs.TraceReading.{IsTrace};
ghost use Rattle.trace_judge.specs.script.Judged.{conf_of};
ghost use Rattle.trace_hits.specs.timely.Timely.{IsUntimely};
ghost use Rattle.trace_audit_run.specs.Program as plain;

use crate::explained::explained;
use crate::missed::{Missed, missed_in};
use crate::stop::{Stop, Text};
use crate::timely::audit_timely;
use crate::words::Asked;
use client_request::Trace;
use dns_script::{Script, ScriptFault, read_script, read_trace};
use dns_values::{NoMemory, ReadFault, Source, read_to_end};
use std::alloc::Global;
use trace_judge::{Verdict, audit};

/// The most octets that a script may have.
const MOST_OF_SCRIPT: usize = 16_777_216;

/// The most octets that a trace may have.
const MOST_OF_TRACE: usize = 1_073_741_824;

/// What is said of a trace.
#[derive(Drop)]
pub(crate) struct Answer {
    pub(crate) verdict: Verdict,
    /// The first row that is not timely, where that is asked.
    pub(crate) untimely: Option<u64>,
    /// What it misses, where that is asked and it is right.
    pub(crate) missed: Missed,
    /// What is missing at the row that is told, as a line, where that is asked; else nothing.
    pub(crate) missing: Vec<u8>,
}

/// The octets of a text to its end; none where there are more than so many.
fn octets_of<S: Source>(
    alloc: Global,
    source: &mut S,
    text: Text,
    most: usize,
) -> Result<Option<Vec<u8>>, Stop>
    ensures read { IfOk result (λ o. IfSome (S.left source.old) (λ its. plain.IsRead most its o)) }
    ensures unread { IfErr result (plain.IsUnread text (S.faults source.old) (S.faults source.new)) }
{
    match read_to_end(alloc, source, most) {
        Ok(octets) => Ok(Some(octets)),
        Err(ReadFault::TooLong) => Ok(None),
        Err(ReadFault::Failed) => Err(Stop::Unread(text)),
        Err(ReadFault::NoMemory) => Err(Stop::NoMemory),
    }
}

/// The script of octets that were read.
fn script_in(alloc: Global, text: &[u8]) -> Result<Script, Stop>
    ensures { MatchResult result (λ script. IsScript false text.now script) (plain.RefusesScript text.now) }
{
    match read_script(alloc, text, false) {
        Ok(script) => Ok(script),
        Err(ScriptFault::Line(line)) => Err(Stop::Line(Text::Script, line)),
        Err(ScriptFault::NoMemory) => Err(Stop::NoMemory),
    }
}

/// The trace of octets that were read.
fn trace_in(alloc: Global, text: &[u8]) -> Result<Trace, Stop>
    ensures { MatchResult result (λ trace. IsTrace text.now trace.rows) (plain.RefusesTrace text.now) }
{
    match read_trace(alloc, text) {
        Ok(trace) => Ok(trace),
        Err(ScriptFault::Line(line)) => Err(Stop::Line(Text::Trace, line)),
        Err(ScriptFault::NoMemory) => Err(Stop::NoMemory),
    }
}

/// The first row of a trace that is not timely, where that is asked.
fn untimely_in(
    alloc: Global,
    timely: bool,
    script: &Script,
    trace: &Trace,
) -> Result<Option<u64>, NoMemory>
    ensures asked { timely ≡ true → IfOk result (λ row. IsUntimely row (conf_of script.now.conf script.now.transports) [] trace.now.rows) }
    ensures unasked { timely ≡ false → IfOk result (λ row. row ≡ None) }
{
    if timely {
        audit_timely(alloc, script, trace)
    } else {
        Ok(None)
    }
}

/// What is said of a trace by a script.
fn answered(alloc: Global, asked: Asked, script: &Script, trace: &Trace) -> Result<Answer, NoMemory>
    ensures { IfOk result (plain.IsAnswer asked script.now trace.now.rows) }
{
    let verdict = audit(alloc, script, trace)?;
    let untimely = untimely_in(alloc, asked.timely, script, trace)?;
    let missed = missed_in(alloc, asked.missed, verdict, script, trace)?;
    let rows = trace.rows.as_slice();
    let missing = explained(alloc, asked.explain, verdict, untimely, rows)?;
    Ok(Answer {
        verdict,
        untimely,
        missed,
        missing,
    })
}

/// What is said of a trace whose octets were read, by a script.
fn judged_by(alloc: Global, asked: Asked, script: &Script, trace: &[u8]) -> Result<Answer, Stop>
    ensures { MatchResult result (plain.IsJudged asked script.now trace.now) (plain.RefusesTrace trace.now) }
{
    let trace = match trace_in(alloc, trace) {
        Ok(trace) => trace,
        Err(stop) => return Err(stop),
    };
    Ok(answered(alloc, asked, script, &trace)?)
}

/// What is said of a trace, which may be too long, by a script.
fn judged_in(
    alloc: Global,
    asked: Asked,
    script: &Script,
    trace: &Option<Vec<u8>>,
) -> Result<Answer, Stop>
    ensures answers { plain.JudgesIn asked script.now trace.now result }
    ensures no_fault { IfErr result plain.IsNoFault }
{
    match trace {
        Some(trace) => judged_by(alloc, asked, script, trace),
        None => Err(Stop::Long(Text::Trace)),
    }
}

/// What is said of a trace by a script, each of which may be too long.
fn judged(
    alloc: Global,
    asked: Asked,
    script: &Option<Vec<u8>>,
    trace: &Option<Vec<u8>>,
) -> Result<Answer, Stop>
    ensures answers { plain.Answers asked script.now trace.now result }
    ensures no_fault { IfErr result plain.IsNoFault }
{
    match script {
        Some(text) => match script_in(alloc, text) {
            Ok(script) => judged_in(alloc, asked, &script, trace),
            Err(stop) => Err(stop),
        },
        None => Err(Stop::Long(Text::Script)),
    }
}

/// What is said of the trace that one source gives by the script that another gives. Each is read to its end, or to one octet past its
/// limit, before one of them is judged.
pub(crate) fn judged_texts<S: Source, T: Source>(
    alloc: Global,
    asked: Asked,
    script: &mut S,
    trace: &mut T,
) -> Result<Answer, Stop>
    ensures done { IfOk result (λ v. plain.over S.left T.left script.old trace.old (λ a b. plain.IsAudited asked a b v)) }
    ensures stopped { IfErr result (λ stop. plain.over S.left T.left script.old trace.old (λ a b. plain.IsStop a b stop)) }
    ensures unread { IfErr result (plain.RoseAt (S.faults script.old) (S.faults script.new) (T.faults trace.old) (T.faults trace.new)) }
{
    let script = octets_of(alloc, script, Text::Script, MOST_OF_SCRIPT)?;
    let trace = octets_of(alloc, trace, Text::Trace, MOST_OF_TRACE)?;
    judged(alloc, asked, &script, &trace)
}
