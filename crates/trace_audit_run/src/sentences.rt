//! The sentences that tell why the program ends by another status than 0.

ghost use Rattle.std.specs.Prelude.{◌≡◌, IfOk, Some};
ghost use Rattle.std.specs.String.{string_bytes};
ghost use Rattle.trace_audit_run.specs.Sentences as spec;

use crate::lines::name_of;
use crate::missed::Missed;
use crate::stop::{Stop, Text};
use crate::texts::Answer;
use dns_base::NoMemory;
use std::alloc::Global;
use std::fmt::{self, Display};
use trace_judge::Verdict;

/// What is told where memory ran out.
pub(crate) const MEMORY: &[u8] = b"trace_audit: memory ran out\n";

/// What is told where the sink failed.
pub(crate) const UNWRITTEN: &[u8] = b"trace_audit: writing to standard output failed\n";

/// The name of this number, or none at all.
fn name_at(names: &[String], at: usize) -> &str
    ensures { result.now ≡ spec.name_at names.now at }
{
    match names.get(at) {
        Some(name) => name.as_str(),
        None => "",
    }
}

/// What is wrong where this name stands behind two.
#[tactic(auto, unfolding(crate::specs::Sentences::more_text))]
fn more_text(alloc: Global, script: &str, trace: &str, more: &str) -> Result<String, NoMemory>
    ensures { IfOk result (λ s. string_bytes s ≡ spec.more_text script.now trace.now more.now) }
{
    Ok(format!(in alloc;
        "{more} stands behind the script {script} and the trace {trace}, where no word may"
    )?)
}

/// What is wrong where this is the only name.
#[tactic(auto, unfolding(crate::specs::Sentences::none_text))]
fn none_text(alloc: Global, script: &str) -> Result<String, NoMemory>
    ensures { IfOk result (λ s. string_bytes s ≡ spec.none_text script.now) }
{
    Ok(format!(in alloc; "no trace is named behind the script {script}")?)
}

/// What is wrong with names of which this is the first, and these stand behind it.
fn behind_script(alloc: Global, script: &str, names: &[String]) -> Result<String, NoMemory>
    ensures { IfOk result (λ s. string_bytes s ≡ spec.behind_script script.now names.now) }
{
    match names {
        [] => none_text(alloc, script),
        [trace, rest @ ..] => more_text(alloc, script, trace.as_str(), name_at(rest, 0)),
    }
}

/// What is wrong with names that are not two.
fn usage_text(alloc: Global, names: &[String]) -> Result<String, NoMemory>
    ensures { IfOk result (λ s. string_bytes s ≡ spec.usage_text names.now) }
{
    match names {
        [] => Ok(String::from_str(alloc, "no script is named")?),
        [script, rest @ ..] => behind_script(alloc, script.as_str(), rest),
    }
}

/// The sentence that tells why words name no script and trace.
pub(crate) fn usage_sentence(alloc: Global, names: &[String]) -> Result<String, NoMemory>
    ensures { IfOk result (λ s. string_bytes s ≡ spec.usage_sentence names.now) }
{
    let text = usage_text(alloc, names)?;
    Ok(format!(in alloc; "trace_audit: {text}; see trace_audit --help\n")?)
}

impl Display for Stop {
    ghost output = { λ stop. Some (spec.stop_text stop) };

    fn fmt<W: fmt::Write>(&self, f: &mut fmt::Formatter<W>) -> fmt::Result {
        match self {
            Stop::Long(Text::Script) => f.write_str("longer than 16777216 octets"),
            Stop::Long(Text::Trace) => f.write_str("longer than 1073741824 octets"),
            Stop::Line(_, line) => write!(f, "line {line} refused"),
            Stop::Unread(_) => f.write_str("could not be read"),
            Stop::NoMemory => f.write_str("memory ran out"),
        }
    }
}

/// The name of the text at which it stopped, or none at all.
fn name_of_stop(names: &[String], stop: Stop) -> &str
    ensures { result.now ≡ spec.name_of_stop names.now stop }
{
    match stop {
        Stop::Long(Text::Script) | Stop::Line(Text::Script, _) | Stop::Unread(Text::Script) => {
            name_at(names, 0)
        }
        Stop::Long(Text::Trace) | Stop::Line(Text::Trace, _) | Stop::Unread(Text::Trace) => {
            name_at(names, 1)
        }
        Stop::NoMemory => "",
    }
}

/// The sentence that tells why nothing is said of the trace: which file, and what of it.
pub(crate) fn stop_sentence(alloc: Global, names: &[String], stop: Stop) -> Result<String, NoMemory>
    ensures { IfOk result (λ s. string_bytes s ≡ spec.stop_sentence names.now stop) }
{
    let name = name_of_stop(names, stop);
    Ok(format!(in alloc; "trace_audit: {name}: {stop}\n")?)
}

/// What is said of a trace.
#[derive(Clone, Copy)]
struct Told {
    verdict: Verdict,
    untimely: Option<u64>,
    missed: Missed,
}

impl Display for Told {
    ghost output = { λ told. Some (spec.told_text told.verdict told.untimely told.missed) };

    fn fmt<W: fmt::Write>(&self, f: &mut fmt::Formatter<W>) -> fmt::Result {
        match (
            self.verdict,
            self.untimely,
            self.missed.hit,
            self.missed.stale,
        ) {
            (Verdict::Wrong { clause, row }, _, _, _) => {
                let name = name_of(clause);
                write!(f, "wrong {name} row {row}")
            }
            (Verdict::Right, Some(row), _, _) => write!(f, "untimely row {row}"),
            (Verdict::Right, None, Some(row), _) => write!(f, "missed hit row {row}"),
            (Verdict::Right, None, None, Some(row)) => write!(f, "missed stale row {row}"),
            (Verdict::Right, None, None, None) => f.write_str("right"),
        }
    }
}

/// The sentence that tells what is said of the trace in the file of this name.
pub(crate) fn answer_sentence(
    alloc: Global,
    names: &[String],
    answer: &Answer,
) -> Result<String, NoMemory>
    ensures { IfOk result (λ s. string_bytes s ≡ spec.answer_sentence names.now answer.now) }
{
    let name = name_at(names, 1);
    let told = Told {
        verdict: answer.verdict,
        untimely: answer.untimely,
        missed: answer.missed,
    };
    Ok(format!(in alloc; "trace_audit: {name}: {told}\n")?)
}
