//! The command that replays a script.

ghost use Rattle.std.specs.Prelude.{◌≡◌, ◌≢◌, ◌≤◌, [], length, false, Some, IfSome, IfOk, IfErr};
ghost use Rattle.dns_values.specs.Source.{Rose};
ghost use Rattle.dns_script.specs.ScriptReading.{IsScript};
ghost use Rattle.command_parts.specs.Ends.{IsEarly, status_of, line_of};
ghost use Rattle.dnsq_run.specs.Program.{IsReplayed, IsRefused, StopsForNumbers, numbers_line};

use crate::telling::text_of;
use crate::usage::Command;
use command_parts::statuses::{NO_MEMORY, REFUSED, SOURCE_FAULT};
use command_parts::{Ending, refused_line, says};
use dns_script::{Script, ScriptFault, read_script};
use dns_values::{MOST_TEXT, ReadFault, Source, read_to_end};
use std::alloc::Global;

/// The octets of an input, to its end.
#[tactic(auto, using(crate::proofs::Refusals::too_long_line))]
fn input<S: Source>(alloc: Global, source: &mut S) -> Result<Vec<u8>, Ending>
    ensures whole { IfOk result (λ v. IfSome (S.left source.old) (λ text. (v.items ≡ text) × (S.left source.new ≡ Some []))) }
    ensures fits { IfOk result (λ v. length v.items ≤ 16777216) }
    ensures early { IfErr result IsEarly }
    ensures source_fault { IfErr result (λ e. status_of e ≡ 3 → Rose (S.faults source.old) (S.faults source.new)) }
    ensures too_long { IfErr result (λ e. status_of e ≡ 1 → IfSome (S.left source.old) (λ text. IsRefused Command.Replay text (line_of e))) }
    ensures no_numbers { IfErr result (λ e. status_of e ≢ 7) }
{
    match read_to_end(alloc, source, MOST_TEXT) {
        Ok(octets) => Ok(octets),
        Err(ReadFault::Failed) => Err(Ending::Silent(SOURCE_FAULT)),
        Err(ReadFault::TooLong) => Err(says(alloc, REFUSED, "input too long\n")),
        Err(ReadFault::NoMemory) => Err(Ending::Silent(NO_MEMORY)),
    }
}

/// The script that a text is.
fn script_of(alloc: Global, text: &[u8]) -> Result<Script, Ending>
    ensures script { IfOk result (λ script. IsScript false text.now script) }
    ensures early { IfErr result IsEarly }
    ensures refused { IfErr result (λ e. length text.now ≤ 16777216 → status_of e ≡ 1 → IsRefused Command.Replay text.now (line_of e)) }
    ensures no_fault { IfErr result (λ e. (status_of e ≢ 3) × (status_of e ≢ 7)) }
{
    match read_script(alloc, text, false) {
        Ok(script) => Ok(script),
        Err(ScriptFault::Line(line)) => Err(refused_line(alloc, line)),
        Err(ScriptFault::NoMemory) => Err(Ending::Silent(NO_MEMORY)),
    }
}

/// The text of the trace of the script that a source gives.
#[tactic(auto, using(crate::proofs::Refusals::told_refusal))]
pub fn replay<S: Source>(alloc: Global, source: &mut S) -> Result<Vec<u8>, Ending>
    ensures done { IfOk result (λ v. IfSome (S.left source.old) (λ text. IsReplayed text v.items × (S.left source.new ≡ Some []))) }
    ensures early { IfErr result IsEarly }
    ensures source_fault { IfErr result (λ e. status_of e ≡ 3 → Rose (S.faults source.old) (S.faults source.new)) }
    ensures refused { IfErr result (λ e. status_of e ≡ 1 → IfSome (S.left source.old) (λ text. IsRefused Command.Replay text (line_of e))) }
    ensures numbers { IfErr result (λ e. status_of e ≡ 7 → IfSome (S.left source.old) (λ text. StopsForNumbers Command.Replay text)) }
    ensures numbers_line { IfErr result (λ e. status_of e ≡ 7 → line_of e ≡ numbers_line) }
{
    let text = input(alloc, source)?;
    let script = match script_of(alloc, &text) {
        Ok(script) => script,
        Err(ending) => return Err(ending),
    };
    text_of(alloc, script, text)
}
