//! The command whose lanes share one client.

ghost use Rattle.std.specs.Prelude.{◌≡◌, ◌≢◌, ◌≤◌, [], true, length, Some, IfSome, IfOk, IfErr};
ghost use Rattle.dns_values.specs.Source.{Rose};
ghost use Rattle.dns_script.specs.ScriptReading.{IsScript, RefusesLine};
ghost use Rattle.command_parts.specs.Ends.{IsEarly, status_of, line_of};
ghost use Rattle.dnsq_run.specs.Program.{numbers_line};
ghost use Rattle.dnsq_many.specs.Lanes.{MayStop, IsTextOf};
ghost use Rattle.dnsq_many.specs.Many.{IsMade, IsRefused, Stops};

use crate::input::input;
use crate::journal::journal;
use crate::texts::many_text;
use command_parts::statuses::NO_MEMORY;
use command_parts::{Ending, refused_line};
use dns_script::{Script, ScriptFault, read_script};
use dns_values::Source;
use dnsq_run::refusal;
use std::alloc::Global;
use std::sync::Wait;
use std::thread::Threads;

/// The script with lanes that a text is.
fn script_of(alloc: Global, text: &[u8]) -> Result<Script, Ending>
    ensures script { IfOk result (λ script. IsScript true text.now script) }
    ensures early { IfErr result IsEarly }
    ensures refused { IfErr result (λ e. length text.now ≤ 16777216 → status_of e ≡ 1 → IsRefused text.now (line_of e)) }
    ensures no_fault { IfErr result (λ e. (status_of e ≢ 3) × (status_of e ≢ 7)) }
{
    match read_script(alloc, text, true) {
        Ok(script) => Ok(script),
        Err(ScriptFault::Line(line)) => Err(refused_line(alloc, line)),
        Err(ScriptFault::NoMemory) => Err(Ending::Silent(NO_MEMORY)),
    }
}

/// The text of what a client that the lanes of a script share makes of it.
fn text_of<R: Threads + Wait + Sync>(
    rt: &R,
    alloc: Global,
    script: Script,
) -> Result<Vec<u8>, Ending>
    ensures made { IfOk result (λ v. IsTextOf script v.items) }
    ensures early { IfErr result IsEarly }
    ensures numbers { IfErr result (λ e. status_of e ≡ 7 → MayStop script) }
    ensures numbers_line { IfErr result (λ e. status_of e ≡ 7 → line_of e ≡ numbers_line) }
    ensures no_fault { IfErr result (λ e. (status_of e ≢ 3) × (status_of e ≢ 1)) }
{
    match journal(rt, alloc, script) {
        Ok(journal) => match many_text(alloc, journal) {
            Ok(text) => Ok(text),
            Err(_) => Err(Ending::Silent(NO_MEMORY)),
        },
        Err(error) => Err(refusal(alloc, error)),
    }
}

/// The text of what the lanes of the script that a source gives make of one client.
pub fn many<R: Threads + Wait + Sync, S: Source>(
    rt: &R,
    alloc: Global,
    source: &mut S,
) -> Result<Vec<u8>, Ending>
    ensures done { IfOk result (λ v. IfSome (S.left source.old) (λ text. IsMade text v.items × (S.left source.new ≡ Some []))) }
    ensures early { IfErr result IsEarly }
    ensures source_fault { IfErr result (λ e. status_of e ≡ 3 → Rose (S.faults source.old) (S.faults source.new)) }
    ensures refused { IfErr result (λ e. status_of e ≡ 1 → IfSome (S.left source.old) (λ text. IsRefused text (line_of e))) }
    ensures numbers { IfErr result (λ e. status_of e ≡ 7 → IfSome (S.left source.old) (λ text. Stops text)) }
    ensures numbers_line { IfErr result (λ e. status_of e ≡ 7 → line_of e ≡ numbers_line) }
{
    let text = input(alloc, source)?;
    match script_of(alloc, &text) {
        Ok(script) => text_of(rt, alloc, script),
        Err(ending) => Err(ending),
    }
}
