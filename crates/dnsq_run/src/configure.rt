//! The command that prints a configuration.

ghost use Rattle.std.specs.Prelude.{◌≡◌, ◌≢◌, [], Some, IfSome, IfOk, IfErr};
ghost use Rattle.dns_values.specs.Source.{Rose};
ghost use Rattle.command_parts.specs.Conf.{Configures};
ghost use Rattle.command_parts.specs.Ends.{IsEarly, status_of, line_of};
ghost use Rattle.dnsq_run.specs.Program.{IsConfigured, IsRefused};

use crate::usage::Command;
use command_parts::{Ending, configuration};
use dns_values::Source;
use std::alloc::Global;

/// The printing of the configuration that a source gives, finalized.
pub fn configure<S: Source>(alloc: Global, source: &mut S) -> Result<Vec<u8>, Ending>
    ensures done { IfOk result (λ v. IfSome (S.left source.old) (λ text. IsConfigured text v.items × (S.left source.new ≡ Some []))) }
    ensures early { IfErr result IsEarly }
    ensures source_fault { IfErr result (λ e. status_of e ≡ 3 → Rose (S.faults source.old) (S.faults source.new)) }
    ensures refused { IfErr result (λ e. status_of e ≡ 1 → IfSome (S.left source.old) (λ text. IsRefused Command.Conf text (line_of e))) }
    ensures no_numbers { IfErr result (λ e. status_of e ≢ 7) }
{
    let conf = configuration(alloc, source)?;
    let text = conf.to_string(alloc)?;
    Ok(text.into_bytes())
}
