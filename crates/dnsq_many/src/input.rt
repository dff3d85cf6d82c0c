//! What a command reads.

ghost use Rattle.std.specs.Prelude.{◌≡◌, ◌≢◌, ◌≤◌, [], length, Some, IfSome, IfOk, IfErr};
ghost use Rattle.dns_values.specs.Source.{Rose};
ghost use Rattle.command_parts.specs.Ends.{IsEarly, status_of, line_of};
ghost use Rattle.dnsq_many.specs.Many.{IsRefused};

use command_parts::statuses::{NO_MEMORY, REFUSED, SOURCE_FAULT};
use command_parts::{Ending, says};
use dns_values::{MOST_TEXT, ReadFault, Source, read_to_end};
use std::alloc::Global;

/// The octets of an input, to its end. It ends with status 1 where there are more than may be, 3 where the source fails, and 6
/// where memory runs out.
#[tactic(auto, using(crate::proofs::Outcomes::too_long_line))]
pub(crate) fn input<S: Source>(alloc: Global, source: &mut S) -> Result<Vec<u8>, Ending>
    ensures whole { IfOk result (λ v. IfSome (S.left source.old) (λ text. (v.items ≡ text) × (S.left source.new ≡ Some []))) }
    ensures fits { IfOk result (λ v. length v.items ≤ 16777216) }
    ensures early { IfErr result IsEarly }
    ensures source_fault { IfErr result (λ e. status_of e ≡ 3 → Rose (S.faults source.old) (S.faults source.new)) }
    ensures too_long { IfErr result (λ e. status_of e ≡ 1 → IfSome (S.left source.old) (λ text. IsRefused text (line_of e))) }
    ensures no_numbers { IfErr result (λ e. status_of e ≢ 7) }
{
    match read_to_end(alloc, source, MOST_TEXT) {
        Ok(octets) => Ok(octets),
        Err(ReadFault::Failed) => Err(Ending::Silent(SOURCE_FAULT)),
        Err(ReadFault::TooLong) => Err(says(alloc, REFUSED, "input too long\n")),
        Err(ReadFault::NoMemory) => Err(Ending::Silent(NO_MEMORY)),
    }
}
