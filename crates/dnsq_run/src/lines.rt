//! How a command ends that its client refuses.

ghost use Rattle.std.specs.Prelude.{◌≡◌, ◌≢◌};
ghost use Rattle.command_parts.specs.Ends.{IsEarly, status_of, line_of};
ghost use Rattle.dnsq_run.specs.Program.{numbers_line};

use client_request::Error;
use command_parts::statuses::{NO_MEMORY, NUMBERS_USED};
use command_parts::{Ending, says};
use std::alloc::Global;

/// How a command ends of which the client refused a step: with status 7 and a line where its numbers are used up, else with 6.
pub fn refusal(alloc: Global, error: Error) -> Ending
    ensures early { IsEarly result }
    ensures numbers { status_of result ≡ 7 → error ≡ Error.NumbersUsed }
    ensures line { status_of result ≡ 7 → line_of result ≡ numbers_line }
    ensures others { (status_of result ≢ 1) × (status_of result ≢ 3) }
{
    match error {
        Error::NumbersUsed => says(alloc, NUMBERS_USED, "numbers used\n"),
        _ => Ending::Silent(NO_MEMORY),
    }
}
