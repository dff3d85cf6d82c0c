//! What the program tells of itself.

ghost use Rattle.std.specs.Prelude.{◌≡◌, ◌⊎◌, IfOk};
ghost use Rattle.std.specs.String.{string_bytes};
ghost use Rattle.command_parts.specs.Ends.{IsSaid};
ghost use Rattle.dns_values.specs.Sink.{IsFlushed, with_octets};
ghost use Rattle.dns_values.specs.Source.{Rose};
ghost use Rattle.trace_audit_run.specs.Ends.{page_text};
ghost use Rattle.trace_audit_run.specs.Sentences.{unwritten_sentence};

use crate::explaining::{tell_no_memory, tell_written};
use command_parts::deliver;
use dns_base::{NoMemory, Status};
use dns_values::Sink;
use program_words::{Page, version_line};
use std::alloc::Global;

/// The words and statuses, as they are told to who asks for help.
const HELP: &str = "\
usage: trace_audit [--timely | --all] [--explain] SCRIPT TRACE
       trace_audit --help | --version

Says whether a trace is right by its script: `right`, or the first row that is not, and in which clause.

  SCRIPT     a file, a script of one lane, of at most 16777216 octets
  TRACE      a file, a trace, of at most 1073741824 octets
  --timely   tell of a right trace the first row at whose end a request waits past its timeout
  --all      tell that, and else the first row that misses a hit, and else the first that misses an expired answer
  --explain  tell in a second line what is missing at the row that is wrong or not timely

Exit status:
  0  the trace is right
  1  a text is too long, or has a line that is refused
  2  there are not two words behind the options
  3  a file could not be read
  4  standard output failed
  5  the trace is wrong, or, where that is asked, not timely, or misses something
  6  memory ran out
On each but 0 a sentence on standard error says why.
";

/// What is told.
fn page_text(alloc: Global, page: Page) -> Result<String, NoMemory>
    ensures { IfOk result (λ s. string_bytes s ≡ page_text HELP.now page) }
{
    match page {
        Page::Help => Ok(String::from_str(alloc, HELP)?),
        Page::Version => version_line(alloc, "trace_audit"),
    }
}

/// Writes the words and statuses, or the release, and answers the exit status: 0, or why it was not written whole, which a sentence to
/// `errors` says.
pub fn tell_page<K: Sink, L: Sink>(
    alloc: Global,
    page: Page,
    sink: &mut K,
    errors: &mut L,
) -> Status
    ensures statuses { (result.0 ≡ 0) ⊎ ((result.0 ≡ 4) ⊎ (result.0 ≡ 6)) }
    ensures done { result.0 ≡ 0 → K.held sink.new ≡ with_octets (page_text HELP.now page) (K.held sink.old) }
    ensures flushed { result.0 ≡ 0 → IsFlushed (K.held sink.new) (K.flushed sink.new) }
    ensures quiet { result.0 ≡ 0 → L.held errors.new ≡ L.held errors.old }
    ensures sink_fault { result.0 ≡ 4 → Rose (K.faults sink.old) (K.faults sink.new) }
    ensures told { result.0 ≡ 4 → IsSaid unwritten_sentence (L.held errors.old) (L.held errors.new) (L.faults errors.old) (L.faults errors.new) }
{
    match page_text(alloc, page) {
        Ok(text) => {
            let status = deliver(sink, text.as_bytes());
            tell_written(status, errors)
        }
        Err(NoMemory) => tell_no_memory(errors),
    }
}
