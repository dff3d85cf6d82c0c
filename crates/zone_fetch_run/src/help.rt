//! What the program tells of itself.

ghost use Rattle.std.specs.Prelude.{◌≡◌, ◌⊎◌, IfOk};
ghost use Rattle.std.specs.String.{string_bytes};
ghost use Rattle.command_parts.specs.Ends.{IsSaid};
ghost use Rattle.dns_values.specs.Sink.{IsFlushed, with_octets};
ghost use Rattle.dns_values.specs.Source.{Rose};
ghost use Rattle.zone_fetch_run.specs.Pages.{page_text};
ghost use Rattle.zone_fetch_run.specs.Sentences.{unprinted_sentence};

use crate::explaining::{tell_no_memory, tell_printed};
use command_parts::deliver;
use dns_base::{NoMemory, Sink, Status};
use program_words::{Page, version_line};
use std::alloc::Global;

/// The words and statuses, as they are told to who asks for help.
const HELP: &str = "\
usage: zone_fetch [--text] [--port P] [--most OCTETS] [--from FILE] [--output FILE] ZONE ADDRESS
       zone_fetch [--text] [--most OCTETS] --refresh LIST
       zone_fetch --help | --version

Asks a name server for a zone by stream (AXFR), and prints it, a record a line, sorted, once all of it is there.

  ZONE            the zone's name; the final dot may be left out
  ADDRESS         the server, an address alone, IPv4 or IPv6
  --text          print in the form that name servers load, OWNER TTL CLASS TYPE DATA ; HEX;
                  without it a line is OWNER TTL CLASS TYPE HEX, the class and the type as numbers
  --port P        ask at this port, from 1 to 65535, in place of 53
  --most OCTETS   refuse a zone whose records are reckoned to take more memory, 1000000000 octets without it
  --from FILE     FILE has the zone as it was printed before, in either form: ask for its changes alone (IXFR), and
                  for the whole zone where they do not lead on, which a sentence on standard error says
  --output FILE   put the zone in the place of FILE once it is whole, and print nothing; else FILE is as it was
  --refresh LIST  keep the zones of LIST until a signal ends the program, a line each: ZONE FILE ADDRESS[@PORT] ..;
                  lines that begin with # name none

Options stand before the zone, and the last of each counts.

A zone that is kept is asked for when its SOA says so (REFRESH, and RETRY behind a failure). Its primaries are asked in
turn for their serial, by datagram; where one is greater the changes are fetched, or the whole zone where they do not
lead on or the server fails at them, and put in the place of FILE. Standard error tells which zones are kept, what came
of each primary and what is next, and that a zone has expired (EXPIRE).

Exit status:
  0  the zone was printed whole
  1  FILE has not the zone, or LIST has a wrong line or no zone: the sentence says which line is wrong first, and how
  2  the words are no command
  3  FILE or LIST could not be read
  4  standard output failed, or FILE of --output could not be written
  5  the zone was not fetched, or its serial is not greater than that of FILE
  6  memory ran out, or no random words could be had
  7  a number would pass 64 bits
  9  unchanged: the server's zone has the serial of FILE, and nothing was printed
On each but 0 a sentence on standard error says why.
";

/// What is told.
fn page_text(alloc: Global, page: Page) -> Result<String, NoMemory>
    ensures { IfOk result (λ s. string_bytes s ≡ page_text HELP.now page) }
{
    match page {
        Page::Help => Ok(String::from_str(alloc, HELP)?),
        Page::Version => version_line(alloc, "zone_fetch"),
    }
}

/// Writes the words and statuses, or the release, and answers the exit status: 0, or why it was not written whole, which a sentence to
/// `errors` says.
pub fn tell_page<K: Sink, L: Sink>(
    alloc: Global,
    page: Page,
    sink: &mut K,
    errors: &mut L,
) -> Status
    ensures statuses { (result.0 ≡ 0) ⊎ ((result.0 ≡ 4) ⊎ (result.0 ≡ 6)) }
    ensures done { result.0 ≡ 0 → K.held sink.new ≡ with_octets (page_text HELP.now page) (K.held sink.old) }
    ensures flushed { result.0 ≡ 0 → IsFlushed (K.held sink.new) (K.flushed sink.new) }
    ensures quiet { result.0 ≡ 0 → L.held errors.new ≡ L.held errors.old }
    ensures sink_fault { result.0 ≡ 4 → Rose (K.faults sink.old) (K.faults sink.new) }
{
    match page_text(alloc, page) {
        Ok(text) => {
            let status = deliver(sink, text.as_bytes());
            tell_printed(status, errors)
        }
        Err(NoMemory) => tell_no_memory(errors),
    }
}
