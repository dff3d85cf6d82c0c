//! What the program tells of itself.

ghost use Rattle.std.specs.Prelude.{◌≡◌, ◌⊎◌, IfOk};
ghost use Rattle.std.specs.String.{string_bytes};
ghost use Rattle.dns_values.specs.Sink.{IsFlushed, with_octets};
ghost use Rattle.dns_values.specs.Source.{Rose};
ghost use Rattle.dns_lookup_run.specs.Pages.{letter_page, page_of, page_text};

use crate::program::write_page;
use crate::telling::tell_no_memory;
use command_parts::statuses;
use dns_base::{NoMemory, Status};
use dns_values::Sink;
use program_words::{Page, page_asked, version_line};
use std::alloc::Global;

/// The words and statuses, as they are told to who asks for help.
const HELP: &str = "\
usage: dns_lookup [--record FILE] [@SERVER ..] [-p PORT] [-4 | -6] [+OPTION ..] QUERY ..
       dns_lookup --help | -h | --version | -v | -V
       QUERY: (-x ADDRESS | [-q] NAME) [[-c] CLASS] [[-t] TYPE] [+OPTION ..]

Asks servers for the records of names, and writes what they answer. The words are those of dig, in any order; one that dig has and that
stands not here is refused by a sentence that says what is not there.

Servers:
  --record FILE   write what the client saw as a script that replays; it stands first
  @SERVER         ask this server: an address, IPv4 or IPv6, in brackets or not, or a name, whose addresses are asked for first. Several
                  are asked one after another where one does not serve, and without one those of /etc/resolv.conf are. Behind # may
                  stand the port of all
  -p PORT         ask every server at this port, from 1 to 65535
  -4, -6          ask at addresses of IPv4 alone, or of IPv6
  +tcp, +vc       ask by streams alone
  +time=SECONDS   give a request so long, from 0 to 600, and 0 as 1; +timeout=SECONDS is the same
  +tries=COUNT    ask the servers in so many rounds, from 0 to 5, and 0 as 1; +time is the time of all of them
  +bufsize=OCTETS announce this payload size, from 0 to 65535, and read as many octets of an answer at least; +bufsize the usual, 1232
  +noedns         announce none; by streams a request has an OPT record all the same, and so has one with +dnssec, +nsid or +expire

What is asked:
  NAME            the name; the final dot may be left out
  -q NAME         ask for this name, whatever it looks like
  -x ADDRESS      ask for the names of an address; of one of IPv4 the last numbers may be left out
  -t TYPE         a type by its name, in any case, or TYPE123, and not AXFR; without one A and then AAAA. Behind it no word alone is one
  -c CLASS        the class: IN, CH or HS
  CLASS, TYPE     the same; a name that looks like one needs -q or a final dot
  --              no word behind it is an option
  -f FILE         ask what the words of a file say too, which stand behind all others
  +search         ask for a name with the suffixes of /etc/resolv.conf too, up to the first answer but that there is no such name: for one
                  with as many dots as ndots says there as it stands first, for any other last, and for one with a final dot as it stands
  +domain=NAME    search this suffix alone
  +ndots=COUNT    the dots of a name that is asked for as it stands first, from 0 to 65535
  +norec          ask the server for what it has itself
  +dnssec, +do    set DO, so that signatures come too
  +cdflag, +cd    set CD, so that what was not validated comes too
  +adflag, +ad    set AD, so that the server says if an answer is authentic
  +nsid           ask the server for its name
  +expire         ask it when its copy of the zone expires
  +aaflag, +tcflag, +raflag, +zflag   set these bits of the header, which no query needs
  +trace          ask for each name from the root down, at the servers of each zone, and write what each says; the servers that are named
                  are asked for those of the root, and for the addresses of those that have none beside them. Behind --record it is refused

What is written:
  +short          the data of the answer section alone, a line for each record; where there is none the status says why
  +identify       with +short, the server and the time behind each line
  +json           the message alone, as an object of JSON on a line (RFC 8427)
  +yaml           the message alone, as a document of YAML in dig's form without moments
  +multiline      long records on several lines
  +nottlid, +noclass   records without how long they may be kept, or without the class
  +ttlunits       that time in weeks, days, hours, minutes and seconds
  +expandaaaa     addresses of IPv6 with all their digits
  +qr             the request before the answer
  +noall          no section, comment or statistics; behind it +answer and the like turn one on again
  +question, +answer, +authority, +additional   these sections, or with no behind the plus not
  +comments       the header, the OPT record and the titles of sections
  +stats          who answered, in which time, and which servers gave no answer of use
Of options dig's first letters are enough, in any case; no behind the plus turns one off. Of those whose state is always the same that state
is taken, as +nocmd and +nocookie.

Of several names what is said before the first is said of all of them, and what stands behind one is said of that one; but servers, +tcp,
+time, +tries, +bufsize, +edns, +search, +domain, +ndots and +trace are those of all names, and servers stand before a second one. The
first request without an answer ends it.

Exit status:
  0   each answer was written whole, whatever its response code
  2   the words are no lookup, or a walk that was to be recorded
  3   the configuration, or the file of -f, could not be read, or is too long
  4   standard output failed
  5   no answer: an error, or none in time, or each server of a step of a walk failed
  6   memory ran out, no random words could be had, or few words of a record are left
  7   a number would pass 64 bits
  8   with --record: nothing can be recorded, so nothing was asked
  9   with +short: there is no such name
  10  with +short: the name is there, and has no such records
  11  with +short: the server said that it does not serve
On each but 0 a sentence on standard error says why.
";

/// What a word asks for that has one letter.
#[tactic(auto, unfolding(crate::specs::Pages::letter_page))]
fn letter_page(word: &str) -> Option<Page>
    ensures { result ≡ letter_page word.now }
{
    match word {
        "-h" => Some(Page::Help),
        "-v" => Some(Page::Version),
        "-V" => Some(Page::Version),
        _ => None,
    }
}

/// What the words ask the program to tell of itself: `--help`, `-h`, `--version`, `-v` or `-V`, alone.
pub fn page_of(words: &[String]) -> Option<Page>
    ensures { result ≡ page_of words.now }
{
    match page_asked(words) {
        Some(page) => Some(page),
        None => match words {
            [word] => letter_page(word.as_str()),
            _ => None,
        },
    }
}

/// What is told.
fn page_text(alloc: Global, page: Page) -> Result<String, NoMemory>
    ensures { IfOk result (λ s. string_bytes s ≡ page_text HELP.now page) }
{
    match page {
        Page::Help => Ok(String::from_str(alloc, HELP)?),
        Page::Version => version_line(alloc, "dns_lookup"),
    }
}

/// Writes the words and statuses, or the release, and answers the exit status: 0, or why it was not written whole, which a sentence to
/// `errors` says.
pub fn tell_page<K: Sink, L: Sink>(
    alloc: Global,
    page: Page,
    sink: &mut K,
    errors: &mut L,
) -> Status
    ensures statuses { (result.0 ≡ 0) ⊎ ((result.0 ≡ 4) ⊎ (result.0 ≡ 6)) }
    ensures done { result.0 ≡ 0 → K.held sink.new ≡ with_octets (page_text HELP.now page) (K.held sink.old) }
    ensures flushed { result.0 ≡ 0 → IsFlushed (K.held sink.new) (K.flushed sink.new) }
    ensures quiet { result.0 ≡ 0 → L.held errors.new ≡ L.held errors.old }
    ensures sink_fault { result.0 ≡ 4 → Rose (K.faults sink.old) (K.faults sink.new) }
{
    match page_text(alloc, page) {
        Ok(text) => {
            let status = write_page(text.as_bytes(), sink, errors);
            if status == statuses::NO_MEMORY {
                return tell_no_memory(errors);
            }
            status
        }
        Err(NoMemory) => tell_no_memory(errors),
    }
}
