//! What the program `zone_fetch` does, over files, two sinks and the rest of its world.
//!
//! Which words are which command; status 0 means that the zone is what its transfer, as the edge gave it, makes of no zone,
//! or of the one whose text the file has, and that its lines were written whole and handed on, or put in the place of the
//! file that the words name, which no other status does; where a file has a zone, its serial is greater than that one's.
//! Statuses 1, 2, 3, 5 and 9 have their causes: the file's text, the words, the file's source, the transfer (`IsCause`), the
//! serial. Changes are asked for where a file has the zone, and the whole zone over the later edge exactly where they do
//! not lead on (RFC 1995 4). Not said: what was written before status 6 where no file is to be replaced. By `run_fetch`,
//! `fetch_to`, `fetch_for`.
//!
//! The program itself, the crate `zone_fetch`, only makes the real ones and hands them in.
//!
//! ```text
//! let (edge, later) = (SocketEdge::new(rt, alloc), SocketEdge::new(rt, alloc));
//! let means = Means { clock, random, progress: ProgressLine::new(alloc, terminal) };
//! let mut world = FetchWorld { opener, edge, later, means, files };
//! let status = fetch_to(alloc, &words, &mut sink, &mut errors, &mut world);
//! ```
//!
//! `zone_fetch` is the `main` of `fetch_to`, over two sinks, any files, what puts files in the place of others
//! (`Replacing`), two edges, clock and words (`FetchWorld`); no edge was used before. `run_fetch` has one sink, and writes
//! lines to it at 1, 5, 7 and 9 (`line_of`) where `fetch_to` writes a sentence to the second sink and nothing to the first
//! (`FetchEnds` of either). `fetch_for` does the same for a command that no words need say (`CommandEnds`).
//!
//! Each status, with its clauses:
//!
//! - **0** (`ends`): there is a zone (`HasZone`), and its text was put where the words say (`PutsZone`): written whole to
//!   the sink, which handed on all that it holds, where it tells that; or put in the place of the file, whole, while the
//!   sink is as it was. A sentence is written only where changes did not lead on, and says why. What is written is a text of
//!   the zone's records (`IsZoneText`), in numbers, or as `write_text` of `zone_text` has it.
//! - **1** (`ends`): the words name a file, which was read, and what it has is no text of that zone by `zone_text`
//!   (`IsFlawed`): no zone has it (`IsZoneIn`). That is told, with the file, and why (`flaw_text`): the first line that is no
//!   record, or an SOA that is not the zone's one, and what is wrong with it (`HasFlaw`). At each status but 1, 2, 3 and 6
//!   the zone before has the file's text, so that 1 is given exactly there.
//! - **2** (`ends`): the words are no command (`IsCommand`), which names the first that is wrong, or what is missing; so
//!   does the sentence (`refusal_sentence`).
//! - **3** (`ends`, `unread`): the words name a file, and the count of faults of what opens files rose; the sentence has
//!   that file.
//! - **4** (`ends`): there is a zone, and the count of faults rose of the sink, which has the first octets of its text
//!   (`PutsInPart`), or of what replaces files; that is told.
//! - **5** (`ends`): the zone was not fetched, or its serial is not greater (`IsBrought`), and the sentence has the zone, the
//!   server and which fault it was (`left_text`).
//! - **6**: memory ran out; no file is replaced, and where one was to be, the sink is as it was.
//! - **7** (`ends`): numbers are used up, and that is told.
//! - **9** (`ends`): what the server sent is a zone with the serial of the one in the file, or that serial alone.
//!
//! On each status but 0 no file is replaced (`unplaced`). A sentence *is told*: it is written whole to the second sink, or
//! its first octets and that sink's count of faults rose; and it was handed on, or that count rose (`handed_on`).
//!
//! *There is a zone*: the words are a command, the zone before is none, or the one with this name whose records and serial
//! the file's text says (`IsFiled`); and it was brought to what the server has (`IsBrought`). Without a serial the whole zone
//! is asked for. With one its changes are, and what comes of them is a function of that serial and of what came
//! (`course_of_changes`, `course_of_fault`): the zone that they lead to, if it is newer; or the whole zone is asked for over
//! the later edge, where the server refuses changes (or fails at them, where the command has that count, which no words say),
//! has none up to a greater serial, or sends some that do not fit; or the fault. No zone is taken but one with a greater
//! serial (`judged`). Each transfer is `IsFetched` of `zone_transfer` behind the server's address, which the edge learned
//! first.
//!
//! # Why it is so
//!
//! - **An edge serves one fetch**: place 0 is opened once. `zone_fetch` takes two edges, and the later one only where
//!   changes were asked for and don't lead on. The zone before is dropped then, so that there is one zone at a time.
//! - **A zone's serial is looked at first**, and then whether its changes fit: changes that lead back to an older serial end
//!   with `failed serial`, and the whole zone, which would be as old, is not asked for.
//! - **The file beside the one of `--output`** has a random number behind its name, so that two runs don't write to one, and
//!   is made once the zone is there. A run that is killed may leave it. Its mode is that of a new file. **Why a zone was
//!   asked for whole** is said before it is written, so that no want of memory comes between the rename and status 0.
//! - **A zone is read from a file by `zone_of`**, in either form and in any order of its lines, so that what other hands
//!   sorted or edited serves too. A file too long for the memory ends with status 6, as no count of octets makes it wrong.
//! - **How far a transfer is** is told between its turns to a value of a trait without clauses (`Progress`), which has no
//!   part in what becomes of the zone. Whether standard error is a terminal is seen from what `/proc/self/fd/2` links to, a
//!   device below `/dev/pts`; elsewhere nothing is told.
//! - **A line in numbers is written octet by octet** behind those before, and no text is formatted for it; that with
//!   `--text` is. The program's stored run reads a zone from a file and asks at port 1 of this host, where nothing listens.
#![tactic(auto)]

mod command;
mod explaining;
mod fetching;
mod help;
mod leading;
mod lines;
mod progress_line;
mod putting;
mod replacing;
mod run;
mod sentences;
mod stop;
mod taking;
mod world;
mod wrong;

pub use command::{Command, MOST};
pub use explaining::{tell_no_memory, tell_no_random};
pub use help::tell_page;
pub use progress_line::ProgressLine;
pub use replacing::Replacing;
pub use run::{fetch_for, fetch_to, run_fetch};
pub use world::{FetchWorld, Means};
