//! What the program `dns_lookup` does, over a source, two sinks and the rest of its world.
//!
//! A lookup is the requests of its words, one after another, of a new client of the servers that the words name, or of the
//! configuration as it is found, asked as `resolver_policy` says and with the words' rounds, port, family of addresses,
//! time, streams, payload size and suffixes. Where suffixes are searched for a name, the names that stand for it are asked in its place, up to
//! the first answer but that there is no such name. Status 0, 9, 10 or 11 means that all that was so to be asked was
//! answered with messages in the plain client's rows of what the edge gave, turn by turn, at the clock's moments, and that
//! what is written was handed on; 9, 10 and 11 that data alone was to be written and the first answer without any said no
//! such name, no such data, or another code, and that the sentence of it was told; 4 that the sink failed behind a message;
//! 5 that the last answer was an error, or none in a million turns, and those before it messages; 7 that a number would
//! pass 64 bits in the next request; 2 that the words are refused; 3 that reading the configuration failed or that its text
//! is too long. At 2, 3, 4, 5 and 7 the sentence that says why, with the wrong word or the error's own text, is written
//! whole and handed on unless the sink of errors failed; before anything is asked a line for each note of the configuration
//! is, and at 0 nothing else. Behind the sentence of 5 stand lines of what servers brought, of some places: which places is
//! proved of the edge's calls alone. What is written of a message is only tested. The edge and the clock that watch others
//! do what those do. A lookup that is recorded is the same with the words that were written, and the sink has the record of
//! the first of the rows that its client put out. By `run`, `run_recorded`, `WatchedEdge`, `WatchedClock`.
//!
//! The program itself, the crate `dns_lookup`, only makes the real ones and hands them in; and where the words say `+trace`
//! it walks from the root (`dns_lookup_walk`).
//!
//! ```text
//! let mut edge = WatchedEdge::new(alloc, PassingEdge::new(alloc, SocketEdge::new(rt, alloc)));
//! let mut clock = WatchedClock::new(RealClock::new(rt));
//! let status = run(alloc, &words, &mut conf_file, &mut sink, &mut errors, &mut edge, &mut clock, &mut random);
//! ```
//!
//! `dns_lookup` is the `main` of `run`, over any source, two sinks, edge, clock and words; the edge and the clock are
//! watched (`WatchedEdge`, `WatchedClock`), which do what the edge and the clock below do, and remember from whom octets
//! came last, what each place brought (`news_after`) and the moments of a request.
//!
//! Each status, with its clauses:
//!
//! - **0** (`ends`, `flushed`): the requests of the lookup were asked, with suffixes where these are searched (`tries_of`),
//!   in order, and each was answered with a message; what stands behind one for the same name was asked only where its
//!   answer says NXDOMAIN, and that answer was passed by (`Walks`). None of the others lacks data where these alone were to
//!   be written, and all that the sink holds was handed on, where it tells that. Nothing but notes was written to the sink
//!   of errors.
//! - **9, 10, 11** (`ends`, `flushed`): as at 0, but of the answers that were not passed by and of which data alone was to
//!   be written the first that has none (`Walks`) has the code NXDOMAIN; NOERROR and no record in its answer section; or
//!   another code. The sentence of that was told.
//! - **1** (`statuses`): never.
//! - **2** (`ends`, `usage`, `silent`): only where the words are refused; the sentence that names the wrong one was written
//!   whole to the sink of errors, or its first octets and that sink's count of faults rose. Nothing was written to the
//!   other sink.
//! - **3** (`ends`, `no_conf`, `silent`): only where reading the configuration failed, or its text has more than 16777216
//!   octets; the sentence that says which was told. Nothing was written to the sink.
//! - **4** (`ends`, `sink_fault`): only where the sink's count of faults rose; some first of the requests were asked, and
//!   each answer is a message. That the sink failed was told.
//! - **5** (`ends`): some first of the requests were asked; the last answer is an error, or there was none in a million
//!   turns, and those before it are messages. The sentence with that error's text, or that none came, was told, with a line
//!   behind it for each server whose last place brought no answer of use (`reports_text`), of some places.
//! - **6**: free: memory ran out.
//! - **7** (`ends`): some first of the requests were asked and answered with messages, and the plain client makes no rows
//!   of the next request and some events behind it. That numbers are used up was told.
//!
//! At 0, 4, 5, 7 and from 9 on the lookup is that of the words (`LookupGives`), and the configuration that of the servers
//! that they name, by their addresses with the default options, or what is found in the text that the source told,
//! finalized; as it is asked in practice (`practical`, with the words that come) in as many rounds as the words say, and
//! with their family of addresses, port, time, streams, suffix and count of dots (`IsConfOf`). Where servers are named and
//! suffixes are searched, those of the text are taken, and its count of dots, unless the words say both (`IsBase`). The
//! notes of it were told first. The edge learned its servers in order, and a new client with `practical_choice`, and
//! `practical_transports` with the words' payload size (`client_for`), was asked the requests one after another
//! (`AreAnswered`, which is `IsAnswered` of `client_loop` for each). A sentence *was told* where it was written whole to
//! the sink of errors, or its first octets and that sink's count of faults rose; and it was handed on, or that count rose
//! (`line_flushed`). What is written of a message is only tested.
//!
//! `told_conf` gives that configuration alone, with its notes told, `request_by` the request of a message by flags, and
//! `announced` the settings of transports with the payload size of words: a walk from the root is asked by these, and not
//! by `run`, to which `+trace` says nothing but how a name is asked and written.
//!
//! `run_recorded` does the same and records it: the client draws words of 4096 that come first, all of the lookup
//! (`RecordedEnd`, `AskedEnd`). At each status but 6 and 7 what was handed in as the file has the record of the first of
//! the rows that the client put out for the requests of the lookup (`IsRecordedFor`: the rows of `AreMade`, one request
//! after another, and `HasEnded` of them). At 8 nothing was asked, since nothing can be recorded (`IsRefused` says why),
//! and the sentence with that cause was told; nothing was written to the sink. The sentence of any status but 0 and 6 was
//! handed on, or that count rose (`line_flushed`). 6 comes also where less than a quarter of the words is left.
//!
//! The program's edge is a `PassingEdge` over sockets. Its `poll` gives what came (`gives`), but for a datagram with NOTIMP
//! that answers what was sent at its place: that is a fault of the place (`passed`), until each server that was learned has
//! said so.
//!
//! # Why it is so
//!
//! - **Of a record that ended, `run_recorded` tells by its value alone**: no public clause says that `ended` and `lost` are
//!   the recorder's, so that they are shown by tests (`tests/record_live.py`, faults), as is the line of `tell_ended`.
//! - **How a lookup ends.** Status 1 is never given. The first request without an answer ends it, and the pages before it
//!   stand; it asks for A, then for AAAA records, so that a silent server costs one deadline. That an answer has no data is
//!   told by a status only where data alone is written, since a page says it itself. `+time` is the client's time for a
//!   request, all rounds together.
//! - **Which server answered, and which failed how, is told by the sockets' side.** The server that is told is the one from
//!   which octets came last before the reply, by an edge that watches another one, since no clause of a client says whose
//!   message a reply was. Of each server, by its address, it is the last place that was opened for the request, and how
//!   many were: where it brought nothing, a fault, a datagram without a header or under another id, or one with another
//!   code than NOERROR and NXDOMAIN; where there was no answer at all, also a cut datagram, one that has such a code and
//!   answered nothing, and octets of a stream. Of the lines behind a sentence it is proved that they are of this form, for
//!   some places.
//! - **NOTIMP is put off by an edge**, since no setting of a choice puts it off: `PassingEdge` of `dns_lookup_run` gives a
//!   datagram by which a server says it as a fault of the place. So the next server is asked, as glibc does and dig and
//!   kdig do not. Once every server has said it, the datagram is given as it came. Where some say it and none of the others
//!   answers, the lookup ends without an answer; a stream's message is given as it came.
#![tactic(auto)]

mod asked_conf;
mod asking;
mod asks;
mod conf;
mod help;
mod page;
mod passing_edge;
mod program;
mod recorded;
mod reports;
mod search;
mod settings;
mod telling;
mod watched_clock;
mod watched_edge;

pub use asked_conf::told_conf;
pub use asking::request_by;
pub use help::{page_of, tell_page};
pub use page::{document, query_text};
pub use passing_edge::{Asked, PassingEdge};
pub use program::run;
pub use recorded::{Recorded, run_recorded};
pub use settings::announced;
pub use telling::{tell_lack, tell_no_memory, tell_no_random};
pub use watched_clock::WatchedClock;
pub use watched_edge::{Heard, News, Opened, Tidings, WatchedEdge};
