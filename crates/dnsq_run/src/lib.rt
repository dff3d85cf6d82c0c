//! What the program `dnsq` does, over a source, a sink and the rest of its world.
//!
//! Status 0 means that the input was a script (or a configuration) of at most 16777216 octets, read to its end, and that
//! the text of its plain trace (or its printing) was written and handed on, a trace that is right and timely; a good input
//! is never refused; each other status has its cause and says what was written; the line of a refusal, of used-up numbers
//! and of words that are no command is written whole and handed on unless the sink fails. `query` is one request of a new
//! client of the configuration, whose servers the edge learned in order: what is written is the first reply in the plain
//! client's rows, right and timely where each word has 64 bits, of what the edge gave, at the clock's moments, turn by
//! turn, and 5 means an error or a million turns without a reply. What `gen N` writes is the summary of the plain trace of
//! the script that is generated for N, which is right and timely; the source is left alone. What was read and written is
//! spoken of for sources and sinks that tell it; the standard streams are trusted for that. By `run_alone`.
//!
//! The program itself, the crate `dnsq`, only makes the real ones and hands them in. Over a source and a
//! sink in memory the whole program is a value that can be tried:
//!
//! ```text
//! let mut source = MemSource::new(script, Vec::new(alloc));
//! let mut sink = MemSink::new(alloc, Vec::new(alloc), Vec::new(alloc));
//! let status = run_alone(alloc, &words, &mut source, &mut sink, &mut edge, &mut clock, &mut random);
//! assert!(status.0 == 0 && sink.as_slice().starts_with(b"trace 1\n"));
//! ```
//!
//! `dnsq` is its `main`, which makes the real streams, and for `query` the real edge, clock and random words; the source is
//! then `/etc/resolv.conf`, and fails at its first read where it can't be opened. `run_alone` over any source, sink, edge,
//! clock and words:
//!
//! - **0** (`done`, `flushed`): for `replay` and `conf`, where the source told its octets: they are a script (or a
//!   configuration) of at most 16777216 octets, read to its end, and the text of its plain trace (or its printing,
//!   finalized) was written, a trace that is right and timely and gives what is kept; and all that the sink holds was
//!   handed on, where it tells that.
//! - **1** (`refused`, `complete`, `line_flushed`): where the source told its octets: they are too long, or line n is the
//!   first that is refused; the line that says so was written whole and handed on, or its first octets and the sink's count
//!   of faults rose. Never for a script (or a configuration) of at most 16777216 octets.
//! - **2** (`usage`, `no_query`, `no_count`, `no_command`, `usage_line`, `line_flushed`): only where the words are no
//!   command, no query and no `gen N`, and there always, but for want of memory; the usage line was written whole and
//!   handed on, or its first octets and the sink's count of faults rose.
//! - **3** (`source_fault`, `silent`): only where the source's count of faults rose; nothing was written.
//! - **4** (`sink_fault`, `cut`): only where the sink's count of faults rose; a write that takes nothing counts. What was
//!   written is the output, or its first octets.
//! - **5** (`query`, `no_reply`): only where the words are a query, and its reply is an error or there was none in a
//!   million turns; the line that says so was written as for status 1.
//! - **6** (`memory`): free: memory ran out. Nothing was written, or the first octets of what is due: the output, or the
//!   line of status 1, 2 or 7.
//! - **7** (`numbers`, `numbers_line`, `stops`, `line_flushed`): the script is of at most 16777216 octets, and its replay
//!   would draw a number past 64 bits; it is then never 0. The line was written and handed on as for status 1.
//!
//! Where the words are a query, `query` says what it ends with, `EndsSo`: at 0, 4 and 5 the configuration is what the
//! source told, finalized and at the query's port, the edge learned its servers in order, and then a new client was asked
//! the one question with recursion desired and answered so (`IsAsked`, which is `IsAnswered` of `client_loop`, from that
//! client), and the line is that of the answer; at 1 it is refused as `conf` refuses it; at 7 the plain client makes no
//! rows of the request and what the edge gave in its polls (`Stops`); at 6 nothing was written, or the first octets of what
//! is due. The rows are right and timely.
//!
//! Where the words are `gen N`, `summarized` says what it ends with, `SummarizesSo`, by 0, 4, 6 or 7 alone: at 0 the
//! summary of the plain trace of `generated N` was written (`IsSummary`), a trace that is right and timely and gives what
//! is kept; at 4 its first octets; at 6 nothing, or the first octets of what is due; at 7 there is no such trace.
//! `source_left` and `source_faults`: the source is as it was.
//!
//! `statuses`: there is no other. So a good input and no fault of source or sink give 0, or 6 or 7. `input_laws` says that
//! an input has one output at most, and is not both taken and refused. `refusal` gives 7 and its line only for
//! `NumbersUsed`, and never 1 or 3. The order is words, source fault, size, first bad line, the run, the sink.
//!
//! # Why it is so
//!
//! - **Words that are not UTF-8** are no command: the usage line and status 2. **The first bad line** is named only of an
//!   input that is short enough.
//! - **`dnsq replay` writes each row as it comes**, so that no trace stands in memory beside its text: its text is a
//!   `TakeRow`, to which `Client::replay_into` hands each row, and is proved to be that of the plain trace, right and
//!   timely (`IsTold`). It is written out only where the whole replay was well, so it stands in memory whole: in the memory
//!   that the script's text had, and in what it grows by. `gen` sums up the rows of `Client::replay`, which are kept.
//! - **A query's source fails at its first read** where `/etc/resolv.conf` can't be opened. Without random words nothing is
//!   asked: `dnsq query` ends with status 6 where the system gives no seed, since ids that can be guessed are worse than no
//!   answer.
#![tactic(auto)]

mod configure;
mod generating;
mod laws;
mod lines;
mod query;
mod query_words;
mod replay;
mod run;
mod telling;
mod usage;

pub use laws::input_laws;
pub use lines::refusal;
pub use run::run_alone;
