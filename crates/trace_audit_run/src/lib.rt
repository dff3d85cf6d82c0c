//! What the program `trace_audit` does, over two sources and two sinks. What is missing at a row, in words, stands in `missing_line`.
//!
//! What `trace_audit` writes, and with which status it ends: `right` where the texts are a script and a trace that is
//! judged right (and timely where that is asked), the clause and the row where it is judged wrong, the row where it is not
//! timely, behind these what is missing there, if that is asked; the row where a right one misses a hit or an expired
//! answer, where that is asked; the line that is refused. On each status but 0 and 6 the sentence that says why, with the
//! file and what is wrong with it, or the names that are missing or too many, is written whole to the sink of errors and
//! handed on unless that failed; at 0 none is. Not said: that a sentence stands at 6, and what is written before. By
//! `run_audit`, `audit_to`, `audit_timely`, `audit_hits`.
//!
//! The program itself, the crate `trace_audit`, only makes the real ones and hands them in. Over sources and a sink in memory the whole
//! program is a value that can be tried:
//!
//! ```text
//! let mut script = MemSource::new(script, Vec::new(alloc));
//! let mut trace = MemSource::new(trace, Vec::new(alloc));
//! let mut sink = MemSink::new(alloc, Vec::new(alloc), Vec::new(alloc));
//! let mut errors = MemSink::new(alloc, Vec::new(alloc), Vec::new(alloc));
//! let status = audit_to(alloc, &words, &mut script, &mut trace, &mut sink, &mut errors);
//! assert!(status.0 == 0 && sink.as_slice() == b"right\n");
//! ```
//!
//! `run_audit` reads a script of at most 16777216 octets and a trace of at most 1073741824, each to its end or one octet
//! past its limit, and judges the script first.
//!
//! Each status, with its clauses:
//!
//! - **0** (`right`, `done`, `flushed`): both texts were taken and the trace is right, timely under `--timely`, and misses
//!   nothing under `--all`; `right` is written whole, and handed on.
//! - **1** (`refused`): a text is too long, or has a line that is refused; the line says which.
//! - **2** (`usage`, `usage_line`): there are not two words behind the options (`names_among`).
//! - **3** (`source_fault`, `silent`): the count of faults of one source rose; nothing is written.
//! - **4** (`sink_fault`, `cut`): the sink's count rose; the first of `right` may be written.
//! - **5** (`wrong`): both texts were taken and the trace is wrong, or not timely under `--timely`, or misses a hit or an
//!   expired answer under `--all`; the line names the clause and the row, or the row, and behind it stands under
//!   `--explain` what is missing (`explained_if`).
//! - **6**: free: memory ran out.
//!
//! `audit_to` is the same with a sink of errors, and ends as `AuditEnds` says (`ends`, `EndsBySentence`): at 6 memory ran
//! out; at 2 there are not two names; at 1 and 3 it stopped for a cause that the texts have (`IsStop`: this text is too
//! long, or this line of it is refused; `RoseAt`: of this text the count of faults rose); at 5 and 0 this is the answer
//! (`IsAudited`), which at 0 is good; at 4 the sink's count rose. What stands in both sinks then is `TellsBySentence`: the
//! line, and the sentence of that very cause (`usage_sentence`, `stop_sentence`, `answer_sentence`, `unwritten_sentence`),
//! whole unless the sink of errors failed, and handed on (`handed_on`); at 0 no sentence. At 6 nothing is said of a
//! sentence.
#![tactic(auto)]

mod explained;
mod explaining;
mod help;
mod lines;
mod missed;
pub mod missing_line;
mod run;
mod sentences;
mod stop;
mod texts;
mod timely;
mod words;

pub use explaining::tell_no_memory;
pub use help::tell_page;
pub use missed::{Missed, audit_hits};
pub use run::{audit_to, run_audit};
pub use timely::audit_timely;
pub use words::names_among;
