//! What the program `dnsq` does, with the command whose lanes share one client, each by a thread of its own.
//!
//! `many`: status 0 means that the input was a script with lanes of at most 16777216 octets, read to its end, and that the
//! text of a journal was written and handed on in which each lane's events stand in their order, each once, and nothing
//! else, whose rows are the plain trace of its events under the script's settings and words, right and timely, and whose
//! words are the script's first; each other status has its cause; used-up numbers come only where some order of the lanes'
//! events stops for one. All else is `dnsq_run`'s, clause by clause. By `run`, `many_text`.
//!
//! Every other command is `dnsq_run`'s, which starts no thread.
//!
//! `run` does what `run_alone` does, clause by clause, but where the words are `many` alone (`is_many`). It may wait, since
//! each lane is submitted by a thread of its own that waits for the others' calls. `dnsq`'s `main` calls it for every
//! command but `query`. What it ends with for `many` is the clause `many`, `EndsSo`:
//!
//! - **0** (`many`, `flushed`): where the source told its octets: they are a script with lanes of at most 16777216 octets,
//!   read to its end, and the text of a journal was written that the lanes made (`IsMade`): each lane's events in their
//!   order, each once, and nothing else; the rows are the plain trace of these events under what the script says, right and
//!   timely, give what is kept, and serve what has expired; the words drawn are the script's first ones.
//! - **1** (`many`, `line_flushed`): where the source told its octets: they are too long, or line n is the first that is
//!   refused, or the line behind the last where there is no lane; the line that says so was said. Never for a script with
//!   lanes of at most 16777216 octets.
//! - **3, 4** (`source_fault`, `silent`, `sink_fault`, `many`): as of `run_alone`; at 4 what was written is such a text, or
//!   its first octets.
//! - **6** (`many`): free: memory ran out, in a lane or outside. Nothing was written, or the first octets of what is due.
//! - **7** (`many`, `numbers_line`, `line_flushed`): only where some order of the lanes' events stops for a number
//!   (`Stops`). The line was said.
//!
//! 2 and 5 never come. `many_text` of a journal is exactly `many_text_of`.
//!
//! # Why it is so
//!
//! - **The command `many` is a crate of its own**, `dnsq_many`, above `dnsq_run`: what starts no thread takes no leave to
//!   wait. It stops for numbers where some order of its lanes does, since which is let through is not known beforehand. The
//!   journal is let go entry by entry while it is printed. Its first line is `many 2` exactly where a line `> stale`
//!   stands, as `trace 2`, so that a reader of before is not misled.
#![tactic(auto)]

mod input;
mod journal;
mod many;
mod program;
mod short_words;
mod texts;

pub use client_shared::{Gate, NoGate, run_lanes};
pub use program::run;
pub use texts::many_text;
