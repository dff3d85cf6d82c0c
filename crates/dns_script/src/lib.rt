//! Scripts and traces as text.
//!
//! A script is read exactly by its grammar, with the first bad line (every event of a trace, but for faults that the client
//! finds itself); a trace is read of exactly the text that is printed of it; a generated script is exactly the events,
//! words and octets of its definition, and a summary exactly the counts of a trace. By `read_script`, `trace_text`,
//! `read_trace`, `text_laws`, `generate`, `summary_text`.
//!
//! A script says what happens to a client, and a trace what the client then put out. A trace is printed
//! as a text that is read back as that trace, and no other text is read. What replays a script is left to
//! others.
//!
//! ```text
//! let script = read_script(alloc, text, false)?;
//! let trace = replay(script)?; // by a client
//! let printed = trace_text(alloc, &trace)?;
//! let same = read_trace(alloc, &printed)?;
//! ```
//!
//! - A script is read exactly (`ReadsScript`): `Ok` where the lines are taken one after another, `Line(n)` where the n-th
//!   is the first that is not, or where none is left and a lane is missing. It has each event of a trace, but that a fault
//!   is one that a socket tells (`tells_well`). Before the events it has lines of a configuration, as `parse_line` takes
//!   them (`TakesConf`), and settings of the choice among servers and of the cache, cut into their limits (`TakesSet`).
//! - `trace_text` prints `trace_text_of` the rows, and the text is the trace of these rows (`IsTrace`), for every trace.
//!   `begin_trace`, `push_row` and `end_trace` write the same row by row: the first line, a row's lines behind what stands,
//!   the last line. `read_trace` reads exactly `IsTrace` (`ReadsTrace`): what is read is printed as the same text, and what
//!   was printed is read back as the same rows.
//! - `text_laws`, `script_laws`: a text is a trace exactly where it is the text of rows in range (`AreRows`), and of these
//!   alone; a text is one script at most; a trace or a script is not refused, and any other text is refused at one line.
//! - `generate` makes exactly the script of its definition (`generated`), for 1 to 1000; `summary_text` writes exactly the
//!   counts of a trace (`summary_text_of`).
//!
//! # Why it is so
//!
//! - **`conf` lines of a script** are lines of a configuration as they stand behind `conf `, so a comment and a line
//!   without words set nothing, and blanks are those of the configuration's own grammar. A `set` line has single blanks.
//! - **Fault words.** `recv-failed 1 expired` is read in a trace and refused in a script, and so are `short-send`,
//!   `nothing-taken` and `end-of-data`: a script tells what a socket tells, and these the client finds itself. The line of
//!   a reply is what a trace tells of it behind `> `: `push_reply` of `dns_script` writes both.
//! - **A summary counts with 64 bits**; a count that would pass them is want of memory, since no memory holds such a trace.
#![tactic(auto)]

mod bounds;
mod generating;
mod hosts;
mod laws;
mod line;
mod names;
mod printing;
mod reading;
mod scan;
mod script;
mod script_lines;
mod settings;
mod summary;
mod told;
mod trace_lines;
mod words;

pub use generating::generate;
pub use laws::{script_laws, text_laws};
pub use line::number_of;
pub use printing::{
    begin_trace, end_trace, has_stale, push_reply, push_row, set_first_line, trace_text,
};
pub use script::{Lanes, Script, ScriptFault};
pub use script_lines::read_script;
pub use summary::summary_text;
pub use trace_lines::read_trace;
