//! What is said of the rows of a trace: that they are right, or the least row that isn't and the first clause that fails there.
//!
//! Mathematics alone: all clauses are kept exactly where the rows have the script's events and the trace is right; no two
//! verdicts are so of one trace. By `verdicts_are_right`, `one_verdict_is_so`.
//!
//! A verdict (`IsVerdict`) says `Right` where each event of the script has its row and each row its event, and each row
//! keeps all clauses (`AllKept`), or names the least row that does not and the first clause that it does not keep
//! (`FailsAt`); a row without an event, or an event without a row, breaks the clause on events. `verdicts_are_right` says
//! that all is kept exactly where the rows have the script's events and `Right` holds, and `one_verdict_is_so` that no two
//! verdicts are so. `audit` decides them. `is_same_event` compares events part by part (`TellsSame`), and `conf_of` and
//! `settings_of` make of a script what a trace is judged by.

mod laws;

pub use laws::{one_verdict_is_so, verdicts_are_right};
