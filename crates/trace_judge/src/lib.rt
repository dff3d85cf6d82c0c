//! Whether a trace is right, decided in one pass over its rows.
//!
//! By what a trace is judged stands in `script`; what a verdict says, mathematics alone, in `clauses`.
//!
//! A trace is judged right exactly where its events are its script's and it is right; else the least row that is not is
//! named, and the first clause that fails there. By `audit`.
//!
//! What is known before a row (`Past`) and what is known at a point within it (`Course`) are kept apart: a row's event and its outs go
//! through the latter one by one, and each out is judged where it is put, by both. When the row is done, it is asked what requests,
//! servers and places owe then, and which messages should have been replies. Then the row goes through what was known before it,
//! and the next one is taken. At the first that is not right the pass ends.
//!
//! | Clause | Asked of | By |
//! |---|---|---|
//! | its event | the row | `trace_points::events` |
//! | messages | each reply that is one | `trace_replies::messages`, with what `firsts` there, `trace_errors::owed` and `deferred` tell |
//! | firsts | each reply | `trace_points::questions` |
//! | causes | each reply that is an error, and all together | `trace_errors::deferred`, `trace_replies::views` |
//! | orders | each other out; who waits, places and marks when the row is done | `trace_outs`, its `busy` and `loads` |
//! | prompts | what came in the row | `trace_errors::promptness` |
//!
//! These decide what a right trace is. No client stands below them; `audit` of `trace_judge` gives the verdict.
//!
//! `audit` judges the rows of a trace by a script. What it says is so (`IsVerdict` of `clauses`): all clauses are
//! kept, or this row is the first that does not keep all, and this clause the first that it does not keep. It is `Right`
//! exactly where the rows have the script's events and the trace is right (`right`). The first lane's events count.
//!
//! Behind it stand one pass and two records. `PastKnown` says what is known before a row, `CourseKnown` what is known at a
//! point within one: each table is what the folds of `right_trace` say of the history there. A row's event and its outs are
//! put one by one (`StepsTo`), and of each it is said which clauses it keeps (`IsSaid`): a row may break one early, and
//! what stands behind is judged all the same, since the first clause that fails is asked of all its outs. When the row is
//! done (`IsEnd`), what was known before it goes over it; that needs the row to be right (`BehindRight`), and the pass ends
//! at the first that is not.
#![tactic(auto)]

mod auditing;
mod case;
pub mod clauses;
mod course;
mod failures;
mod judge;
mod outs;
mod past;
mod replies;
mod rules;
pub mod script;
mod tables;
mod verdict;

pub use auditing::audit;
pub use verdict::{Clause, Verdict};
