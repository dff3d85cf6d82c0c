//! What is missing at a row of a trace that is not right, or not timely, in a line that an operator reads: what happened there, which
//! requests, places and servers may be wrong, and what each clause asks of them. It is told of the trace's rows and of the clause alone,
//! and judges nothing anew.
//!
//! What is said to be missing at a row is exactly that text of the clause, the row's number and the rows. By
//! `push_missing`, `push_late`.
//!
//! `push_missing` and `push_late` add exactly the line that the definitions make of the clause, the
//! row's number and the trace's rows (`missing`, `late`). What the clauses ask is told there, not decided: the line is of
//! use behind a verdict of `audit` or a row of `audit_timely`.
//!
//! # Why it is so
//!
//! - **What is missing at a row is told, and not found** (`trace_audit --explain`). The judge says which clause fails
//!   there, and not at which out; a walk that finds the out would be a second judge. The sentence is a function of clause,
//!   number and rows, and that is proved; that it helps is for its reader to say.

mod happenings;
mod missing;
mod outs;
mod places;
mod texts;

pub use missing::{push_late, push_missing};
