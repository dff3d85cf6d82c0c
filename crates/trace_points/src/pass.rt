//! What is known at each point of a trace: one record of tables that events and outs go through, within a row or row by row.
//!
//! What is known goes on over events, outs and rows. By `Pass`, `passes_go_on`.
//!
//! `Pass` has all of it, and goes row by row: `Pass::new` knows nothing, and `meet`, `put`, `put_all` and `take` each leave
//! what their definition says. `passes_go_on` says that what is known goes on over events, outs and rows where the rows
//! before are right. A time is compared in 128 bits, so no moment passes a limit.

mod laws;
mod pass;

pub use laws::passes_go_on;
pub use pass::Pass;
