//! Whether a trace is timely: whether each request has its reply by the first row at or past its timeout. It is asked of any trace,
//! right or not, in one pass over its rows that keeps which requests wait.
//!
//! A row is named exactly where a trace is not timely: the first at whose end a request waits at or past its timeout; right
//! or not, each trace can be asked so; the request that waits longest is found, and where a row is not timely its timeout
//! has passed. By `first_untimely`, `longest_waiting`, `late_requests_are_named`.
//!
//! `audit_timely` names the first row at whose end a request waits at or past its timeout (`IsUntimely`), and none exactly
//! where the trace is `Timely` (`timely`). It needs no right trace, and goes over the rows by itself: it keeps which
//! requests were asked and have no reply, and looks at the one of them that was asked first, since none was asked later
//! than those behind it.
//!
//! `longest_waiting` tells which request waits longest behind rows: it was asked, has no reply, and each
//! other that waits was asked behind it (`IsLongest`); none where none waits. `late_requests_are_named`: at the first row
//! that is not timely this one is at its timeout or past it. So the request that the second line names as late is late.

mod laws;
mod untimely;
mod waiting;

pub use laws::late_requests_are_named;
pub use untimely::{first_untimely, longest_waiting};
