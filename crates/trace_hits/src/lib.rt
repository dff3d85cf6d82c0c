//! What the cache of a right trace owes: whether each request is answered from the cache that must be, and whether what has expired
//! serves where servers fail. Whether a trace is timely stands in `timely`.
//!
//! Of a right trace a row is named exactly where a request should have been answered from the cache, and was not: the first
//! such row; and the first whose request failed, in it or later, where what has expired should have served it. Both are
//! exact, of all settings with that cache, the first of every configuration and the second of the given one; nothing is said
//! of a trace that is not right. By `first_missed_hit`, `first_missed_stale`.
//!
//! A pass over the rows keeps for each question at most one reply: the last fresh one, while each reply to the same question since
//! then was its view, or stale. Of no other reply does a row owe anything: a fresh reply is never a view that is given in the row of
//! its own asking. How many requests and replies came since is told by what was counted up to it. All of this is asked of right
//! traces, in which a message without a mark is fresh exactly where it is not given in the row of its own asking.
//!
//! `first_missed_hit` and `first_missed_stale` (`trace_hits`) name the first row at which `Hits`, and the first at which
//! `ServesStale`, does not hold, and none exactly where all do (`AllHit`, `AllServeStale`). They are asked of right traces
//! (`TellsMissedHit`, `TellsMissedStale`): there a message without a mark is fresh exactly where it is not given in the row
//! of its own asking, so this pass needs no place, no frame and no timer. For each question it keeps at most one reply, the
//! last fresh one, while each reply to that question since then was its view, or stale (`Known`); of any other one a row
//! owes nothing, since a fresh reply is not given in the row of its own asking. What came between is told by what was
//! counted up to that reply. A missed expired answer is named by the row of its asking, though the request may fail in a
//! later row: so when requests fail first is found in a pass before (`Failures`). A request fails by an error of a server or
//! of the deadline; and, in a row behind that of its asking, where no view stands, by a message that fails and is not marked
//! as stale, or by the error of a message without a validity, where none came that does not fail (`FailsBy`). What came is
//! known by what is known before the row and at the reply, so that pass keeps all tables (`Pass`) twice.
//!
//! # Why it is so
//!
//! - **Hits are asked of right traces alone**: in a right one a message without a mark is fresh exactly where it is not
//!   given in the row of its own asking. So what must be hit is told by what requests ask and by views, and by none of the
//!   judge's tables. A missed expired answer is named by the row of its asking, as `AllServeStale` is indexed: the later
//!   row in which the request fails may be known only when the trace has ended.
#![tactic(auto)]

mod course;
mod failing;
mod failures;
mod hits;
mod kept;
mod outs;
mod point;
mod question;
mod replies;
mod row;
mod serving;
mod stale;
pub mod timely;
mod views;

pub use hits::first_missed_hit;
pub use stale::first_missed_stale;
