//! What is said of a trace.

/// What may be wrong at a row, in the order in which it is asked.
#[derive(Clone, Copy, Debug, PartialEq, Eq)]
pub enum Clause {
    /// The row's event is not the script's; or there is no row for an event, or no event for a row.
    Events,
    /// A reply that is a message is not right.
    Messages,
    /// A reply is to a request that was not asked, or has one.
    Firsts,
    /// An error has no cause.
    Causes,
    /// Another out is not right where it is put; or what waits when the row is done is not busy, a server has too many places or too
    /// few, or a mark stands alone.
    Orders,
    /// A final message that came is not the reply.
    Prompts,
}

/// What is said of a trace.
#[derive(Clone, Copy, Debug, PartialEq, Eq)]
pub enum Verdict {
    /// Its events are the script's, and it is right.
    Right,
    /// The first row at which a clause fails, counted from 0, and the first that fails there.
    Wrong { clause: Clause, row: u64 },
}
