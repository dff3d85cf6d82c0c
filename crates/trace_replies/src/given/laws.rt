//! What is kept is what the definitions say.

ghost use Rattle.trace_replies.specs.given.Earlier.{GoesOn};

/// What is kept of replies is what the definitions of a right trace say, at each point behind rows that are right.
pub fn earlier_replies_go_on()
    ensures { GoesOn }
{}
