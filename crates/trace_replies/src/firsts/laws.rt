//! What is kept is what the definitions say.

ghost use Rattle.trace_replies.specs.firsts.Firsts.{GoesOn};

/// Behind each row what is kept of messages that came is what the definitions of a right trace say.
pub fn first_messages_go_on()
    ensures { GoesOn }
{}
