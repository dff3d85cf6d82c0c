//! What is kept is what the definitions say.

ghost use Rattle.trace_errors.specs.promptness.Heard.{GoesOn};

/// Which servers a message came from by stream is what the definitions of a right trace say, before the first row and behind
/// each row.
pub fn heard_goes_on()
    ensures { GoesOn }
{}
