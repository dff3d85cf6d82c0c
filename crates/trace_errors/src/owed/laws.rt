//! What is kept is what the definitions say.

ghost use Rattle.right_trace.specs.Trace.{Conf};
ghost use Rattle.trace_errors.specs.owed.Exchanged.{GoesOn};

/// Whatever may be waited for is kept, before the first row and over each event and out.
pub fn exchanges_go_on()
    ensures { (c : Conf) → GoesOn c }
{}
