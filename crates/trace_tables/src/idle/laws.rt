//! What is kept is what the definitions say.

ghost use Rattle.right_trace.specs.Trace.{Conf};
ghost use Rattle.trace_tables.specs.idle.Idle.{GoesOn};

/// How long places may be idle is what the definitions of a right trace say, before the first row and over each event and out.
pub fn idle_goes_on()
    ensures { (c : Conf) → GoesOn c }
{}
