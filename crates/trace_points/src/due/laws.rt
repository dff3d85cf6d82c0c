//! What is kept is what the definitions say.

ghost use Rattle.right_trace.specs.Trace.{Conf};
ghost use Rattle.trace_points.specs.due.Timers.{GoesOn};

/// What is kept of timers is what the definitions of a right trace say, before the first row and over each event and out.
pub fn timers_go_on()
    ensures { (c : Conf) → GoesOn c }
{}
