//! What is kept is what the definitions say.

ghost use Rattle.right_trace.specs.Trace.{Conf};
ghost use Rattle.trace_points.specs.pass.Pass.{GoesOn};

/// What is known is what the definitions of a right trace say: before the first row, behind each event and out, and behind each
/// row.
pub fn passes_go_on()
    ensures { (c : Conf) → GoesOn c }
{}
