//! What is kept is what the definitions say.

ghost use Rattle.right_trace.specs.Trace.{Conf};
ghost use Rattle.trace_outs.specs.busy.Backs as backs;
ghost use Rattle.trace_outs.specs.busy.Waits as waits;

/// What is kept of back-offs is what the definitions of a right trace say, before the first row and over each event and out.
pub fn backs_go_on()
    ensures { (c : Conf) → backs.GoesOn c }
{}

/// So is what is kept of requests that wait.
pub fn waits_go_on()
    ensures { (c : Conf) → waits.GoesOn c }
{}
