//! What is kept is what the definitions say.

ghost use Rattle.right_trace.specs.Trace.{Conf};
ghost use Rattle.trace_outs.specs.loads.Held as held;
ghost use Rattle.trace_outs.specs.loads.Loads as loads;

/// What is kept of servers is what the definitions of a right trace say, before the first row and over each event and out, where
/// nobody was sent or handed on who was not asked.
pub fn loads_go_on()
    ensures { (c : Conf) → loads.GoesOn c }
{}

/// So is what is kept of ids that are held.
pub fn held_goes_on()
    ensures { held.GoesOn }
{}
