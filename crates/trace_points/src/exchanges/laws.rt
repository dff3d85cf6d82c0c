//! What is kept is what the definitions say.

ghost use Rattle.right_trace.specs.Trace.{Conf};
ghost use Rattle.trace_points.specs.exchanges.Asked.{RightRowsAsk};
ghost use Rattle.trace_points.specs.exchanges.Open.{GoesOn};

/// In a trace that is right nothing is sent and nothing handed on of a request that was not asked.
pub fn right_rows_ask()
    ensures { RightRowsAsk }
{}

/// What was sent by datagrams and not answered is what the definitions of a right trace say, before the first row and over each
/// event and out.
pub fn open_sends_go_on()
    ensures { (c : Conf) → GoesOn c }
{}
