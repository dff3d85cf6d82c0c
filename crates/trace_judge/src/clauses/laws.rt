//! What verdicts are worth.

ghost use Rattle.trace_judge.specs.clauses.Laws.{KeptIsRight, OneVerdict};

/// All clauses are kept exactly where the rows have the script's events and the trace is right.
pub fn verdicts_are_right()
    ensures { KeptIsRight }
{}

/// No two verdicts are so of one trace.
pub fn one_verdict_is_so()
    ensures { OneVerdict }
{}
