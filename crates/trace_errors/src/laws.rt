//! What is kept is what the definitions say.

ghost use Rattle.trace_errors.specs.Earlier.{GoesOn};

/// What is kept of rows that are done is what the definitions of a right trace say, before the first row and behind each row that
/// is right.
pub fn earlier_goes_on()
    ensures { GoesOn }
{}
