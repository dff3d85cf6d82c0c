//! What is kept is what the definitions say.

ghost use Rattle.trace_tables.specs.writes.Writing.{GoesOn};

/// What is left of the last writes is what the definitions of a right trace say, before the first row and over each event and
/// out; so is whether something is unwritten.
pub fn writing_goes_on()
    ensures { GoesOn }
{}
