//! What is kept is what the definitions say.

ghost use Rattle.trace_tables.specs.timers.Quiet.{GoesOn};

/// Since when places are quiet is what the definitions of a right trace say, before the first row and over each event and out,
/// whatever frames of the newest row count.
pub fn quiet_goes_on()
    ensures { GoesOn }
{}
