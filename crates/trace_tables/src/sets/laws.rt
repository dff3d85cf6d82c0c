//! What sets are once a number joins or leaves one, and how many numbers they have.

ghost use Rattle.trace_tables.specs.sets.Sets.{SetsGoOn};

/// A number that joins a set is in it, one that leaves it is not, others stay as they were; a set has as many numbers as are
/// counted; and a walk over a set finds what is in it.
pub fn sets_go_on()
    ensures { SetsGoOn }
{}
