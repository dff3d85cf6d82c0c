//! What holds of lists.

ghost use Rattle.zone_list.specs.Laws.{OneReadingLaw};

/// A list gives these zones or has this first wrong line, and nothing else.
pub fn one_reading_law()
    ensures { OneReadingLaw }
{}
