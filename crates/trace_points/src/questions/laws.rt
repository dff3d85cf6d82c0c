//! What is asked of the books is what the definitions of a right trace say.

ghost use Rattle.trace_points.specs.questions.Causes.{OpeningDecides};
ghost use Rattle.trace_points.specs.questions.Searching.{SearchDecides};

/// Whether a stream place of a server is opening is found by going through the table.
pub fn search_decides()
    ensures { SearchDecides }
{}

/// Of whose failed opening a request is told is decided from what was known before the row, and what is known here.
pub fn openings_are_decided()
    ensures { OpeningDecides }
{}
