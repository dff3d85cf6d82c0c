//! What is kept is what the definitions say.

ghost use Rattle.trace_tables.specs.Books.{GoesOn};
ghost use Rattle.trace_tables.specs.Requests.{DeadlineDecides};

/// The books are what the definitions of a right trace say of a history, before the first row and over each event, out and
/// row.
pub fn books_go_on()
    ensures { GoesOn }
{}

/// The deadline of a request is decided from what is kept.
pub fn deadlines_are_decided()
    ensures { DeadlineDecides }
{}
