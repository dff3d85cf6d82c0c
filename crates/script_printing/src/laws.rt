//! What holds of every script.

ghost use Rattle.script_printing.specs.Laws.{PrintingLaws};

/// The text of a script that can be told is read back as it, and one more event is one more line of it. Cut anywhere behind what stands
/// before the first event, it is read up to its last whole line: as the script with the first of its events.
pub fn printing_laws()
    ensures { PrintingLaws }
{}
