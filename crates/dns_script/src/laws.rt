//! What holds of every text of a trace and of every script.

ghost use Rattle.dns_script.specs.TextLaws.{ScriptLaws, TextLaws};

/// A trace is read of exactly the text that is printed of it.
pub fn text_laws()
    ensures { TextLaws }
{}

/// A text is one script at most, and is refused only where it is none.
pub fn script_laws()
    ensures { ScriptLaws }
{}
