//! What holds of every text.

ghost use Rattle.dns_presentation.specs.Laws.{PresentationLaws};

/// What is printed of strings, generic data and names is read back.
pub fn presentation_laws()
    ensures { PresentationLaws }
{}
