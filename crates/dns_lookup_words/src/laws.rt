//! What holds of all words.

ghost use Rattle.dns_lookup_words.specs.Words.{LookupLaws};

/// Words are one lookup at most, or refused for one cause: no words are both.
pub fn lookup_laws()
    ensures { LookupLaws }
{}
