//! What holds of all words.

ghost use Rattle.forward_words.specs.Options.{OptionLaws};

/// Words begin with options in one way at most, or are refused for one cause: no words do both.
pub fn option_laws()
    ensures { OptionLaws }
{}
