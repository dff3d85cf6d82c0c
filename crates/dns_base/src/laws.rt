//! What holds of every message that is read or written.

ghost use Rattle.dns_base.specs.ReadingLaws.{ReadingLaws};
ghost use Rattle.dns_base.specs.DraftLaws.{DraftLaws};
ghost use Rattle.dns_base.specs.DraftSteps.{DraftSteps};

/// The parts of a message are what the readers of its sections meet.
pub fn reading_laws()
    ensures { ReadingLaws }
{}

/// What was pushed onto a builder is read back.
pub fn draft_laws()
    ensures { DraftLaws }
{}

/// What each step of writing changes in a builder's draft.
pub fn draft_steps()
    ensures { DraftSteps }
{}
