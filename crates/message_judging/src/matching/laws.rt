//! What the tests of octets decide.

ghost use Rattle.right_trace.specs.Trace.{Conf};
ghost use Rattle.message_judging.specs.matching.Laws.{CarryingIsDecided, AnswersAreDecided};

/// Octets carry a request exactly where the test says so.
pub fn carrying_is_decided()
    ensures { (c : Conf) → CarryingIsDecided c }
{}

/// A message is an answer exactly where the test says so.
pub fn answers_are_decided()
    ensures { AnswersAreDecided }
{}
