//! What bounds a forwarder, whatever comes.

ghost use Rattle.proof_bounds.specs.Bounds.{AnswersInARowAreFew, EntriesAreFew, EveryAnswerIsEarned, StreamsKeepLittle};
ghost use Rattle.proof_bounds.specs.Cuts.{EveryEventMayBeCut, OctetsAreCut};
ghost use Rattle.proof_bounds.specs.Posts.{ListenersAnswerSenders};
ghost use Rattle.proof_bounds.specs.Worked.{WorkedBounds};

/// Each peer has at most one answer for each of its datagrams, and by a stream one for each 14 octets.
pub fn every_answer_is_earned()
    ensures { EveryAnswerIsEarned }
{}

/// A row has no more answers than queries waited before it and came in it.
pub fn answers_in_a_row_are_few()
    ensures { AnswersInARowAreFew }
{}

/// Behind each event at most 65,536 octets are kept of a stream.
pub fn streams_keep_little()
    ensures { StreamsKeepLittle }
{}

/// The client within keeps at most as many results as its cache may have.
pub fn entries_are_few()
    ensures { EntriesAreFew }
{}

/// What the octets of a stream come to is a function of them, wherever they were cut.
pub fn octets_are_cut()
    ensures { OctetsAreCut }
{}

/// Octets that come by a stream in two events at one moment come to what they do in one, in the same order, and leave the same
/// streams.
pub fn every_event_may_be_cut()
    ensures { EveryEventMayBeCut }
{}

/// To any addresses a listener sends no more datagrams than came from them there, and at most 20,000 senders are kept.
pub fn listeners_answer_senders()
    ensures { ListenersAnswerSenders }
{}

/// Worked rows, octets and posts that are so, and some that are refused.
pub fn worked_bounds()
    ensures { WorkedBounds }
{}
