//! What holds of octets that come in pieces.

ghost use Rattle.proof_cutting.specs.Cuts.{EveryPlainTraceMayBeCut, TracesMayBeCut};
ghost use Rattle.proof_cutting.specs.Worked.{WorkedCut};

/// Octets that come at a place in several events, one behind another at one moment, put out the same as in one, in the same
/// order, and leave the same client and the same words.
#[tactic(auto, using(crate::proofs::Traces::every_plain_trace_may_be_cut))]
pub fn every_plain_trace_may_be_cut()
    ensures { EveryPlainTraceMayBeCut }
{}

/// So with any settings of transports.
#[tactic(auto, using(crate::proofs::Traces::traces_may_be_cut))]
pub fn traces_may_be_cut()
    ensures { TracesMayBeCut }
{}

/// In a worked trace the frame of an answer comes in three pieces, of which one is empty.
#[tactic(auto, using(crate::proofs::Worked::worked))]
pub fn worked_cut()
    ensures { WorkedCut }
{}
