//! What holds of transports beside the parts that they are.

ghost use Rattle.right_trace.specs.Trace.{Conf};
ghost use Rattle.proof_parts.specs.Connections.{LinesAreTied};
ghost use Rattle.proof_parts.specs.Framed.{FramesCarry};
ghost use Rattle.proof_parts.specs.Octets.{LinksRead};
ghost use Rattle.proof_parts.specs.Places.{ServersOpenNext};
ghost use Rattle.proof_parts.specs.Reading.{BackOffIsShort, IdleIsTold, KeptIsRead};
ghost use Rattle.proof_parts.specs.Silent.{SilenceIsShared, SilenceIsTied, SilenceOpensNext};

/// The laws of a tie can be met: a transport that gives every request an error meets them.
#[tactic(auto, using(crate::proofs::Silence::silence_is_tied))]
pub fn silence_is_tied()
    ensures { SilenceIsTied }
{}

/// So can the laws of sharing: it leaves alone what is not its own.
#[tactic(auto, using(crate::proofs::Silence::silence_opens_next, crate::proofs::Silence::silence_is_shared))]
pub fn silence_is_shared()
    ensures opens { SilenceOpensNext }
    ensures shared { SilenceIsShared }
{}

/// Each move of a server opens no place but the next.
#[tactic(auto, using(crate::proofs::Opening::servers_open_next))]
pub fn servers_open_next()
    ensures { ServersOpenNext }
{}

/// Octets that are kept until a frame of them is taken are those that were read one by one.
#[tactic(auto, using(crate::proofs::FrameReads::kept_is_read))]
pub fn kept_is_read()
    ensures { KeptIsRead }
{}

/// The idle time that a frame tells, and the moment at which a back-off ends, are those of the machine.
#[tactic(auto, using(crate::proofs::Waits::idle_is_told, crate::proofs::Waits::back_off_is_short))]
pub fn waits_are_told()
    ensures idle { IdleIsTold }
    ensures back_off { BackOffIsShort }
{}

/// What a connection writes carries the request under its id, and a request that is valid is written.
#[tactic(auto, using(crate::proofs::Framing::frames_carry))]
pub fn frames_carry()
    ensures { FramesCarry }
{}

/// What each call of a connection leaves is what moves of the machine leave at its place.
#[tactic(auto, using(crate::proofs::LinesTied::lines_are_tied))]
pub fn lines_are_tied()
    ensures { (c : Conf) → LinesAreTied c }
{}

/// Octets that come to a connection, and frames that are taken one by one, are those of the machine.
#[tactic(auto, using(crate::proofs::Linking::links_read))]
pub fn links_read()
    ensures { (c : Conf) → LinksRead c }
{}
