//! What holds of every stream.

ghost use Rattle.client_stream.specs.Cutting.{CuttingLaw};
ghost use Rattle.client_stream.specs.Frames.{FramesJoin};
ghost use Rattle.client_stream.specs.Ids.{IdsLaw};
ghost use Rattle.client_stream.specs.Transfers.{TransferLaw};

use client_request::{ComposeRequest, ComposeRequestMulti};

/// The frames of octets are those of their pieces, wherever they are cut.
#[tactic(auto, using(crate::proofs::Frames::frames_join))]
pub fn frames_law()
    ensures { FramesJoin }
{}

/// An id that was written on a connection is not written again there until a frame with it freed it or the
/// connection ended. A message of a transfer of which more are to come does not free it.
#[tactic(auto, using(crate::proofs::IdMoves::ids_law))]
pub fn ids_law<Req: ComposeRequest, ReqMulti: ComposeRequestMulti>()
    ensures { IdsLaw Req.requests ReqMulti.requests }
{}

/// Octets that come in two pieces at one moment leave and give what they do in one.
#[tactic(auto, using(crate::proofs::Cutting::cutting))]
pub fn cutting_law<Req: ComposeRequest, ReqMulti: ComposeRequestMulti>()
    ensures { CuttingLaw Req.requests ReqMulti.requests }
{}

/// What a transfer gets is the fold of what each message with its id gives, whatever else comes.
#[tactic(auto, using(crate::proofs::Transferring::transfer_law))]
pub fn transfer_law<Req: ComposeRequest, ReqMulti: ComposeRequestMulti>()
    ensures { TransferLaw Req.requests ReqMulti.requests }
{}
