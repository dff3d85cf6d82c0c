//! What holds of every transfer.

ghost use Rattle.client_transfer.specs.Transfers.{TransferLaw};

use client_request::ComposeRequestMulti;

/// What messages give one behind the other is the fold of what each gives: it doesn't matter where the
/// list of them is cut, and after the end nothing is given any more.
#[tactic(auto, using(crate::proofs::Transfers::transfer_law))]
pub fn transfer_law<CRM: ComposeRequestMulti>()
    ensures { TransferLaw CRM.requests }
{}
