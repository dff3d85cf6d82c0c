//! What each call of a datagram connection leaves, beside the moves of the machine.

ghost use Rattle.right_trace.specs.Trace.{Conf};
ghost use Rattle.proof_dgram.specs.AtServer.{ServersMove, SlotsAreKnown};
ghost use Rattle.proof_dgram.specs.Calls.{CallsAreMoves};
ghost use Rattle.proof_dgram.specs.Halves.{StreamsMove};
ghost use Rattle.proof_dgram.specs.Placed.{PlacesStay};
ghost use Rattle.proof_dgram.specs.Slots.{FreshIsAlike};
ghost use Rattle.proof_dgram.specs.Staying.{OpeningsAreNew, RequestsStay};
ghost use Rattle.proof_dgram.specs.Waiting.{StreamsGive, TablesChange};

/// A server of which nothing was asked is tied.
#[tactic(auto, using(crate::proofs::Fresh::fresh_is_alike))]
pub fn fresh_is_alike()
    ensures { (c : Conf) → FreshIsAlike c }
{}

/// What each call of a datagram connection leaves is what moves of the machine leave.
#[tactic(auto, using(crate::proofs::CallsAreMoves::calls_are_moves))]
pub fn calls_are_moves()
    ensures { (c : Conf) → CallsAreMoves c }
{}

/// What datagrams do is what a server by datagrams and streams does: also where an answer was cut.
#[tactic(auto, using(crate::proofs::AtServer::servers_move))]
pub fn servers_move()
    ensures { ServersMove }
{}

/// What is known of a datagram connection between its calls: its timers, its tickets, its places, and when it rests.
#[tactic(auto, using(crate::proofs::Known::slots_are_known))]
pub fn slots_are_known()
    ensures { (c : Conf) → SlotsAreKnown c }
{}

/// What a server does by streams alone it does beside any datagrams.
#[tactic(auto, using(crate::proofs::Halves::streams_move))]
pub fn streams_move()
    ensures { StreamsMove }
{}

/// What the streams post is handed on in its order, and who had it waits no more.
#[tactic(auto, using(crate::proofs::Handing::streams_give))]
pub fn streams_give()
    ensures { StreamsGive }
{}

/// What was asked stays through all moves by datagrams.
#[tactic(auto, using(crate::proofs::Staying::requests_stay))]
pub fn requests_stay()
    ensures { (c : Conf) → RequestsStay c }
{}

/// Who is at a place stays there while requests are taken on and given up, so an event that is nothing to the datagrams stays
/// so.
#[tactic(auto, using(crate::proofs::Placed::places_stay))]
pub fn places_stay()
    ensures { (c : Conf) → PlacesStay c }
{}

/// A stream place that opens opened before, or is new.
#[tactic(auto, using(crate::proofs::Staying::openings_are_new))]
pub fn openings_are_new()
    ensures { OpeningsAreNew }
{}

/// How the tables of a fallback change with those who wait below. That a fallback is tied, and that it leaves alone what is
/// none of its own, is proved over any streams of which the same holds, so no contract can state it: the proofs are named here.
#[tactic(auto, using(crate::proofs::Admitting::tables_change, crate::proofs::FallbackTied::fallback_is_tied, crate::proofs::FallbackShared::fallback_is_shared))]
pub fn tables_change()
    ensures { TablesChange }
{}
