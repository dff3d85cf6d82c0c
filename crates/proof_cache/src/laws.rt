//! What a cache does, in moves of the machine of `proof_right`.

ghost use Rattle.proof_cache.specs.LookUps.{LookUpsAreAskings};
ghost use Rattle.proof_cache.specs.Laws.{AskedAreOfRequests, DerivingIsMoving, LookUpsAreAnswers, LookUpsAreListed, RequestsAreAnswered, RequestsAreListed, ResultsAreGiven, StandingLaws, WhatIsKeptIsStored};
ghost use Rattle.proof_cache.specs.Listed.{KeysAreTold};

/// What a composed message asks is what its request asks.
pub fn asked_are_of_requests()
    ensures { AskedAreOfRequests }
{}

/// An empty table stands to what is stored, and still does as time passes.
pub fn standing_laws()
    ensures { StandingLaws }
{}

/// A request that looks a cache up derives entries as the machine may, and is answered as it answers at once.
pub fn look_ups_are_answers()
    ensures { LookUpsAreAnswers }
{}

/// A request that can't be composed is given why, one whose results are not kept finds nothing, and any other looks
/// the cache up.
pub fn requests_are_answered()
    ensures { RequestsAreAnswered }
{}

/// A request that looks a cache up uses and stores, in a list that is alike to the table, what an asking of the exact
/// cache may; and where the entry under its own key serves it, it is answered from that.
pub fn look_ups_are_listed()
    ensures { LookUpsAreListed }
{}

/// A request that can't be composed, or whose results are not kept, leaves the list as it is, and any other looks the
/// cache up.
pub fn requests_are_listed()
    ensures { RequestsAreListed }
{}

/// What is given and kept of a result is what the machine's reply gives and stores, and a list that is alike to the
/// table stays so.
pub fn what_is_kept_is_stored()
    ensures { WhatIsKeptIsStored }
{}

/// What is derived one after another are moves of the machine, which put nothing out.
pub fn deriving_is_moving()
    ensures { DerivingIsMoving }
{}

/// A result is given as the machine gives it, also to a request whose results are not kept.
pub fn results_are_given()
    ensures { ResultsAreGiven }
{}

/// The test of keys tells equal ones.
pub fn keys_are_told()
    ensures { KeysAreTold }
{}

/// Looking up uses and stores what an asking does that is hit or missed in the machine of `proof_right`.
pub fn look_ups_are_askings()
    ensures { LookUpsAreAskings }
{}
