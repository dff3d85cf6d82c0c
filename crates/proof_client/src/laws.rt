//! What holds of clients above tied transports.

ghost use Rattle.proof_client.specs.Fallbacks.{FallbacksAreShared, FallbacksAreTied};
ghost use Rattle.client_settings.specs.declared.settings.Transports.{Transports};
ghost use Rattle.proof_client.specs.Ties.{EveryPlainTraceHits, EveryPlainTraceIsRight, EveryPlainTraceRuns, EveryPlainTraceServesStale, PlainTracesKeepTheirEvents, TracesAreRight, TracesHit, TracesRun, TracesServeStale};
ghost use Rattle.right_trace.specs.Trace as trace;

/// The transport of each server that is asked by datagrams, and by stream where an answer was cut, is tied to its part.
#[tactic(auto, using(crate::proofs::Datagrams::fallbacks_are_tied))]
pub fn fallbacks_are_tied()
    ensures { FallbacksAreTied }
{}

/// So it may be one of several: it leaves alone what is none of its own.
#[tactic(auto, using(crate::proofs::Datagrams::fallbacks_are_shared))]
pub fn fallbacks_are_shared()
    ensures { FallbacksAreShared }
{}

/// Every plain trace has a row for each event, and is a run of the client of small moves.
#[tactic(auto, using(crate::proofs::Traces::plain_traces_run, crate::proofs::Traces::plain_traces_keep_events))]
pub fn plain_traces_are_runs()
    ensures runs { EveryPlainTraceRuns }
    ensures events { PlainTracesKeepTheirEvents }
{}

/// The headline: each reply is a message that came for its request on an exchange open for it, or the valid view of one
/// that an earlier request got so, or an error with its cause; who waits is busy; what comes and matches is the reply at
/// once.
pub fn every_plain_trace_is_right()
    ensures { EveryPlainTraceIsRight }
{}

/// What is kept is given: a request for the same is answered from the cache at once, as long as it is valid and few enough
/// requests and replies came since.
#[tactic(auto, using(crate::proofs::Traces::every_plain_trace_hits))]
pub fn every_plain_trace_hits()
    ensures { EveryPlainTraceHits }
{}

/// What has expired serves where servers fail: a request for the same gets no error of a server, and none of its deadline,
/// as long as the message may serve and few enough requests and replies came since (RFC 8767).
#[tactic(auto, using(crate::proofs::Traces::every_plain_trace_serves_stale))]
pub fn every_plain_trace_serves_stale()
    ensures { EveryPlainTraceServesStale }
{}

/// All of this with any settings of transports: those that a client is given are the configuration's.
#[tactic(auto, using(crate::proofs::Traces::traces_run, crate::proofs::Traces::traces_are_right, crate::proofs::Traces::traces_hit, crate::proofs::Traces::traces_serve_stale))]
pub fn traces_with_settings()
    ensures runs { (t : trace.Transports) (given : Transports) → TracesRun t given }
    ensures right { (t : trace.Transports) (given : Transports) → TracesAreRight t given }
    ensures hit { (t : trace.Transports) (given : Transports) → TracesHit t given }
    ensures stale { (t : trace.Transports) (given : Transports) → TracesServeStale t given }
{}
