//! What holds of the client within a forwarder.

ghost use Rattle.proof_front.specs.Forwarding.{EveryForwardedTraceIsRight};

use proof_client::traces_with_settings;

/// The rows that the client within a forwarder makes are the plain trace of their events, whatever comes: they are right and
/// timely, give what is kept, and serve what has expired. It does nothing.
#[tactic(auto, using(crate::proofs::Traces::forwarded_traces))]
pub fn every_forwarded_trace_is_right()
    ensures { EveryForwardedTraceIsRight }
{
    traces_with_settings();
}
