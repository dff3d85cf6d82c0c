//! What is said of replays.

ghost use Rattle.proof_audit.specs.Replays.{ReplaysAreRight};

/// Each trace of a replay is judged right by the script that it replays, timely, and to miss no hit
/// and no expired answer, and nothing else is said of it. It does nothing.
pub fn every_replay_is_judged_right()
    ensures { ReplaysAreRight }
{}
