//! What holds of a server by streams with reconnection, beside the part of the machine that it is.

ghost use Rattle.proof_multi.specs.Tied.{StreamsAreShared, StreamsAreTiedAs};

/// Each call of reconnection leaves what moves of `proof_right`'s machine leave: it is tied to the part of each server that
/// is used by streams alone.
pub fn streams_are_tied()
    ensures { StreamsAreTiedAs }
{}

/// Where servers share timers, places and the board, reconnection leaves alone what is not its own: timers and events of
/// others, and what they post.
pub fn streams_are_shared()
    ensures { StreamsAreShared }
{}
