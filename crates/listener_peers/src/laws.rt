//! What holds of every peer.

ghost use Rattle.listener_peers.specs.Once.{GoOnce};

/// Octets that are put at a peer go to its socket in order, each once, for as long as it is not broken.
pub fn octets_go_once()
    ensures { GoOnce }
{}
