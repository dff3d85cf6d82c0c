//! What holds of every place.

ghost use Rattle.socket_places.specs.Once.{GoOnce};

/// Octets that are put at a place are handed to its socket in order, each once, and what it did not take yet is handed first.
pub fn octets_go_once()
    ensures { GoOnce }
{}
