//! The laws of walks.

ghost use Rattle.dns_lookup_walk.specs.Laws.{WalkLaws};

/// The laws of walks: each step behind one at a zone is at a zone strictly below that, and at or above the name.
pub fn walk_laws()
    ensures { WalkLaws }
{}
