//! What holds of zones that are kept.

ghost use Rattle.zone_refresh.specs.Laws.{RefreshLaws};

/// A zone that has expired is told, and primaries that don't answer are asked in turn.
pub fn refresh_laws()
    ensures { RefreshLaws }
{}
