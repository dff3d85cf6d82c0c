//! What holds of zones that are kept.

ghost use Rattle.zone_refresh_run.specs.Laws.{KeepingLaws};

/// What a run owes to a zone, in the subject's own words.
pub fn keeping_laws()
    ensures { KeepingLaws }
{}
