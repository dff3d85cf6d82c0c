//! Which request is late where a row is not timely.

ghost use Rattle.trace_hits.specs.timely.Longest.{LateAreNamed};

/// At the first row that is not timely the request that waits longest is at its timeout or past it. It does nothing.
pub fn late_requests_are_named()
    ensures { LateAreNamed }
{}
