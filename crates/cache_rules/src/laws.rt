//! What holds of keys, and of views.

ghost use Rattle.right_trace.specs.Keys.{TellsKeys};
ghost use Rattle.cache_rules.specs.Key.{same_key};
ghost use Rattle.cache_rules.specs.Laws.{KeysAreOfRequests, ViewLaws};

/// Whether two keys are the same tells equal ones.
pub fn keys_are_told_apart()
    ensures { TellsKeys same_key }
{}

/// The key that a composed message shows is that of its request.
pub fn keys_are_of_requests()
    ensures { KeysAreOfRequests }
{}

/// A view of a view is the view of the first message: its header, its octets, and how long it may be kept.
pub fn view_laws()
    ensures { ViewLaws }
{}
