//! What patching gives.

ghost use Rattle.message_patching.specs.Laws.{ViewsArePatched};

/// What is patched is the view that is composed anew.
pub fn views_are_patched()
    ensures { ViewsArePatched }
{}
