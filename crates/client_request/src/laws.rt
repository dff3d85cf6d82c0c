//! What holds of every request that is composed, and of every setting that is limited.

ghost use Rattle.client_request.specs.Carries.{CarryingLaws};
ghost use Rattle.client_request.specs.Limits.{LimitLaws};

/// What is composed of a request carries it.
pub fn carrying_laws()
    ensures { CarryingLaws }
{}

/// What is cut into limits lies between them. Where limits that tie are the same value, it is the same when it is cut again.
pub fn limit_laws<T: Ord>()
    ensures { LimitLaws T.cmp }
{}
