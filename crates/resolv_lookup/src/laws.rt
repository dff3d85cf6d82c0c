//! What holds of every order of a service's servers.

ghost use Rattle.resolv_lookup.specs.OrderLaws.{OrderLaws};

/// The laws of the order in which servers are tried: it is a permutation, and priorities never fall.
pub fn order_laws()
    ensures { OrderLaws }
{}
