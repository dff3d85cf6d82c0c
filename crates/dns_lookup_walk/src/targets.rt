//! Whom a walk asks at a zone.

use crate::server::NameServer;
use dns_base::{Name, Seq};

/// The servers of a zone, as a referral has them.
#[derive(Debug, Drop)]
pub struct Targets {
    /// Those with addresses beside the referral, in order.
    pub glue: Seq<NameServer>,
    /// The names of the others, which have to be looked up.
    pub names: Seq<Name>,
}
