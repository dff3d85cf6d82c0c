//! Where a walk is.

use dns_base::Name;

/// Whose servers are asked.
#[derive(Debug, Drop)]
pub enum Station {
    /// The servers that are given, which are asked for those of the root.
    Given,
    /// Those of a zone.
    Zone(Name),
}
