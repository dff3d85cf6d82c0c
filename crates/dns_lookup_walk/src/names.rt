//! Names that stand below a zone.

ghost use Rattle.std.specs.Prelude.{◌≡◌};
ghost use Rattle.dns_lookup_walk.specs.Names.{is_within, leads_on};

use dns_base::ParsedName;
use dns_names::are_same_labels;

/// Whether a name is a zone's, or below it.
#[tactic(auto, using(crate::proofs::Zones::within_here, crate::proofs::Zones::within_later))]
pub(crate) fn is_within(zone: &ParsedName<'_>, name: &ParsedName<'_>) -> bool
    ensures { result ≡ is_within zone.now name.now }
{
    let mut rest = name.labels();
    'suffixes: loop {
        if are_same_labels(rest.again(), zone.labels()) {
            return true;
        }
        if rest.next().is_none() {
            return false;
        }
    }
}

/// Whether a referral from a zone's server may lead to the zone of an owner.
pub(crate) fn leads_on(zone: &ParsedName<'_>, name: &ParsedName<'_>, owner: &ParsedName<'_>) -> bool
    ensures { result ≡ leads_on zone.now name.now owner.now }
{
    is_within(zone, owner)
        && !are_same_labels(owner.labels(), zone.labels())
        && is_within(owner, name)
}
