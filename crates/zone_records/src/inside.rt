//! Whether a name is in a zone.

ghost use Rattle.std.specs.Prelude.{◌≡◌};
ghost use Rattle.zone_records.specs.Records.{is_within};

use dns_base::{Name, ParsedName, ToName};
use dns_names::{LabelIter, are_same_labels};

/// Whether labels are those of the apex once some of the first are left out.
#[tactic(auto, using(crate::proofs::Within::here, crate::proofs::Within::nowhere, crate::proofs::Within::further))]
fn ends_with(apex: &ParsedName<'_>, mut left: LabelIter<'_>) -> bool
    ensures { result ≡ is_within apex.now left.entry }
{
    'labels: loop {
        if are_same_labels(left.again(), apex.labels()) {
            return true;
        }
        match left.next() {
            None => return false,
            Some(_) => {}
        }
    }
}

/// Whether a name is the apex or below it.
pub(crate) fn is_within(apex: &Name, owner: &ParsedName<'_>) -> bool
    ensures { result ≡ is_within apex.now owner.now }
{
    ends_with(&apex.parsed(), owner.labels())
}
