//! The records of an answer that its canonical name owns.

ghost use Rattle.std.specs.Prelude.{◌≡◌, [], ◌∷◌, MatchOption};
ghost use Rattle.std.specs.Iterator.{YieldsFirst, item_count};
ghost use Rattle.resolv_lookup.specs.Owned.{owned_by, owned_records};

use crate::answer_section::AnswerSection;
use dns_base::{Message, ParsedName, Record, is_same_name};
use std::marker::Model;

/// The records of an answer section that a name owns, one by one.
#[derive(Drop)]
pub(crate) struct OwnedRecords<'a> {
    owner: ParsedName<'a>,
    records: AnswerSection<'a>,
}

impl<'a> Model for OwnedRecords<'a> {
    ghost use Rattle.std.specs.Prelude.{List};
    ghost use Rattle.dns_base.specs.Message.{Known};
    ghost use Rattle.resolv_lookup.specs.Owned.{owned_by};

    ghost Value = { List Known };

    ghost view = { λ o. owned_by o.owner o.records };
}

impl<'a> OwnedRecords<'a> {
    /// The records of the answer section that the canonical name owns, where there is one.
    #[tactic(auto, unfolding(crate::specs::Owned::owned_records))]
    pub(crate) fn of(answer: &'a Message) -> Option<OwnedRecords<'a>>
        ensures { MatchOption result (owned_records answer.now ≡ []) (λ o. owned_records answer.now ≡ o) }
    {
        let owner = answer.canonical_name()?;
        let records = AnswerSection::of(answer)?;
        Some(OwnedRecords { owner, records })
    }

    /// The same records again.
    pub(crate) fn again(&self) -> OwnedRecords<'a>
        ensures { result ≡ self.now }
    {
        OwnedRecords {
            owner: self.owner.again(),
            records: self.records.again(),
        }
    }
}

/// The next of the records that a name owns.
fn next_owned<'a>(records: &mut AnswerSection<'a>, owner: &ParsedName<'_>) -> Option<Record<'a>>
    ensures { MatchOption result ((owned_by owner.now records.old ≡ []) × (owned_by owner.now records.new ≡ []))
        (λ r. owned_by owner.now records.old ≡ r ∷ owned_by owner.now records.new) }
{
    'records: while let Some(item) = records.next() {
        if let Ok(record) = item {
            if is_same_name(&record.owner(), owner) {
                return Some(record);
            }
        }
    }
    None
}

impl<'a> Iterator for OwnedRecords<'a> {
    type Item = Record<'a>;

    ghost next_gives = { YieldsFirst (λ s. s) };

    ghost remaining = { item_count (λ s. s) };

    fn next(&mut self) -> Option<Record<'a>> {
        next_owned(&mut self.records, &self.owner)
    }
}
