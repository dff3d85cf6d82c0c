//! The records of an answer section, which can be read again from where they are.

ghost use Rattle.std.specs.Prelude.{◌≡◌, Some, IsSome, option_map, drop};
ghost use Rattle.std.specs.Iterator.{YieldsFirst, item_count};
ghost use Rattle.dns_base.specs.Message.{answer_items};

use dns_base::{Message, ParseError, Record, RecordSection};
use std::marker::Model;

/// The records of an answer section that are left to read.
#[derive(Drop)]
pub(crate) struct AnswerSection<'a> {
    answer: &'a Message,
    records: RecordSection<'a>,
    /// How many were read.
    taken: usize,
}

impl<'a> Model for AnswerSection<'a> {
    ghost use Rattle.std.specs.Prelude.{◌≡◌, ◌+◌, ◌<◌, List, Result, Some, option_map, drop, length};
    ghost use Rattle.dns_values.specs.declared.error.ParseError.{ParseError};
    ghost use Rattle.dns_base.specs.Message.{Known, answer_items};

    ghost Value = { List (Result Known ParseError) };

    ghost view = { λ s. s.records };

    ghost invariant = { λ s. (option_map (drop s.taken) (answer_items s.answer.now) ≡ Some s.records) × (s.taken + length s.records < 65536) };
}

impl<'a> AnswerSection<'a> {
    /// All records of the section, where it can be found.
    pub(crate) fn of(answer: &'a Message) -> Option<AnswerSection<'a>>
        ensures { result ≡ answer_items answer.now }
    {
        let records = answer.answer().ok()?;
        Some(AnswerSection {
            answer,
            records,
            taken: 0,
        })
    }

    /// The records that are left, again.
    pub(crate) fn again(&self) -> AnswerSection<'a>
        ensures { result ≡ self.now }
    {
        AnswerSection {
            answer: self.answer,
            records: records_behind(self.answer, self.taken),
            taken: self.taken,
        }
    }
}

/// The records of an answer section behind so many.
fn records_behind(answer: &Message, taken: usize) -> RecordSection<'_>
    requires { IsSome (answer_items answer.now) }
    ensures { Some result ≡ option_map (drop taken) (answer_items answer.now) }
{
    let mut records = answer.answer().unwrap();
    for _ in 0..taken {
        records.next();
    }
    records
}

impl<'a> Iterator for AnswerSection<'a> {
    type Item = Result<Record<'a>, ParseError>;

    ghost next_gives = { YieldsFirst (λ s. s) };

    ghost remaining = { item_count (λ s. s) };

    fn next(&mut self) -> Option<Result<Record<'a>, ParseError>> {
        let record = self.records.next()?;
        self.taken += 1;
        Some(record)
    }
}
