//! Questions, and the section that has them.

ghost use Rattle.std.specs.Prelude.{◌≡◌, ◌+◌, ◌≤◌, ◌<◌, length, List, Result};
ghost use Rattle.std.specs.Iterator.{YieldsFirst, item_count};
ghost use Rattle.dns_values.specs.declared.error.ParseError.{ParseError};
ghost use Rattle.dns_base.specs.Message.{Asked, question_at, items_at};

use crate::numbers::u16_at;
use dns_names::{ParsedName, ToName};
use dns_values::{Class, ParseError, Rtype};
use std::marker::Model;

/// A question of a message.
#[derive(Drop)]
pub struct Question<'a> {
    qname: ParsedName<'a>,
    qtype: Rtype,
    qclass: Class,
}

impl<'a> Model for Question<'a> {
    ghost Value = { Asked };

    ghost view = { λ q. record { name = q.qname; rtype = q.qtype.0; class = q.qclass.0 } };
}

impl<'a> Question<'a> {
    /// The question for the records of a type that a name has, of class IN (RFC 1035 4.1.2).
    pub fn new<N: ToName>(name: &'a N, rtype: Rtype) -> Question<'a>
        ensures { result ≡ record { name = N.labels_of name.now; rtype = rtype.0; class = 1 } }
    {
        Question {
            qname: name.parsed(),
            qtype: rtype,
            qclass: Class::IN,
        }
    }

    /// The name that is asked for.
    pub fn qname(&self) -> ParsedName<'a>
        ensures { result ≡ self.now.name }
    {
        self.qname.again()
    }

    /// The type of the records that are asked for.
    pub fn qtype(&self) -> Rtype
        ensures { result.0 ≡ self.now.rtype }
    {
        self.qtype
    }

    /// Their class.
    pub fn qclass(&self) -> Class
        ensures { result.0 ≡ self.now.class }
    {
        self.qclass
    }

    /// The question at a place, and where the octets after it stand.
    #[tactic(auto, unfolding(crate::specs::Message::question_at))]
    pub(crate) fn parse(octets: &'a [u8], place: usize) -> Option<(Question<'a>, usize)>
        ensures { result ≡ question_at octets.now place }
    {
        let (qname, end) = ParsedName::parse(octets, place)?;
        if octets.len() < end + 4 {
            return None;
        }
        let qtype = Rtype(u16_at(octets, end));
        let qclass = Class(u16_at(octets, end + 2));
        Some((
            Question {
                qname,
                qtype,
                qclass,
            },
            end + 4,
        ))
    }
}

/// The questions of a message, read one by one.
#[derive(Drop)]
pub struct QuestionSection<'a> {
    octets: &'a [u8],
    at: usize,
    left: u16,
}

impl<'a> Model for QuestionSection<'a> {
    ghost Value = { List (Result Asked ParseError) };

    ghost view = { λ s. items_at (question_at s.octets.now) s.left s.at };
}

impl<'a> QuestionSection<'a> {
    pub(crate) fn new(octets: &'a [u8], at: usize, left: u16) -> Self
        ensures all { result ≡ items_at (question_at octets.now) left at }
        ensures few { length result < 65536 }
    {
        QuestionSection { octets, at, left }
    }
}

impl<'a> Iterator for QuestionSection<'a> {
    type Item = Result<Question<'a>, ParseError>;

    ghost next_gives = { YieldsFirst (λ s. s) };

    ghost remaining = { item_count (λ s. s) };

    #[tactic(auto, unfolding(crate::specs::Message::items_at))]
    fn next(&mut self) -> Option<Result<Question<'a>, ParseError>> {
        if self.left == 0 {
            return None;
        }
        match Question::parse(self.octets, self.at) {
            None => {
                self.left = 0;
                Some(Err(ParseError))
            }
            Some((question, end)) => {
                self.left -= 1;
                self.at = end;
                Some(Ok(question))
            }
        }
    }
}
