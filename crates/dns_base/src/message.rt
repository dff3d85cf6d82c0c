//! Messages, read where they lie.

ghost use Rattle.std.specs.Prelude.{◌≡◌, ◌≤◌, ◌<◌, ◌↔◌, ℕ, List, ◌++◌, length, drop, option_map, IfOk, OnOk, OnErr, IsErr, IsTrue, MatchOption, MatchResult, None, Some};
ghost use Rattle.dns_base.specs.Header.{counts_of};
ghost use Rattle.dns_base.specs.Numbers.{u16_at};
ghost use Rattle.dns_base.specs.Sections.{entries_in};
ghost use Rattle.dns_base.specs.Message.{question_at, items_at, list_at, record_at, questions_of, answer_of, authority_of, first_question, sole_question, answer_items, authority_items, additional_items, header_of};

use crate::header::{Header, HeaderCounts};
use crate::numbers::u16_at;
use crate::question::{Question, QuestionSection};
use crate::record::{Record, RecordSection};
use dns_values::{NoMemory, Octets, ParseError, Section, ShortMessage};
use std::alloc::Global;
use std::marker::Model;

/// A message: twelve octets at least.
pub struct Message {
    octets: Octets,
}

impl Drop for Message {
    fn drop(self) {
        let Message { octets: _ } = self;
    }
}

impl Model for Message {
    ghost Value = { List ℕ };

    ghost view = { λ m. m.octets };

    ghost invariant = { λ m. 12 ≤ length m.octets };
}

impl Message {
    /// The message of these octets. Refused exactly below twelve, which a header has.
    pub fn from_octets(octets: Octets) -> Result<Message, ShortMessage>
        ensures found { IfOk result (λ m. m ≡ octets) }
        ensures short { IsErr result ↔ (length octets < 12) }
    {
        if octets.as_slice().len() < 12 {
            return Err(ShortMessage);
        }
        Ok(Message { octets })
    }

    /// All its octets, those behind the last record too.
    pub fn as_slice(&self) -> &[u8]
        ensures all { result.now ≡ self.now }
        ensures long { 12 ≤ length self.now }
    {
        self.octets.as_slice()
    }

    /// The message of octets that are long enough.
    pub(crate) fn long(octets: Octets) -> Message
        requires { 12 ≤ length octets }
        ensures { result ≡ octets }
    {
        Message { octets }
    }

    /// The same message again.
    pub fn try_clone(&self) -> Result<Message, NoMemory>
        ensures { IfOk result (λ m. m ≡ self.now) }
    {
        let octets = self.octets.try_clone()?;
        Ok(Message::long(octets))
    }

    /// A copy of the id and the flags.
    pub fn header(&self) -> Header
        ensures { result ≡ header_of self.now }
    {
        let octets = self.as_slice();
        Header::from_octets([octets[0], octets[1], octets[2], octets[3]])
    }

    /// How many entries each section has.
    pub fn header_counts(&self) -> HeaderCounts
        ensures { result ≡ counts_of self.now }
    {
        HeaderCounts::of(self.as_slice())
    }

    /// Whether a section counts no record.
    pub fn has_no_records_in(&self, section: Section) -> bool
        ensures { IsTrue result ↔ (entries_in section (counts_of self.now) ≡ 0) }
    {
        self.header_counts().records_in(section) == 0
    }

    /// Sets the id and the flags. Where memory runs out the message is as it was.
    pub fn set_header(&mut self, alloc: Global, header: Header) -> Result<(), NoMemory>
        ensures ok { OnOk result (self.new ≡ header ++ drop 4 self.old) }
        ensures err { OnErr result (self.new ≡ self.old) }
    {
        let mut octets = Vec::from_slice(alloc, self.as_slice())?;
        header.put_over(&mut octets);
        self.octets = Octets::from_vec(octets)?;
        Ok(())
    }

    /// The questions, read one by one: so many as are counted, or up to the first that can't be read.
    pub fn question(&self) -> QuestionSection<'_>
        ensures all { result ≡ items_at (question_at self.now) (u16_at self.now 4) 12 }
        ensures few { length result < 65536 }
    {
        let octets = self.as_slice();
        QuestionSection::new(octets, 12, u16_at(octets, 4))
    }

    /// The first question, where it can be read.
    #[tactic(auto, unfolding(crate::specs::Message::first_question))]
    pub fn first_question(&self) -> Option<Question<'_>>
        ensures { result ≡ first_question self.now }
    {
        let octets = self.as_slice();
        if u16_at(octets, 4) == 0 {
            return None;
        }
        let (question, _) = Question::parse(octets, 12)?;
        Some(question)
    }

    /// The only question. Refused exactly where there is not just one, or it can't be read.
    #[tactic(auto, unfolding(crate::specs::Message::sole_question))]
    pub fn sole_question(&self) -> Result<Question<'_>, ParseError>
        ensures { MatchResult result (λ q. sole_question self.now ≡ Some q) (λ _. sole_question self.now ≡ None) }
    {
        let octets = self.as_slice();
        if u16_at(octets, 4) != 1 {
            return Err(ParseError);
        }
        match Question::parse(octets, 12) {
            None => Err(ParseError),
            Some((question, _)) => Ok(question),
        }
    }
}

impl Message {
    /// The records of the answer section. Refused exactly where the questions can't be read.
    #[inline]
    #[tactic(auto, unfolding(crate::specs::Message::answer_items))]
    pub fn answer(&self) -> Result<RecordSection<'_>, ParseError>
        ensures all { MatchResult result (λ s. answer_items self.now ≡ Some s) (λ _. answer_items self.now ≡ None) }
        ensures few { IfOk result (λ s. length s < 65536) }
    {
        let octets = self.as_slice();
        match answer_start(octets) {
            None => Err(ParseError),
            Some(at) => Ok(RecordSection::new(octets, at, u16_at(octets, 6))),
        }
    }

    /// The records of the authority section. Refused exactly where a section before it can't be read.
    #[tactic(auto, unfolding(crate::specs::Message::authority_items))]
    pub fn authority(&self) -> Result<RecordSection<'_>, ParseError>
        ensures all { MatchResult result (λ s. authority_items self.now ≡ Some s) (λ _. authority_items self.now ≡ None) }
        ensures few { IfOk result (λ s. length s < 65536) }
    {
        let octets = self.as_slice();
        match authority_start(octets) {
            None => Err(ParseError),
            Some(at) => Ok(RecordSection::new(octets, at, u16_at(octets, 8))),
        }
    }

    /// The records of the additional section. Refused exactly where a section before it can't be read.
    #[tactic(auto, unfolding(crate::specs::Message::additional_items))]
    pub fn additional(&self) -> Result<RecordSection<'_>, ParseError>
        ensures all { MatchResult result (λ s. additional_items self.now ≡ Some s) (λ _. additional_items self.now ≡ None) }
        ensures few { IfOk result (λ s. length s < 65536) }
    {
        let octets = self.as_slice();
        match additional_start(octets) {
            None => Err(ParseError),
            Some(at) => Ok(RecordSection::new(octets, at, u16_at(octets, 10))),
        }
    }
}

/// Where the octets after so many questions stand.
fn questions_end(octets: &[u8], count: u16, place: usize) -> Option<usize>
    ensures { result ≡ option_map (λ x. x.1) (list_at (question_at octets.now) count place) }
{
    let mut at = place;
    for _ in 0..count {
        let (_, end) = Question::parse(octets, at)?;
        at = end;
    }
    Some(at)
}

/// Where the octets after so many records stand.
fn records_end(octets: &[u8], count: u16, place: usize) -> Option<usize>
    ensures { result ≡ option_map (λ x. x.1) (list_at (record_at octets.now) count place) }
{
    let mut at = place;
    for _ in 0..count {
        let (_, end) = Record::parse(octets, at)?;
        at = end;
    }
    Some(at)
}

#[tactic(auto, unfolding(crate::specs::Message::questions_of))]
pub(crate) fn answer_start(octets: &[u8]) -> Option<usize>
    requires { 12 ≤ length octets.now }
    ensures { result ≡ option_map (λ x. x.1) (questions_of octets.now) }
{
    questions_end(octets, u16_at(octets, 4), 12)
}

#[tactic(auto, unfolding(crate::specs::Message::answer_of))]
fn authority_start(octets: &[u8]) -> Option<usize>
    requires { 12 ≤ length octets.now }
    ensures { result ≡ option_map (λ x. x.1) (answer_of octets.now) }
{
    records_end(octets, u16_at(octets, 6), answer_start(octets)?)
}

#[tactic(auto, unfolding(crate::specs::Message::authority_of))]
fn additional_start(octets: &[u8]) -> Option<usize>
    requires { 12 ≤ length octets.now }
    ensures { result ≡ option_map (λ x. x.1) (authority_of octets.now) }
{
    records_end(octets, u16_at(octets, 8), authority_start(octets)?)
}

impl Message {
    /// Its octets.
    pub fn into_octets(self) -> Octets
        ensures { result ≡ self }
    {
        let Message { octets } = self;
        octets
    }
}
