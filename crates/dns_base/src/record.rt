//! Records, and the sections that have them.

ghost use Rattle.std.specs.Prelude.{◌≡◌, ◌+◌, ◌≤◌, ◌<◌, length, List, Result, Option, MatchResult, IfOk, Some, None, slice_range, option_map, IsTrue};
ghost use Rattle.std.specs.Iterator.{YieldsFirst, item_count};
ghost use Rattle.dns_values.specs.declared.error.ParseError.{ParseError};
ghost use Rattle.dns_base.specs.Data.{data_at, data_size, is_of_type, whole, are_options, Opt};
ghost use Rattle.dns_base.specs.Message.{Known, record_at, items_at};
ghost use Rattle.dns_base.specs.RecordData.{data_view};
ghost use Rattle.dns_base.specs.DataReading.{DataReadsAs};

use crate::numbers::{u16_at, u32_at};
use crate::record_data::{RecordData, data_at};
use dns_names::ParsedName;
use dns_values::{Class, ParseError, Rtype, Ttl};
use std::marker::Model;

/// A record of a message.
#[derive(Drop)]
pub struct Record<'a> {
    octets: &'a [u8],
    owner: ParsedName<'a>,
    rtype: Rtype,
    class: Class,
    ttl: Ttl,
    at: usize,
    end: usize,
}

impl<'a> Model for Record<'a> {
    ghost Value = { Known };

    ghost view = { λ r. record {
      entry = record {
        owner = r.owner;
        rtype = r.rtype.0;
        class = r.class.0;
        ttl = r.ttl.0;
        octets = slice_range r.octets.now r.at r.end;
      };
      says = data_at r.rtype.0 r.octets.now r.at r.end;
    } };

    ghost invariant = { λ r. (r.at ≤ r.end) × (r.end ≤ length r.octets.now) × (r.end < r.at + 65536) };
}

impl<'a> Record<'a> {
    /// The name that the record belongs to.
    pub fn owner(&self) -> ParsedName<'a>
        ensures { result ≡ self.now.entry.owner }
    {
        self.owner.again()
    }

    /// The type, which says how the data is read.
    pub fn rtype(&self) -> Rtype
        ensures { result.0 ≡ self.now.entry.rtype }
    {
        self.rtype
    }

    /// The class; that of an OPT record is a size.
    pub fn class(&self) -> Class
        ensures { result.0 ≡ self.now.entry.class }
    {
        self.class
    }

    /// How long it may be kept, in seconds.
    pub fn ttl(&self) -> Ttl
        ensures { result.0 ≡ self.now.entry.ttl }
    {
        self.ttl
    }

    /// The data as it stands.
    pub fn raw_data(&self) -> &'a [u8]
        ensures all { result.now ≡ self.now.entry.octets }
        ensures short { length result.now < 65536 }
    {
        &self.octets[self.at..self.end]
    }

    /// The data, read by its type. Refused exactly where its parts don't fill it.
    #[tactic(auto, unfolding(crate::specs::Data::data_at))]
    pub fn data(&self) -> Result<RecordData<'a>, ParseError>
        ensures says { MatchResult result (λ d. self.now.says ≡ Some (data_view d)) (λ _. self.now.says ≡ None) }
        ensures itself { IfOk result (λ d. DataReadsAs self.now (data_view d)) }
        ensures typed { IfOk result (λ d. IsTrue (is_of_type self.now.entry.rtype (data_view d))) }
        ensures short { IfOk result (λ d. data_size (data_view d) < 65536) }
        ensures options { self.now.entry.rtype ≡ 41 → self.now.says ≡ whole are_options Opt self.now.entry.octets }
    {
        data_at(self.rtype, self.octets, self.at, self.end)
    }

    /// The record at a place, and where the octets after it stand.
    #[tactic(auto, unfolding(crate::specs::Message::record_at))]
    pub(crate) fn parse(octets: &'a [u8], place: usize) -> Option<(Record<'a>, usize)>
        ensures { result ≡ record_at octets.now place }
    {
        let (owner, after) = ParsedName::parse(octets, place)?;
        if octets.len() < after + 10 {
            return None;
        }
        let at = after + 10;
        let end = at + u16_at(octets, after + 8) as usize;
        if octets.len() < end {
            return None;
        }
        let rtype = Rtype(u16_at(octets, after));
        let class = Class(u16_at(octets, after + 2));
        let ttl = Ttl(u32_at(octets, after + 4));
        Some((
            Record {
                octets,
                owner,
                rtype,
                class,
                ttl,
                at,
                end,
            },
            end,
        ))
    }
}

/// The records of a section, read one by one.
#[derive(Drop)]
pub struct RecordSection<'a> {
    octets: &'a [u8],
    at: usize,
    left: u16,
}

impl<'a> Model for RecordSection<'a> {
    ghost Value = { List (Result Known ParseError) };

    ghost view = { λ s. items_at (record_at s.octets.now) s.left s.at };
}

impl<'a> RecordSection<'a> {
    pub(crate) fn new(octets: &'a [u8], at: usize, left: u16) -> Self
        ensures all { result ≡ items_at (record_at octets.now) left at }
        ensures few { length result < 65536 }
    {
        RecordSection { octets, at, left }
    }
}

impl<'a> Iterator for RecordSection<'a> {
    type Item = Result<Record<'a>, ParseError>;

    ghost next_gives = { YieldsFirst (λ s. s) };

    ghost remaining = { item_count (λ s. s) };

    #[tactic(auto, unfolding(crate::specs::Message::items_at))]
    fn next(&mut self) -> Option<Result<Record<'a>, ParseError>> {
        if self.left == 0 {
            return None;
        }
        match Record::parse(self.octets, self.at) {
            None => {
                self.left = 0;
                Some(Err(ParseError))
            }
            Some((record, end)) => {
                self.left -= 1;
                self.at = end;
                Some(Ok(record))
            }
        }
    }
}
