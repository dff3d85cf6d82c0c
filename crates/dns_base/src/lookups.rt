//! What is found in the sections of a message.

ghost use Rattle.std.specs.Prelude.{◌≡◌, ◌≤◌, length, take, option_map, IfSome, Some};
ghost use Rattle.dns_base.specs.Message.{is_xfr, all_read, answer_records};
ghost use Rattle.dns_base.specs.OptRecord.{opt_of, opt_rcode};
ghost use Rattle.dns_base.specs.AliasTable.{HasTable};
ghost use Rattle.dns_base.specs.Canonical.{is_alias, alias_in, target_in, canonical_name};

use crate::alias_table::{self, MOST_ALIASES, find_alias};
use crate::message::{Message, answer_start};
use crate::numbers::u16_at;
use crate::opt_record::OptRecord;
use crate::record::{Record, RecordSection};
use crate::record_data::RecordData;
use dns_names::{ParsedName, is_same_name};
use dns_values::{OptRcode, Rtype};

/// Whether a record is an alias of an owner.
fn is_alias(entry: &Record<'_>, owner: &ParsedName<'_>) -> bool
    ensures { result ≡ is_alias owner.now entry.now }
{
    entry.rtype() == Rtype::CNAME && is_same_name(&entry.owner(), owner)
}

/// The first alias of an owner, where all records are read.
fn first_alias<'a>(records: RecordSection<'a>, owner: &ParsedName<'_>) -> Option<Option<Record<'a>>>
    ensures { result ≡ option_map (alias_in owner.now) (all_read records.entry) }
{
    let mut found = None;
    for record in records {
        let record = record.ok()?;
        if found.is_none() && is_alias(&record, owner) {
            found = Some(record);
        }
    }
    Some(found)
}

/// The name that an alias stands for, if its data is read.
fn alias_target<'a>(alias: &Record<'a>) -> Option<ParsedName<'a>>
    ensures { result ≡ target_in alias.now.says }
{
    match alias.data() {
        Ok(RecordData::Cname(target)) => Some(target),
        _ => None,
    }
}

impl Message {
    /// The first OPT record of the additional section whose data is read, before the first record that can't be read.
    #[tactic(auto, unfolding(crate::specs::OptRecord::opt_of))]
    pub fn opt(&self) -> Option<OptRecord<'_>>
        ensures { result ≡ opt_of self.now }
    {
        OptRecord::first(self.additional().ok()?)
    }

    /// The twelve bits of the response code: those of the OPT record, if one is found, above those of the header.
    #[tactic(auto, unfolding(crate::specs::OptRecord::opt_rcode))]
    pub fn opt_rcode(&self) -> OptRcode
        ensures { result.0 ≡ opt_rcode self.now }
    {
        let high = match self.opt() {
            Some(opt) => opt.ext_rcode() as u16,
            None => 0,
        };
        OptRcode(16 * high + self.header().rcode().0 as u16)
    }

    /// Whether the first question is read and asks for a zone transfer.
    #[tactic(auto, unfolding(crate::specs::Message::is_xfr))]
    pub fn is_xfr(&self) -> bool
        ensures { result ≡ is_xfr self.now }
    {
        match self.first_question() {
            Some(question) => question.qtype() == Rtype::AXFR || question.qtype() == Rtype::IXFR,
            None => false,
        }
    }

    /// The table of the aliases of the answer section, and how many places it has. None where the section can't be read, or
    /// there is no room.
    fn tabulate(&self, places: &mut [u16]) -> Option<usize>
        ensures counted { IfSome result (λ n. n ≤ length places.new) }
        ensures made { IfSome result (λ n. HasTable self.now (take n places.new)) }
    {
        let octets = self.as_slice();
        let start = answer_start(octets)?;
        alias_table::tabulate(octets, start, u16_at(octets, 6), places)
    }

    /// The first alias of an owner in the answer section, by the table of that.
    fn tabled_alias(&self, places: &[u16], owner: &ParsedName<'_>) -> Option<Record<'_>>
        requires { HasTable self.now places.now }
        ensures { Some result ≡ option_map (alias_in owner.now) (answer_records self.now) }
    {
        find_alias(self.as_slice(), places, owner)
    }

    /// The first alias of an owner in the answer section, where that is read, by a walk.
    fn walked_alias(&self, owner: &ParsedName<'_>) -> Option<Option<Record<'_>>>
        ensures { result ≡ option_map (alias_in owner.now) (answer_records self.now) }
    {
        match self.answer() {
            Ok(records) => first_alias(records, owner),
            Err(_) => None,
        }
    }

    /// The first alias of an owner in the answer section, where that is read: by a table, if there is one.
    fn alias_of(&self, table: Option<&[u16]>, owner: &ParsedName<'_>) -> Option<Option<Record<'_>>>
        requires { IfSome table (λ places. HasTable self.now places.now) }
        ensures { result ≡ option_map (alias_in owner.now) (answer_records self.now) }
    {
        match table {
            Some(places) => Some(self.tabled_alias(places, owner)),
            None => self.walked_alias(owner),
        }
    }

    /// The name that aliases lead to: by a table of them, if there is one.
    #[tactic(auto, unfolding(crate::specs::Canonical::canonical_name))]
    fn followed(&self, table: Option<&[u16]>) -> Option<ParsedName<'_>>
        requires { IfSome table (λ places. HasTable self.now places.now) }
        ensures { result ≡ canonical_name self.now }
    {
        let mut name = self.first_question()?.qname();
        let mut left = self.header_counts().ancount();
        'steps: loop {
            let alias = match self.alias_of(table, &name)? {
                None => return Some(name),
                Some(alias) => alias,
            };
            if left == 0 {
                return None;
            }
            left -= 1;
            name = alias_target(&alias)?;
        }
    }

    /// The name that the first question's name leads to by the aliases of the answer section. None where the question,
    /// the section or the data of such an alias can't be read, or where more steps are made than there are answers.
    pub fn canonical_name(&self) -> Option<ParsedName<'_>>
        ensures { result ≡ canonical_name self.now }
    {
        let mut places = [0; MOST_ALIASES];
        match self.tabulate(&mut places) {
            Some(count) => self.followed(Some(&places[..count])),
            None => self.followed(None),
        }
    }
}
