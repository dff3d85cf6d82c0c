//! Messages that are written, entry by entry.

ghost use Rattle.std.specs.Prelude.{◌≡◌, ◌+◌, ◌≤◌, ◌<◌, ◌^◌, ◌↔◌, ◌++◌, ℕ, length, take, drop, IfOk, IfSome, OnOk, OnErr, IsTrue};
ghost use Rattle.std.specs.Result.{result_err};
ghost use Rattle.dns_base.specs.Draft as spec;
ghost use Rattle.dns_base.specs.Compression.{with_question, with_record};
ghost use Rattle.dns_base.specs.Sections as sections;
ghost use Rattle.dns_base.specs.Data.{data_size, is_of_type};
ghost use Rattle.dns_base.specs.Holding.{IsAskable, IsWritable};
ghost use Rattle.dns_base.specs.RecordData.{data_view};
ghost use Rattle.dns_base.specs.Entries.{question_of, record_of};

use crate::compressor::Compressor;
use crate::header::{Header, HeaderCounts};
use crate::message::Message;
use crate::push_error::PushError;
use crate::record_data::RecordData;
use crate::spelling::{data_size, name_size};
use dns_names::{ParsedName, ToName};
use dns_values::{Class, NoMemory, Octets, Rtype, Section, Ttl};
use std::alloc::Global;
use std::marker::Model;

/// A message that is being written: its questions first, and then the records of each section in order (RFC 1035 4.1).
#[derive(Drop)]
pub struct Builder {
    target: Compressor,
    counts: HeaderCounts,
    limit: Option<u32>,
}

impl Model for Builder {
    ghost Value = { spec.Draft };

    ghost view = { λ b. record { target = b.target; counts = b.counts; limit = b.limit } };

    ghost invariant = { λ b. 12 ≤ length b.target.octets };
}

impl Builder {
    /// A message of twelve zero octets, which may grow to a limit of octets.
    #[tactic(auto, unfolding(crate::specs::Draft::fresh, crate::specs::Draft::counts_in, crate::specs::Draft::cleared))]
    pub fn new(alloc: Global, limit: Option<u32>) -> Result<Builder, NoMemory>
        requires { IfSome limit (λ l. 12 ≤ l) }
        ensures fresh { IfOk result (λ b. b ≡ spec.fresh limit) }
        ensures empty { IfOk result (λ b. spec.counts_in b ≡ sections.no_entries) }
        ensures clear { IfOk result (λ b. spec.cleared b ≡ b) }
    {
        let target = Compressor::new(alloc)?;
        Ok(Builder {
            target,
            counts: HeaderCounts::none(),
            limit,
        })
    }

    /// Sets the id and the flags.
    #[tactic(auto, unfolding(crate::specs::Draft::with_header, crate::specs::Draft::counts_in))]
    pub fn set_header(&mut self, header: Header)
        ensures set { self.new ≡ spec.with_header header self.old }
        ensures counts { spec.counts_in self.new ≡ spec.counts_in self.old }
    {
        self.target.put_header(header);
    }

    /// Refuses so many octets more, where so many entries stand.
    #[tactic(auto, unfolding(crate::specs::Draft::refusal, crate::specs::Draft::size, crate::specs::Draft::limit_of))]
    fn refuse(&self, entries: u16, more: usize) -> Result<(), PushError>
        requires { more < 2 ^ 32 }
        ensures refused { result_err result ≡ spec.refusal entries self.now more }
        ensures count { (result ≡ Err PushError.Count) ↔ (entries ≡ 65535) }
        ensures limit { result ≡ Err PushError.Limit → IsTrue (spec.is_past (spec.limit_of self.now) (spec.size self.now + more)) }
        ensures room { OnOk result (entries < 65535) }
        ensures fits { OnOk result (spec.IsWithin (spec.limit_of self.now) (spec.size self.now + more)) }
    {
        if entries == u16::MAX {
            return Err(PushError::Count);
        }
        match self.limit {
            Some(limit) => {
                if (limit as usize) < self.target.len() + more {
                    return Err(PushError::Limit);
                }
            }
            None => {}
        }
        Ok(())
    }

    /// Writes a question, or leaves all as it was.
    fn write_question(
        &mut self,
        name: &ParsedName<'_>,
        rtype: Rtype,
        class: Class,
    ) -> Result<(), NoMemory>
        ensures ok { OnOk result (self.new ≡ record self.old { target = with_question (question_of name.now rtype class) self.old.target }) }
        ensures err { OnErr result (self.new ≡ self.old) }
        ensures askable { OnOk result (IsAskable (question_of name.now rtype class)) }
    {
        let octets = self.target.len();
        let places = self.target.place_count();
        let written = self.target.put_question(name, rtype, class);
        if written.is_err() {
            self.target.back_to(octets, places);
        }
        written
    }

    /// Writes a record, or leaves all as it was.
    fn write_record(
        &mut self,
        owner: &ParsedName<'_>,
        rtype: Rtype,
        class: Class,
        ttl: Ttl,
        rdata: &RecordData<'_>,
    ) -> Result<(), NoMemory>
        requires typed { IsTrue (is_of_type rtype.0 (data_view rdata.now)) }
        requires short { data_size (data_view rdata.now) < 65536 }
        ensures ok { OnOk result (self.new ≡ record self.old { target = with_record (record_of owner.now rtype class ttl rdata.now) self.old.target }) }
        ensures err { OnErr result (self.new ≡ self.old) }
        ensures writable { OnOk result (IsWritable (record_of owner.now rtype class ttl rdata.now)) }
    {
        let octets = self.target.len();
        let places = self.target.place_count();
        let written = self.target.put_record(owner, rtype, class, ttl, rdata);
        if written.is_err() {
            self.target.back_to(octets, places);
        }
        written
    }

    /// Adds a question.
    #[tactic(auto, unfolding(crate::specs::Draft::pushed_question, crate::specs::Draft::cleared, crate::specs::Draft::size, crate::specs::Draft::limit_of, crate::specs::Draft::counts_in))]
    pub fn push_question<N: ToName>(
        &mut self,
        name: &N,
        rtype: Rtype,
        class: Class,
    ) -> Result<(), PushError>
        requires order { sections.HasNoRecords (spec.counts_in self.old) }
        ensures ok { OnOk result (self.new ≡ spec.pushed_question (question_of (N.labels_of name.now) rtype class) self.old) }
        ensures counted { OnOk result (spec.counts_in self.new ≡ sections.one_question_more (spec.counts_in self.old)) }
        ensures ordered { sections.HasNoRecords (spec.counts_in self.new) }
        ensures askable { OnOk result (IsAskable (question_of (N.labels_of name.now) rtype class)) }
        ensures err { OnErr result (self.new ≡ self.old) }
        ensures head { spec.cleared self.new ≡ spec.cleared self.old }
        ensures count { (result ≡ Err PushError.Count) ↔ ((spec.counts_in self.old).questions ≡ 65535) }
        ensures limit_only { result ≡ Err PushError.Limit → IsTrue (spec.passes self.old (spec.question_size (question_of (N.labels_of name.now) rtype class))) }
        ensures fits { OnOk result (spec.IsWithin (spec.limit_of self.new) (spec.size self.new)) }
        ensures refused { spec.Pushed (spec.question_refusal (question_of (N.labels_of name.now) rtype class) self.old) result }
    {
        let name = name.parsed();
        self.refuse(self.counts.qdcount(), name_size(&name) + 4)?;
        self.write_question(&name, rtype, class)?;
        self.counts.add_question();
        Ok(())
    }

    /// Adds a record to a section.
    #[tactic(auto, unfolding(crate::specs::Draft::pushed_record, crate::specs::Draft::cleared, crate::specs::Draft::size, crate::specs::Draft::limit_of, crate::specs::Draft::counts_in))]
    pub fn push_record<N: ToName>(
        &mut self,
        section: Section,
        owner: &N,
        class: Class,
        ttl: Ttl,
        rtype: Rtype,
        rdata: &RecordData<'_>,
    ) -> Result<(), PushError>
        requires order { sections.HasNoneAfter section (spec.counts_in self.old) }
        requires typed { IsTrue (is_of_type rtype.0 (data_view rdata.now)) }
        requires short { data_size (data_view rdata.now) < 65536 }
        ensures ok { OnOk result (self.new ≡ spec.pushed_record section (record_of (N.labels_of owner.now) rtype class ttl rdata.now) self.old) }
        ensures counted { OnOk result (spec.counts_in self.new ≡ sections.one_more_in section (spec.counts_in self.old)) }
        ensures ordered { sections.HasNoneAfter section (spec.counts_in self.new) }
        ensures writable { OnOk result (IsWritable (record_of (N.labels_of owner.now) rtype class ttl rdata.now)) }
        ensures err { OnErr result (self.new ≡ self.old) }
        ensures head { spec.cleared self.new ≡ spec.cleared self.old }
        ensures count { (result ≡ Err PushError.Count) ↔ (sections.entries_in section (spec.counts_in self.old) ≡ 65535) }
        ensures limit_only { result ≡ Err PushError.Limit → IsTrue (spec.passes self.old (spec.record_size (record_of (N.labels_of owner.now) rtype class ttl rdata.now))) }
        ensures fits { OnOk result (spec.IsWithin (spec.limit_of self.new) (spec.size self.new)) }
        ensures refused { spec.Pushed (spec.record_refusal section (record_of (N.labels_of owner.now) rtype class ttl rdata.now) self.old) result }
    {
        let owner = owner.parsed();
        self.refuse(
            self.counts.records_in(section),
            name_size(&owner) + 10 + data_size(rdata),
        )?;
        self.write_record(&owner, rtype, class, ttl, rdata)?;
        self.counts.add_record(section);
        Ok(())
    }

    /// Drops every entry, and keeps the header.
    #[tactic(auto, unfolding(crate::specs::Draft::cleared, crate::specs::Draft::counts_in))]
    pub fn clear(&mut self)
        ensures cleared { self.new ≡ spec.cleared self.old }
        ensures empty { spec.counts_in self.new ≡ sections.no_entries }
    {
        self.target.back_to(12, 0);
        self.counts = HeaderCounts::none();
    }

    /// The message.
    #[tactic(auto, unfolding(crate::specs::Draft::finished))]
    pub fn finish(self) -> Result<Message, NoMemory>
        ensures { IfOk result (λ m. m ≡ spec.finished self) }
    {
        let Builder {
            target,
            counts,
            limit: _,
        } = self;
        let mut octets = target.into_octets();
        counts.put_over(&mut octets);
        let octets = Octets::from_vec(octets)?;
        Ok(Message::long(octets))
    }
}
