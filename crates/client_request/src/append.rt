//! A request's message, appended to a builder.

ghost use Rattle.std.specs.Prelude.{◌≡◌, ◌↔◌, IsTrue, true, is_some, OnErr, MatchResult, Some, None};
ghost use Rattle.dns_base.specs.Header.{counts_of};
ghost use Rattle.dns_base.specs.Message.{questions_of};
ghost use Rattle.dns_base.specs.Sections.{HasNoRecords, HasNoneAfter};
ghost use Rattle.dns_base.specs.Draft.{counts_in, cleared};
ghost use Rattle.client_request.specs.Request.{opt_written};
ghost use Rattle.client_request.specs.Composed.{section_items, copies_section, copies_records, adds_opt, copies_all, appended, IsCopied, HoldsNothing};

use crate::copying::{copy_questions, copy_records};
use crate::error::CopyRecordsError;
use dns_base::{
    Builder, Class, Header, Message, Name, OptRecord, ParseError, RecordData, RecordSection, Rtype,
    Section, Ttl,
};
use std::alloc::Global;

/// The records of a section.
pub(crate) fn section_of(base: &Message, section: Section) -> Result<RecordSection<'_>, ParseError>
    ensures { MatchResult result (λ s. section_items section base.now ≡ Some s) (λ _. section_items section base.now ≡ None) }
{
    match section {
        Section::Answer => base.answer(),
        Section::Authority => base.authority(),
        Section::Additional => base.additional(),
    }
}

fn copy_section(
    section: Section,
    base: &Message,
    target: &mut Builder,
) -> Result<(), CopyRecordsError>
    requires { HasNoneAfter section (counts_in target.old) }
    ensures copied { IsCopied (copies_section section base.now target.old) result target.new }
    ensures order { HasNoneAfter section (counts_in target.new) }
    ensures head { cleared target.new ≡ cleared target.old }
{
    copy_records(section, section_of(base, section)?, target)
}

/// The fields of an OPT record that stand in a record's TTL (RFC 6891 6.1.3).
fn opt_ttl(opt: &OptRecord<'_>) -> Ttl
    ensures { result.0 ≡ (opt_written opt.now).ttl }
{
    let high = u32::from(opt.ext_rcode()) * 0x100_0000 + u32::from(opt.version()) * 0x1_0000;
    Ttl(high + u32::from(opt.flags()))
}

/// Adds an OPT record to the additional section (RFC 6891 6.1.1).
fn add_opt(
    alloc: Global,
    opt: Option<OptRecord<'_>>,
    target: &mut Builder,
) -> Result<(), CopyRecordsError>
    ensures copied { IsCopied (adds_opt opt.entry target.old) result target.new }
    ensures head { cleared target.new ≡ cleared target.old }
{
    if let Some(opt) = opt {
        target.push_record(
            Section::Additional,
            &Name::root(alloc),
            Class(opt.udp_payload_size()),
            opt_ttl(&opt),
            Rtype::OPT,
            &RecordData::Opt(opt.data()),
        )?;
    }
    Ok(())
}

/// Whether no section counts a record.
pub(crate) fn has_no_records(base: &Message) -> bool
    ensures { IsTrue result ↔ HasNoRecords (counts_of base.now) }
{
    let counts = base.header_counts();
    counts.ancount() == 0 && counts.nscount() == 0 && counts.arcount() == 0
}

/// Copies the records of a base, whose questions are read.
fn copy_all_records(base: &Message, target: &mut Builder) -> Result<(), CopyRecordsError>
    requires read { is_some (questions_of base.now) ≡ true }
    requires order { HasNoRecords (counts_in target.old) }
    ensures copied { IsCopied (copies_records base.now target.old) result target.new }
    ensures head { cleared target.new ≡ cleared target.old }
{
    if has_no_records(base) {
        return Ok(());
    }
    copy_section(Section::Answer, base, target)?;
    copy_section(Section::Authority, base, target)?;
    copy_section(Section::Additional, base, target)
}

fn append_all(
    alloc: Global,
    base: &Message,
    opt: Option<OptRecord<'_>>,
    target: &mut Builder,
) -> Result<(), CopyRecordsError>
    requires { HoldsNothing target.old }
    ensures copied { IsCopied (copies_all base.now opt.entry target.old) result target.new }
    ensures head { cleared target.new ≡ cleared target.old }
{
    copy_questions(base.question(), target)?;
    copy_all_records(base, target)?;
    add_opt(alloc, opt, target)
}

/// Appends the entries of a base and an OPT record, under a header. A refusal leaves the target as it
/// was.
#[tactic(auto, unfolding(crate::specs::Composed::appended))]
pub(crate) fn append(
    alloc: Global,
    base: &Message,
    header: Header,
    opt: Option<OptRecord<'_>>,
    target: &mut Builder,
) -> Result<(), CopyRecordsError>
    requires { HoldsNothing target.old }
    ensures copied { IsCopied (appended (record { base = base.now; header = header; opt = opt.entry }) target.old) result target.new }
    ensures err { OnErr result (target.new ≡ target.old) }
{
    match append_all(alloc, base, opt, target) {
        Ok(()) => {
            target.set_header(header);
            Ok(())
        }
        Err(error) => {
            target.clear();
            Err(error)
        }
    }
}
