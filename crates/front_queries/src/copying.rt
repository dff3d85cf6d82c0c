//! Entries of a reply, copied into a builder.

ghost use Rattle.std.specs.Prelude.{◌≡◌, ◌<◌, IsTrue, MatchResult, Some, None};
ghost use Rattle.dns_base.specs.Data.{is_of_type, data_size};
ghost use Rattle.dns_base.specs.Draft.{counts_in};
ghost use Rattle.dns_base.specs.RecordData.{data_view};
ghost use Rattle.dns_base.specs.Sections.{HasNoRecords, HasNoneAfter};
ghost use Rattle.client_request.specs.Composed.{adds_opt, content_of, copies, copies_section, each, is_replaced, section_items, IsCopied};
ghost use Rattle.front_queries.specs.Answers.{asks_as};

use client_request::CopyRecordsError;
use dns_base::{
    Builder, Class, Message, Name, OptRecord, ParseError, Question, QuestionSection, Record,
    RecordData, RecordSection, Rtype, Section, Ttl,
};
use std::alloc::Global;

fn copy_question(
    question: &Question<'_>,
    name: &Name,
    target: &mut Builder,
) -> Result<(), CopyRecordsError>
    requires { HasNoRecords (counts_in target.old) }
    ensures copied { IsCopied (asks_as name.now question.now target.old) result target.new }
    ensures order { HasNoRecords (counts_in target.new) }
{
    target.push_question(name, question.qtype(), question.qclass())?;
    Ok(())
}

/// Copies questions under a name, up to the first that can't be read.
pub(crate) fn copy_questions(
    questions: QuestionSection<'_>,
    name: &Name,
    target: &mut Builder,
) -> Result<(), CopyRecordsError>
    requires { HasNoRecords (counts_in target.old) }
    ensures copied { IsCopied (each (asks_as name.now) questions.entry target.old) result target.new }
    ensures order { HasNoRecords (counts_in target.new) }
{
    for question in questions {
        copy_question(&question?, name, target)?;
    }
    Ok(())
}

/// The data of a record as its type reads it, else its octets.
fn copied_data<'a>(source: &Record<'a>) -> RecordData<'a>
    ensures value { data_view result ≡ content_of source.now.entry source.now.says }
    ensures typed { IsTrue (is_of_type source.now.entry.rtype (data_view result)) }
    ensures short { data_size (data_view result) < 65536 }
{
    match source.data() {
        Ok(content) => content,
        Err(_) => RecordData::Other(source.raw_data()),
    }
}

/// Whether this host's OPT record takes the place of a record.
fn is_replaced(section: Section, source: &Record<'_>) -> bool
    ensures { result ≡ is_replaced section source.now }
{
    match section {
        Section::Answer | Section::Authority => false,
        Section::Additional => source.rtype() == Rtype::OPT,
    }
}

fn copy_record(
    section: Section,
    source: &Record<'_>,
    target: &mut Builder,
) -> Result<(), CopyRecordsError>
    requires { HasNoneAfter section (counts_in target.old) }
    ensures copied { IsCopied (copies section source.now target.old) result target.new }
    ensures order { HasNoneAfter section (counts_in target.new) }
{
    if is_replaced(section, source) {
        return Ok(());
    }
    let content = copied_data(source);
    target.push_record(
        section,
        &source.owner(),
        source.class(),
        source.ttl(),
        source.rtype(),
        &content,
    )?;
    Ok(())
}

fn copy_records(
    section: Section,
    records: RecordSection<'_>,
    target: &mut Builder,
) -> Result<(), CopyRecordsError>
    requires { HasNoneAfter section (counts_in target.old) }
    ensures copied { IsCopied (each (copies section) records.entry target.old) result target.new }
    ensures order { HasNoneAfter section (counts_in target.new) }
{
    for source in records {
        copy_record(section, &source?, target)?;
    }
    Ok(())
}

/// The records of a section.
fn section_of(message: &Message, section: Section) -> Result<RecordSection<'_>, ParseError>
    ensures { MatchResult result (λ s. section_items section message.now ≡ Some s) (λ _. section_items section message.now ≡ None) }
{
    match section {
        Section::Answer => message.answer(),
        Section::Authority => message.authority(),
        Section::Additional => message.additional(),
    }
}

/// Copies a section, up to the first record that can't be read.
pub(crate) fn copy_section(
    section: Section,
    message: &Message,
    target: &mut Builder,
) -> Result<(), CopyRecordsError>
    requires { HasNoneAfter section (counts_in target.old) }
    ensures copied { IsCopied (copies_section section message.now target.old) result target.new }
    ensures order { HasNoneAfter section (counts_in target.new) }
{
    copy_records(section, section_of(message, section)?, target)
}

/// Adds an OPT record, if there is one.
pub(crate) fn add_opt(
    alloc: Global,
    opt: Option<OptRecord<'_>>,
    target: &mut Builder,
) -> Result<(), CopyRecordsError>
    ensures { IsCopied (adds_opt opt.entry target.old) result target.new }
{
    if let Some(opt) = opt {
        target.push_record(
            Section::Additional,
            &Name::root(alloc),
            Class(opt.udp_payload_size()),
            Ttl(
                u32::from(opt.ext_rcode()) * 0x100_0000
                    + u32::from(opt.version()) * 0x1_0000
                    + u32::from(opt.flags()),
            ),
            Rtype::OPT,
            &RecordData::Opt(opt.data()),
        )?;
    }
    Ok(())
}
