//! Entries of a base message, copied into a builder.

ghost use Rattle.std.specs.Prelude.{◌≡◌, ◌<◌, IsTrue, length};
ghost use Rattle.dns_base.specs.Sections.{HasNoRecords, HasNoneAfter};
ghost use Rattle.dns_base.specs.Data.{is_of_type, data_size};
ghost use Rattle.dns_base.specs.RecordData.{data_view};
ghost use Rattle.dns_base.specs.Draft.{counts_in, cleared};
ghost use Rattle.client_request.specs.Composed.{content_of, asks, adds, copies, each, written_from, is_replaced, IsCopied};

use crate::error::CopyRecordsError;
use dns_base::{
    Builder, Question, QuestionSection, Record, RecordData, RecordSection, Rtype, Section,
};

fn copy_question(question: &Question<'_>, target: &mut Builder) -> Result<(), CopyRecordsError>
    requires { HasNoRecords (counts_in target.old) }
    ensures copied { IsCopied (asks question.now target.old) result target.new }
    ensures order { HasNoRecords (counts_in target.new) }
    ensures head { cleared target.new ≡ cleared target.old }
{
    target.push_question(&question.qname(), question.qtype(), question.qclass())?;
    Ok(())
}

/// Copies questions, up to the first that can't be read or is refused.
pub(crate) fn copy_questions(
    questions: QuestionSection<'_>,
    target: &mut Builder,
) -> Result<(), CopyRecordsError>
    requires { HasNoRecords (counts_in target.old) }
    ensures copied { IsCopied (each asks questions.entry target.old) result target.new }
    ensures order { HasNoRecords (counts_in target.new) }
    ensures head { cleared target.new ≡ cleared target.old }
{
    for question in questions {
        copy_question(&question?, target)?;
    }
    Ok(())
}

/// The data of a record as its type reads it, else its octets.
fn copied_data<'a>(source: &Record<'a>) -> RecordData<'a>
    ensures value { data_view result ≡ content_of source.now.entry source.now.says }
    ensures typed { IsTrue (is_of_type source.now.entry.rtype (data_view result)) }
    ensures short { data_size (data_view result) < 65536 }
{
    match source.data() {
        Ok(content) => content,
        Err(_) => RecordData::Other(source.raw_data()),
    }
}

fn push_copy(
    section: Section,
    source: &Record<'_>,
    target: &mut Builder,
) -> Result<(), CopyRecordsError>
    requires { HasNoneAfter section (counts_in target.old) }
    ensures copied { IsCopied (adds section (written_from source.now) target.old) result target.new }
    ensures order { HasNoneAfter section (counts_in target.new) }
    ensures head { cleared target.new ≡ cleared target.old }
{
    let content = copied_data(source);
    target.push_record(
        section,
        &source.owner(),
        source.class(),
        source.ttl(),
        source.rtype(),
        &content,
    )?;
    Ok(())
}

/// Whether the recorded OPT record takes the place of a record.
pub(crate) fn is_replaced(section: Section, source: &Record<'_>) -> bool
    ensures { result ≡ is_replaced section source.now }
{
    match section {
        Section::Answer | Section::Authority => false,
        Section::Additional => source.rtype() == Rtype::OPT,
    }
}

fn copy_record(
    section: Section,
    source: &Record<'_>,
    target: &mut Builder,
) -> Result<(), CopyRecordsError>
    requires { HasNoneAfter section (counts_in target.old) }
    ensures copied { IsCopied (copies section source.now target.old) result target.new }
    ensures order { HasNoneAfter section (counts_in target.new) }
    ensures head { cleared target.new ≡ cleared target.old }
{
    if is_replaced(section, source) {
        return Ok(());
    }
    push_copy(section, source, target)
}

/// Copies the records of a section, up to the first that can't be read or is refused.
pub(crate) fn copy_records(
    section: Section,
    records: RecordSection<'_>,
    target: &mut Builder,
) -> Result<(), CopyRecordsError>
    requires { HasNoneAfter section (counts_in target.old) }
    ensures copied { IsCopied (each (copies section) records.entry target.old) result target.new }
    ensures order { HasNoneAfter section (counts_in target.new) }
    ensures head { cleared target.new ≡ cleared target.old }
{
    for source in records {
        copy_record(section, &source?, target)?;
    }
    Ok(())
}
