//! Whether the entries of a request have room in a message: they are read and counted, and none is written.

ghost use Rattle.std.specs.Prelude.{◌≡◌, true, is_some};
ghost use Rattle.dns_base.specs.Message.{questions_of};
ghost use Rattle.dns_base.specs.Sections.{no_entries};
ghost use Rattle.client_request.specs.Composed.{each, composed};
ghost use Rattle.client_request.specs.Composing.{without_message};
ghost use Rattle.client_request.specs.Counted.{counts_question, counts_record, counts_known, counts_section, counts_records, counts_opt, counts_all, IsCounted};

use crate::append::{has_no_records, section_of};
use crate::copying::is_replaced;
use crate::error::{CopyRecordsError, Error};
use dns_base::{
    Header, HeaderCounts, Message, OptRecord, PushError, Question, QuestionSection, Record,
    RecordSection, Section,
};

fn count_question(
    question: &Question<'_>,
    counts: &mut HeaderCounts,
) -> Result<(), CopyRecordsError>
    ensures { IsCounted (counts_question question.now counts.old) result counts.new }
{
    let _question = question;
    if counts.qdcount() == u16::MAX {
        return Err(CopyRecordsError::Push(PushError::Count));
    }
    counts.add_question();
    Ok(())
}

fn count_questions(
    questions: QuestionSection<'_>,
    counts: &mut HeaderCounts,
) -> Result<(), CopyRecordsError>
    ensures { IsCounted (each counts_question questions.entry counts.old) result counts.new }
{
    for question in questions {
        count_question(&question?, counts)?;
    }
    Ok(())
}

fn count_record(section: Section, counts: &mut HeaderCounts) -> Result<(), CopyRecordsError>
    ensures { IsCounted (counts_record section counts.old) result counts.new }
{
    if counts.records_in(section) == u16::MAX {
        return Err(CopyRecordsError::Push(PushError::Count));
    }
    counts.add_record(section);
    Ok(())
}

fn count_known(
    section: Section,
    source: &Record<'_>,
    counts: &mut HeaderCounts,
) -> Result<(), CopyRecordsError>
    ensures { IsCounted (counts_known section source.now counts.old) result counts.new }
{
    if is_replaced(section, source) {
        return Ok(());
    }
    count_record(section, counts)
}

fn count_records(
    section: Section,
    records: RecordSection<'_>,
    counts: &mut HeaderCounts,
) -> Result<(), CopyRecordsError>
    ensures { IsCounted (each (counts_known section) records.entry counts.old) result counts.new }
{
    for source in records {
        count_known(section, &source?, counts)?;
    }
    Ok(())
}

fn count_section(
    section: Section,
    base: &Message,
    counts: &mut HeaderCounts,
) -> Result<(), CopyRecordsError>
    ensures { IsCounted (counts_section section base.now counts.old) result counts.new }
{
    count_records(section, section_of(base, section)?, counts)
}

/// Counts the records of a base, whose questions are read.
fn count_all_records(base: &Message, counts: &mut HeaderCounts) -> Result<(), CopyRecordsError>
    requires { is_some (questions_of base.now) ≡ true }
    ensures { IsCounted (counts_records base.now counts.old) result counts.new }
{
    if has_no_records(base) {
        return Ok(());
    }
    count_section(Section::Answer, base, counts)?;
    count_section(Section::Authority, base, counts)?;
    count_section(Section::Additional, base, counts)
}

fn count_opt(opt: Option<OptRecord<'_>>, counts: &mut HeaderCounts) -> Result<(), CopyRecordsError>
    ensures { IsCounted (counts_opt opt.entry counts.old) result counts.new }
{
    match opt {
        None => Ok(()),
        Some(_) => count_record(Section::Additional, counts),
    }
}

fn count_all(
    base: &Message,
    opt: Option<OptRecord<'_>>,
    counts: &mut HeaderCounts,
) -> Result<(), CopyRecordsError>
    ensures { IsCounted (counts_all base.now opt.entry counts.old) result counts.new }
{
    count_questions(base.question(), counts)?;
    count_all_records(base, counts)?;
    count_opt(opt, counts)
}

/// Whether a message can be made of the entries of a base and an OPT record, or why not. It takes no
/// memory.
pub(crate) fn check(base: &Message, header: Header, opt: Option<OptRecord<'_>>) -> Result<(), Error>
    ensures { result ≡ without_message (composed (record { base = base.now; header = header; opt = opt.entry })) }
{
    let _header = header;
    let mut counts = HeaderCounts::none();
    match count_all(base, opt, &mut counts) {
        Ok(()) => Ok(()),
        Err(error) => Err(Error::from(error)),
    }
}
