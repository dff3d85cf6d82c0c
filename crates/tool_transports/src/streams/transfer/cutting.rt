//! Messages that are cut into smaller ones.

ghost use Rattle.dns_base.specs.Sections.{HasNoRecords, HasNoneAfter};
ghost use Rattle.dns_values.specs.declared.numbers.Section.TheVariants.{Answer};
ghost use Rattle.dns_base.specs.Draft.{counts_in};

use dns_base::{Builder, Message, QuestionSection, Record, RecordSection, Section};
use std::alloc::Global;

fn push_questions(target: &mut Builder, questions: QuestionSection<'_>) -> Option<()>
    requires { HasNoRecords (counts_in target.old) }
    ensures { HasNoRecords (counts_in target.new) }
{
    for question in questions {
        let question = question.ok()?;
        target
            .push_question(&question.qname(), question.qtype(), question.qclass())
            .ok()?;
    }
    Some(())
}

fn push_answer(target: &mut Builder, source: &Record<'_>) -> Option<()>
    requires { HasNoneAfter Answer (counts_in target.old) }
    ensures { HasNoneAfter Answer (counts_in target.new) }
{
    target
        .push_record(
            Section::Answer,
            &source.owner(),
            source.class(),
            source.ttl(),
            source.rtype(),
            &source.data().ok()?,
        )
        .ok()
}

/// Pushes so many records behind so many others.
fn push_answers(
    target: &mut Builder,
    records: RecordSection<'_>,
    behind: u16,
    count: u16,
) -> Option<()>
    requires { HasNoneAfter Answer (counts_in target.old) }
{
    let mut before = behind;
    let mut left = count;
    for source in records {
        if before > 0 {
            before -= 1;
        } else if left > 0 {
            left -= 1;
            push_answer(target, &source.ok()?)?;
        }
    }
    Some(())
}

/// A message with the header and the questions of another, and so many of its answers behind so many others.
pub fn part_of(alloc: Global, message: &Message, behind: u16, count: u16) -> Option<Message> {
    let mut target = Builder::new(alloc, None).ok()?;
    target.set_header(message.header());
    push_questions(&mut target, message.question())?;
    push_answers(&mut target, message.answer().ok()?, behind, count)?;
    target.finish().ok()
}
