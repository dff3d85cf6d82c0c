//! Entries of a kept message, copied into a builder as they are given later.

ghost use Rattle.std.specs.Prelude.{◌≡◌, ◌&&◌};
ghost use Rattle.dns_base.specs.Sections.{HasNoRecords, HasNoneAfter};
ghost use Rattle.dns_base.specs.Draft.{counts_in, cleared};
ghost use Rattle.client_request.specs.Composed.{each, IsCopied};
ghost use Rattle.cache_rules.specs.Viewing.{asks_under, carries, carries_section, ttl_by, ttl_then};

use crate::keeping::{has_ttl, section_of};
use crate::key::is_signing;
use client_request::CopyRecordsError;
use dns_base::{
    Builder, Message, Name, Question, QuestionSection, Record, RecordSection, Section, Ttl,
};

/// With which TTL a record is copied.
#[derive(Clone, Copy)]
pub enum Ttls {
    /// Its own, less by so many seconds, 0 at least.
    Lessened(u32),
    /// 30 seconds, as that of a message that has expired (RFC 8767 5).
    Stale,
}

/// How a record is copied.
#[derive(Clone, Copy)]
pub(crate) struct Manner {
    /// Whether RRSIG, NSEC and NSEC3 are left out.
    pub(crate) drops_signing: bool,
    /// With which TTL.
    pub(crate) ttls: Ttls,
}

fn copy_question(
    question: &Question<'_>,
    name: &Name,
    target: &mut Builder,
) -> Result<(), CopyRecordsError>
    requires { HasNoRecords (counts_in target.old) }
    ensures copied { IsCopied (asks_under name.now question.now target.old) result target.new }
    ensures order { HasNoRecords (counts_in target.new) }
{
    target.push_question(name, question.qtype(), question.qclass())?;
    Ok(())
}

/// Copies questions under a name, up to the first that can't be read.
pub(crate) fn copy_questions(
    questions: QuestionSection<'_>,
    name: &Name,
    target: &mut Builder,
) -> Result<(), CopyRecordsError>
    requires { HasNoRecords (counts_in target.old) }
    ensures copied { IsCopied (each (asks_under name.now) questions.entry target.old) result target.new }
    ensures order { HasNoRecords (counts_in target.new) }
{
    for question in questions {
        copy_question(&question?, name, target)?;
    }
    Ok(())
}

/// A TTL as it is given.
fn ttl_by(ttls: Ttls, ttl: Ttl) -> Ttl
    ensures { result.0 ≡ ttl_by ttls ttl.0 }
{
    match ttls {
        Ttls::Lessened(seconds) => Ttl(ttl.0.saturating_sub(seconds)),
        Ttls::Stale => Ttl(30),
    }
}

/// The TTL with which a record is given.
fn ttl_then(section: Section, manner: Manner, source: &Record<'_>) -> Ttl
    ensures { result.0 ≡ ttl_then section manner.ttls source.now.entry.rtype source.now.entry.ttl }
{
    if has_ttl(section, source.rtype()) {
        ttl_by(manner.ttls, source.ttl())
    } else {
        source.ttl()
    }
}

fn copy_record(
    section: Section,
    manner: Manner,
    source: &Record<'_>,
    target: &mut Builder,
) -> Result<(), CopyRecordsError>
    requires { HasNoneAfter section (counts_in target.old) }
    ensures copied { IsCopied (carries section manner.drops_signing manner.ttls source.now target.old) result target.new }
    ensures order { HasNoneAfter section (counts_in target.new) }
{
    let content = source.data()?;
    if manner.drops_signing && is_signing(source.rtype()) {
        return Ok(());
    }
    target.push_record(
        section,
        &source.owner(),
        source.class(),
        ttl_then(section, manner, source),
        source.rtype(),
        &content,
    )?;
    Ok(())
}

fn copy_records(
    section: Section,
    manner: Manner,
    records: RecordSection<'_>,
    target: &mut Builder,
) -> Result<(), CopyRecordsError>
    requires { HasNoneAfter section (counts_in target.old) }
    ensures copied { IsCopied (each (carries section manner.drops_signing manner.ttls) records.entry target.old) result target.new }
    ensures order { HasNoneAfter section (counts_in target.new) }
{
    for source in records {
        copy_record(section, manner, &source?, target)?;
    }
    Ok(())
}

/// Copies the records of a section, up to the first that can't be read by its type.
pub(crate) fn copy_section(
    section: Section,
    manner: Manner,
    message: &Message,
    target: &mut Builder,
) -> Result<(), CopyRecordsError>
    requires { HasNoneAfter section (counts_in target.old) }
    ensures copied { IsCopied (carries_section section manner.drops_signing manner.ttls message.now target.old) result target.new }
    ensures order { HasNoneAfter section (counts_in target.new) }
{
    copy_records(section, manner, section_of(message, section)?, target)
}
