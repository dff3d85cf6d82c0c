//! Records that were read, and those that were to be sent.

ghost use Rattle.std.specs.Prelude.{◌≡◌};
ghost use Rattle.dns_base.specs.RecordData.{data_view};
ghost use Rattle.client_request.specs.Composed.{content_of, written_from, is_replaced};
ghost use Rattle.message_judging.specs.matching.Matching as spec;

use crate::matching::opt::SentOpt;
use crate::matching::shapes::{is_same_data, plain_octets};
use dns_base::{Record, RecordData, RecordSection, Rtype, Section, is_same_name};

/// Whether data that was read is other data, by its type.
fn says_as(found: &Record<'_>, content: &RecordData<'_>) -> bool
    ensures { result ≡ spec.says_as found.now.says (data_view content.now) }
{
    match found.data() {
        Err(_) => false,
        Ok(data) => is_same_data(&data, content),
    }
}

/// Whether data that was read is other data, octet for octet where that has no name.
fn is_data_of(found: &Record<'_>, content: &RecordData<'_>) -> bool
    ensures { result ≡ spec.data_reads_as found.now (data_view content.now) }
{
    match plain_octets(content) {
        Some(octets) => found.raw_data() == octets,
        None => says_as(found, content),
    }
}

/// Whether data that was read is that of another record.
fn is_content_of(found: &Record<'_>, source: &Record<'_>) -> bool
    ensures { result ≡ spec.data_reads_as found.now (content_of source.now.entry source.now.says) }
{
    match source.data() {
        Err(_) => found.raw_data() == source.raw_data(),
        Ok(content) => is_data_of(found, &content),
    }
}

/// Whether a record that was read is another one.
fn is_copy_of(found: &Record<'_>, source: &Record<'_>) -> bool
    ensures { result ≡ spec.reads_as found.now (written_from source.now) }
{
    is_same_name(&found.owner(), &source.owner())
        && found.rtype().0 == source.rtype().0
        && found.class().0 == source.class().0
        && found.ttl().0 == source.ttl().0
        && is_content_of(found, source)
}

/// Whether the recorded OPT record takes the place of a record.
fn is_replaced(section: Section, source: &Record<'_>) -> bool
    ensures { result ≡ is_replaced section source.now }
{
    match section {
        Section::Answer | Section::Authority => false,
        Section::Additional => source.rtype() == Rtype::OPT,
    }
}

/// Takes the next record: whether it is read, and a copy.
fn next_is_copy(found: &mut RecordSection<'_>, source: &Record<'_>) -> bool
    ensures same { result ≡ spec.begins_with (written_from source.now) found.old }
    ensures rest { found.new ≡ spec.behind_first found.old }
{
    match found.next() {
        Some(Ok(record)) => is_copy_of(&record, source),
        _ => false,
    }
}

/// Whether what is left is the OPT record, or nothing where none was sent.
fn is_last(opt: &Option<SentOpt<'_>>, mut found: RecordSection<'_>) -> bool
    ensures { result ≡ spec.is_last opt.now found.entry }
{
    let is_here = match opt {
        None => true,
        Some(opt) => match found.next() {
            Some(Ok(record)) => opt.is_read_as(&record),
            _ => false,
        },
    };
    is_here && found.next().is_none()
}

/// Whether the records of a section are those of a base without the ones that are replaced, and then an OPT record.
pub(crate) fn are_copies(
    section: Section,
    opt: &Option<SentOpt<'_>>,
    mut found: RecordSection<'_>,
    base: RecordSection<'_>,
) -> bool
    ensures { result ≡ spec.carries_items section opt.now found.entry base.entry }
{
    for source in base {
        let source = match source {
            Err(_) => return false,
            Ok(source) => source,
        };
        if !is_replaced(section, &source) && !next_is_copy(&mut found, &source) {
            return false;
        }
    }
    is_last(opt, found)
}
