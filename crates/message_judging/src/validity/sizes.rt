//! How many entries a base has in each section, and how many octets the message of a request has without compression.

ghost use Rattle.std.specs.Prelude.{◌≡◌, ◌≤◌, ◌<◌, ◌+◌, length, MatchResult, Some, None};
ghost use Rattle.dns_names.specs.Name.{octet_count};
ghost use Rattle.dns_base.specs.Data.{data_size};
ghost use Rattle.dns_base.specs.Forms.{second_size};
ghost use Rattle.dns_base.specs.RecordData.{data_view};
ghost use Rattle.client_request.specs.Composed.{content_of, is_replaced, section_items};
ghost use Rattle.message_judging.specs.validity.Sizes as spec;

use dns_base::{
    Message, ParseError, ParsedName, Question, QuestionSection, Record, RecordData, RecordSection,
    Rtype, Section,
};

/// How many entries, and how many octets they have. Of each, 65536 are as many as more.
#[derive(Clone, Copy, Debug, Drop)]
pub struct Size {
    pub entries: u32,
    pub octets: u32,
}

/// What a base has: its entries by section, but for OPT records in the additional one, and the octets of all of it. Of each,
/// 65536 are as many as more.
#[derive(Clone, Copy, Debug, Drop)]
pub struct BaseSize {
    pub questions: u32,
    pub answer: u32,
    pub authority: u32,
    pub additional: u32,
    pub octets: u32,
}

fn at_most(count: u32) -> u32
    ensures { result ≡ spec.most count }
{
    if count < 65536 { count } else { 65536 }
}

/// One entry more, of so many octets.
fn more(octets: usize, size: Size) -> Size
    ensures { result ≡ spec.more octets size }
{
    let octets = if octets < 65536 { octets as u32 } else { 65536 };
    Size {
        entries: at_most(at_most(size.entries) + 1),
        octets: at_most(at_most(size.octets) + octets),
    }
}

/// How many octets a name has spelled out.
fn name_size(name: &ParsedName<'_>) -> usize
    ensures all { result ≡ octet_count name.now }
    ensures few { result ≤ 255 }
{
    let mut count = 1;
    for label in name.labels() {
        count += 1 + label.len();
    }
    count
}

/// How many octets a second name has, if there is one.
fn second_size(second: &Option<ParsedName<'_>>) -> usize
    ensures all { result ≡ second_size second.now }
    ensures few { result ≤ 255 }
{
    match second {
        Some(name) => name_size(name),
        None => 0,
    }
}

fn count_octets(octets: &[u8]) -> usize
    ensures { result ≡ length octets.now }
{
    octets.len()
}

/// How many octets data with names between octets has.
fn named_size(
    before: &[u8],
    first: &ParsedName<'_>,
    second: &Option<ParsedName<'_>>,
    behind: &[u8],
) -> usize
    requires { length before.now + length behind.now < 65536 }
    ensures { result ≡ length before.now + octet_count first.now + second_size second.now + length behind.now }
{
    before.len() + name_size(first) + second_size(second) + behind.len()
}

/// How many octets data has with its names spelled out.
fn data_size(content: &RecordData<'_>) -> usize
    requires { data_size (data_view content.now) < 65536 }
    ensures { result ≡ data_size (data_view content.now) }
{
    match content {
        RecordData::A(address) => count_octets(address),
        RecordData::Aaaa(address) => count_octets(address),
        RecordData::Ns(name)
        | RecordData::Md(name)
        | RecordData::Mf(name)
        | RecordData::Cname(name)
        | RecordData::Mb(name)
        | RecordData::Mg(name)
        | RecordData::Mr(name)
        | RecordData::Ptr(name)
        | RecordData::Dname(name) => name_size(name),
        RecordData::Minfo(first, second) => name_size(first) + name_size(second),
        RecordData::Mx(_, name) => 2 + name_size(name),
        RecordData::Soa { mname, rname, .. } => name_size(mname) + name_size(rname) + 20,
        RecordData::Srv { target, .. } => 6 + name_size(target),
        RecordData::Named {
            before,
            first,
            second,
            behind,
        } => named_size(before, first, second, behind),
        RecordData::Txt(octets) | RecordData::Opt(octets) | RecordData::Other(octets) => {
            octets.len()
        }
    }
}

/// How many octets the data of a record has, as its type reads it, else as it stands.
fn content_size(source: &Record<'_>) -> usize
    ensures { result ≡ data_size (content_of source.now.entry source.now.says) }
{
    match source.data() {
        Ok(content) => data_size(&content),
        Err(_) => source.raw_data().len(),
    }
}

/// One record more.
fn with_record(source: &Record<'_>, size: Size) -> Size
    ensures { result ≡ spec.with_record source.now size }
{
    let content = content_size(source);
    let content = if content < 65536 { content } else { 65536 };
    more(name_size(&source.owner()) + 10 + content, size)
}

/// One question more.
fn with_question(question: &Question<'_>, size: Size) -> Size
    ensures { result ≡ spec.with_question question.now size }
{
    more(name_size(&question.qname()) + 4, size)
}

/// Questions behind others. Refused exactly where one can't be read.
fn size_of_questions(questions: QuestionSection<'_>, before: Size) -> Result<Size, ParseError>
    ensures { MatchResult result (λ n. spec.questions_behind questions.entry before ≡ Some n) (λ _. spec.questions_behind questions.entry before ≡ None) }
{
    let mut size = before;
    for question in questions {
        size = with_question(&question?, size);
    }
    Ok(size)
}

/// Whether the recorded OPT record takes the place of a record.
fn is_replaced(section: Section, source: &Record<'_>) -> bool
    ensures { result ≡ is_replaced section source.now }
{
    match section {
        Section::Answer | Section::Authority => false,
        Section::Additional => source.rtype() == Rtype::OPT,
    }
}

/// A record more, unless it is replaced.
fn with_sent(section: Section, source: &Record<'_>, size: Size) -> Size
    ensures { result ≡ spec.with_sent section source.now size }
{
    if is_replaced(section, source) {
        size
    } else {
        with_record(source, size)
    }
}

/// Records behind others. Refused exactly where one can't be read.
fn size_of_records(
    section: Section,
    records: RecordSection<'_>,
    before: Size,
) -> Result<Size, ParseError>
    ensures { MatchResult result (λ n. spec.records_behind section records.entry before ≡ Some n) (λ _. spec.records_behind section records.entry before ≡ None) }
{
    let mut size = before;
    for record in records {
        size = with_sent(section, &record?, size);
    }
    Ok(size)
}

/// The records of a section. Refused exactly where a section before it can't be read.
fn section_of(message: &Message, section: Section) -> Result<RecordSection<'_>, ParseError>
    ensures { MatchResult result (λ s. section_items section message.now ≡ Some s) (λ _. section_items section message.now ≡ None) }
{
    match section {
        Section::Answer => message.answer(),
        Section::Authority => message.authority(),
        Section::Additional => message.additional(),
    }
}

/// A section behind so many octets. Refused exactly where it or one before it can't be read.
fn size_of_section(message: &Message, section: Section, octets: u32) -> Result<Size, ParseError>
    ensures { MatchResult result (λ n. spec.section_behind section message.now octets ≡ Some n) (λ _. spec.section_behind section message.now octets ≡ None) }
{
    let before = Size { entries: 0, octets };
    size_of_records(section, section_of(message, section)?, before)
}

impl BaseSize {
    /// What a base has. Refused exactly where it can't be read.
    pub(crate) fn of(base: &Message) -> Result<BaseSize, ParseError>
        ensures { MatchResult result (λ n. spec.size_of_base base.now ≡ Some n) (λ _. spec.size_of_base base.now ≡ None) }
    {
        let before = Size {
            entries: 0,
            octets: 12,
        };
        let questions = size_of_questions(base.question(), before)?;
        let answer = size_of_section(base, Section::Answer, questions.octets)?;
        let authority = size_of_section(base, Section::Authority, answer.octets)?;
        let additional = size_of_section(base, Section::Additional, authority.octets)?;
        Ok(BaseSize {
            questions: questions.entries,
            answer: answer.entries,
            authority: authority.entries,
            additional: additional.entries,
            octets: additional.octets,
        })
    }
}
