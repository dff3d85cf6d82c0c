//! What a message says, as a document of YAML has it.

use crate::data::data_text;
use dns_base::{
    Header, Message, NoMemory, ParseError, Question, Record, RecordData, RecordSection,
};
use dns_lookup_words::Layout;
use dns_presentation::Absolute;
use std::alloc::Global;
use std::fmt::{self, Display};

fn write_flag<W: fmt::Write>(is_set: bool, word: &str, f: &mut fmt::Formatter<W>) -> fmt::Result {
    if is_set { write!(f, " {word}") } else { Ok(()) }
}

/// The flags of a header, each behind a blank.
#[derive(Clone, Copy)]
struct FlagWords(Header);

impl Display for FlagWords {
    fn fmt<W: fmt::Write>(&self, f: &mut fmt::Formatter<W>) -> fmt::Result {
        let header = self.0;
        write_flag(header.qr(), "qr", f)?;
        write_flag(header.aa(), "aa", f)?;
        write_flag(header.tc(), "tc", f)?;
        write_flag(header.rd(), "rd", f)?;
        write_flag(header.ra(), "ra", f)?;
        write_flag(header.ad(), "ad", f)?;
        write_flag(header.cd(), "cd", f)
    }
}

/// The header, line by line.
fn head_text(alloc: Global, message: &Message) -> Result<String, NoMemory> {
    let header = message.header();
    let flags = FlagWords(header);
    let opcode = header.opcode();
    let status = message.opt_rcode();
    let id = header.id();
    Ok(format!(in alloc;
        "      opcode: {opcode}\n      status: {status}\n      id: {id}\n      flags:{flags}\n"
    )?)
}

/// How many entries each section has, line by line.
fn counts_text(alloc: Global, message: &Message) -> Result<String, NoMemory> {
    let counts = message.header_counts();
    let questions = counts.qdcount();
    let answers = counts.ancount();
    let authorities = counts.nscount();
    let additionals = counts.arcount();
    Ok(format!(in alloc;
        "      QUESTION: {questions}\n      ANSWER: {answers}\n      AUTHORITY: {authorities}\n      ADDITIONAL: {additionals}\n"
    )?)
}

/// Adds an entry of a section in quotes; one within it stands twice.
fn push_entry(text: &mut String, entry: &str) -> Result<(), NoMemory> {
    text.push_str("        - '")?;
    for sign in entry.chars() {
        if sign == '\'' {
            text.push(sign)?;
        }
        text.push(sign)?;
    }
    text.push_str("'\n")?;
    Ok(())
}

fn question_text(alloc: Global, question: &Question<'_>) -> Result<String, NoMemory> {
    let qname = question.qname();
    let qclass = question.qclass();
    let qtype = question.qtype();
    Ok(format!(in alloc; "{} {qclass} {qtype}", Absolute(&qname))?)
}

fn record_text(alloc: Global, layout: Layout, record: &Record<'_>) -> Result<String, NoMemory> {
    let owner = record.owner();
    let ttl = record.ttl().0;
    let class = record.class();
    let rtype = record.rtype();
    let data = data_text(alloc, layout, record)?;
    Ok(format!(in alloc; "{} {ttl} {class} {rtype} {data}", Absolute(&owner))?)
}

/// Adds the questions, up to the first that can't be read.
fn push_questions(alloc: Global, text: &mut String, message: &Message) -> Result<(), NoMemory> {
    if message.header_counts().qdcount() == 0 {
        return Ok(());
    }
    text.push_str("      QUESTION_SECTION:\n")?;
    for question in message.question() {
        let Ok(question) = question else {
            return Ok(());
        };
        let entry = question_text(alloc, &question)?;
        push_entry(text, entry.as_str())?;
    }
    Ok(())
}

/// Adds the records of a section but for OPT records, up to the first that can't be read, behind its title where there are any.
fn push_records(
    alloc: Global,
    layout: Layout,
    text: &mut String,
    title: &str,
    records: Result<RecordSection<'_>, ParseError>,
) -> Result<(), NoMemory> {
    let Ok(records) = records else {
        return Ok(());
    };
    let mut is_begun = false;
    for record in records {
        let Ok(record) = record else {
            return Ok(());
        };
        if matches!(record.data(), Ok(RecordData::Opt(_))) {
            continue;
        }
        if !is_begun {
            text.push_str("      ")?;
            text.push_str(title)?;
            text.push_str("_SECTION:\n")?;
            is_begun = true;
        }
        let entry = record_text(alloc, layout, &record)?;
        push_entry(text, entry.as_str())?;
    }
    Ok(())
}

/// An OPT record (RFC 6891 6.1.3), line by line.
fn extension_text(alloc: Global, record: &Record<'_>) -> Result<String, NoMemory> {
    let ttl = record.ttl().0;
    let version = ttl / 65_536 % 256;
    let flags = if ttl / 32_768 % 2 == 1 { " do" } else { "" };
    let size = record.class().0;
    Ok(format!(in alloc;
        "      OPT_PSEUDOSECTION:\n        EDNS:\n          version: {version}\n          flags:{flags}\n          udp: {size}\n"
    )?)
}

/// Adds the OPT records of the additional section, without their options.
fn push_extensions(alloc: Global, text: &mut String, message: &Message) -> Result<(), NoMemory> {
    let Ok(records) = message.additional() else {
        return Ok(());
    };
    for record in records {
        let Ok(record) = record else {
            return Ok(());
        };
        if matches!(record.data(), Ok(RecordData::Opt(_))) {
            let lines = extension_text(alloc, &record)?;
            text.push_str(lines.as_str())?;
        }
    }
    Ok(())
}

/// The lines of a message in a document of YAML, as deep as `dig` has them: the header, the OPT record without its options, the
/// questions, and the records of each section up to the first that can't be read, each as one text in quotes.
pub fn yaml_text(alloc: Global, layout: Layout, message: &Message) -> Result<String, NoMemory> {
    let mut text = head_text(alloc, message)?;
    let counts = counts_text(alloc, message)?;
    text.push_str(counts.as_str())?;
    push_extensions(alloc, &mut text, message)?;
    push_questions(alloc, &mut text, message)?;
    push_records(alloc, layout, &mut text, "ANSWER", message.answer())?;
    push_records(alloc, layout, &mut text, "AUTHORITY", message.authority())?;
    push_records(alloc, layout, &mut text, "ADDITIONAL", message.additional())?;
    Ok(text)
}
