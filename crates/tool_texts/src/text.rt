//! What a message says, as lines of text.

use crate::hex::Hex;
use dns_base::{Message, ParseError, Record, RecordSection, ToName};
use std::alloc::Global;

/// Whether each record of a section is read.
fn is_section_read(section: Result<RecordSection<'_>, ParseError>) -> bool {
    match section {
        Ok(records) => {
            for record in records {
                if record.is_err() {
                    return false;
                }
            }
            true
        }
        Err(_) => false,
    }
}

/// Whether each entry of a message is read.
fn is_read(message: &Message) -> bool {
    for question in message.question() {
        if question.is_err() {
            return false;
        }
    }
    is_section_read(message.answer())
        && is_section_read(message.authority())
        && is_section_read(message.additional())
}

/// The line of its id, its flags and its counts.
fn head_text(alloc: Global, message: &Message) -> Option<String> {
    let header = message.header();
    let [_, _, high, low] = header.to_octets();
    let id = header.id();
    let flags = u16::from_be_bytes([high, low]);
    let counts = message.header_counts();
    let questions = counts.qdcount();
    let answers = counts.ancount();
    let authorities = counts.nscount();
    let additionals = counts.arcount();
    format!(in alloc;
        "message {id} {flags} {questions} {answers} {authorities} {additionals}\n"
    ).ok()
}

/// A line for each question.
fn put_questions(alloc: Global, text: &mut String, message: &Message) -> Option<()> {
    for question in message.question() {
        let Ok(question) = question else {
            return Some(());
        };
        let name = question.qname().to_name(alloc).ok()?;
        let qtype = question.qtype().0;
        let qclass = question.qclass().0;
        let line = format!(in alloc; "question {name} {qtype} {qclass}\n").ok()?;
        text.push_str(line.as_str()).ok()?;
    }
    Some(())
}

/// The line of a record, its data with the names read out where its type reads it, and else as it stands.
fn record_text(alloc: Global, section: &str, record: &Record<'_>) -> Option<String> {
    let owner = record.owner().to_name(alloc).ok()?;
    let rtype = record.rtype().0;
    let class = record.class().0;
    let ttl = record.ttl().0;
    match record.data() {
        Ok(rdata) => {
            let octets = rdata.to_octets(alloc).ok()?;
            let digits = Hex(&octets);
            format!(in alloc; "{section} {owner} {rtype} {class} {ttl} {digits}\n").ok()
        }
        Err(_) => {
            let digits = Hex(record.raw_data());
            format!(in alloc; "{section} {owner} {rtype} {class} {ttl} {digits}\n").ok()
        }
    }
}

/// A line for each record of a section.
fn put_records(
    alloc: Global,
    text: &mut String,
    section: &str,
    records: Result<RecordSection<'_>, ParseError>,
) -> Option<()> {
    let Ok(records) = records else {
        return Some(());
    };
    for record in records {
        let Ok(record) = record else {
            return Some(());
        };
        let line = record_text(alloc, section, &record)?;
        text.push_str(line.as_str()).ok()?;
    }
    Some(())
}

/// The lines of a message, or None where it can't be read whole.
pub fn message_text(alloc: Global, message: &Message) -> Option<String> {
    if !is_read(message) {
        return None;
    }
    let mut text = head_text(alloc, message)?;
    put_questions(alloc, &mut text, message)?;
    put_records(alloc, &mut text, "answer", message.answer())?;
    put_records(alloc, &mut text, "authority", message.authority())?;
    put_records(alloc, &mut text, "additional", message.additional())?;
    text.push_str("end\n").ok()?;
    Some(text)
}
