//! Messages as text, section by section.

use crate::options::Extension;
use crate::shown::{Presentation, Shown};
use dns_base::{Header, Message, ParseError, Record, RecordData, RecordSection};
use std::fmt::{self, Display};

/// What stands in place of entries that can't be read.
const UNREAD: &str = ";; the rest of the message can't be read";

fn write_flag<W: fmt::Write>(is_set: bool, word: &str, f: &mut fmt::Formatter<W>) -> fmt::Result {
    if is_set { write!(f, " {word}") } else { Ok(()) }
}

/// The flags of a header, each behind a blank; `z` is the bit that has no meaning yet (RFC 1035 4.1.1).
#[derive(Clone, Copy)]
struct Flags(Header);

impl Display for Flags {
    fn fmt<W: fmt::Write>(&self, f: &mut fmt::Formatter<W>) -> fmt::Result {
        let header = self.0;
        let [_, _, _, low] = header.to_octets();
        write_flag(header.qr(), "qr", f)?;
        write_flag(header.aa(), "aa", f)?;
        write_flag(header.tc(), "tc", f)?;
        write_flag(header.rd(), "rd", f)?;
        write_flag(header.ra(), "ra", f)?;
        write_flag(low & 0x40 != 0, "z", f)?;
        write_flag(header.ad(), "ad", f)?;
        write_flag(header.cd(), "cd", f)
    }
}

/// The kind of query, the response code with the bits of an OPT record, and the id.
fn write_head<W: fmt::Write>(message: &Message, f: &mut fmt::Formatter<W>) -> fmt::Result {
    let header = message.header();
    let opcode = header.opcode();
    let status = message.opt_rcode();
    let id = header.id();
    writeln!(
        f,
        ";; ->>HEADER<<- opcode: {opcode}; status: {status}; id: {id}"
    )
}

/// The flags, and how many entries each section has.
fn write_counts<W: fmt::Write>(message: &Message, f: &mut fmt::Formatter<W>) -> fmt::Result {
    let flags = Flags(message.header());
    let counts = message.header_counts();
    let questions = counts.qdcount();
    let answers = counts.ancount();
    write!(
        f,
        ";; Flags:{flags}; QUERY: {questions}; ANSWER: {answers}; "
    )?;
    let authorities = counts.nscount();
    let additionals = counts.arcount();
    writeln!(f, "AUTHORITY: {authorities}; ADDITIONAL: {additionals}")
}

/// Whether a record is an OPT record that can be read, which isn't printed as a record.
fn is_extension(record: &Record<'_>) -> bool {
    matches!(record.data(), Ok(RecordData::Opt(_)))
}

/// The OPT records of the additional section.
fn write_extensions<W: fmt::Write>(message: &Message, f: &mut fmt::Formatter<W>) -> fmt::Result {
    let Ok(records) = message.additional() else {
        return Ok(());
    };
    let rcode = message.header().rcode().0;
    for record in records {
        let Ok(record) = record else {
            return Ok(());
        };
        if is_extension(&record) {
            write!(
                f,
                "\n{}",
                Extension {
                    record: &record,
                    rcode
                }
            )?;
        }
    }
    Ok(())
}

fn write_questions<W: fmt::Write>(message: &Message, f: &mut fmt::Formatter<W>) -> fmt::Result {
    if message.header_counts().qdcount() != 0 {
        write!(f, "\n;; QUESTION SECTION:\n")?;
    }
    for question in message.question() {
        match question {
            Ok(question) => writeln!(f, ";; {}", question.presentation())?,
            Err(_) => return writeln!(f, "{UNREAD}"),
        }
    }
    Ok(())
}

/// The title of a section, and its records but for OPT records, where there are any.
fn write_records<W: fmt::Write>(
    title: &str,
    records: RecordSection<'_>,
    f: &mut fmt::Formatter<W>,
) -> fmt::Result {
    let mut is_begun = false;
    for record in records {
        let Ok(record) = record else {
            return writeln!(f, "{UNREAD}");
        };
        if is_extension(&record) {
            continue;
        }
        if !is_begun {
            write!(f, "\n;; {title} SECTION:\n")?;
            is_begun = true;
        }
        writeln!(f, "{}", record.presentation())?;
    }
    Ok(())
}

/// The records of a section. Where the section before it can't be read, that is said there.
fn write_section<W: fmt::Write>(
    title: &str,
    records: Result<RecordSection<'_>, ParseError>,
    f: &mut fmt::Formatter<W>,
) -> fmt::Result {
    match records {
        Ok(records) => write_records(title, records, f),
        Err(_) => Ok(()),
    }
}

/// The header, the OPT record, the question, and the records of each section, in lines. What can't be read, and all
/// that follows it, is one line that says so.
impl Display for Shown<'_, Message> {
    fn fmt<W: fmt::Write>(&self, f: &mut fmt::Formatter<W>) -> fmt::Result {
        let message = self.0;
        write_head(message, f)?;
        write_counts(message, f)?;
        write_extensions(message, f)?;
        write_questions(message, f)?;
        write_section("ANSWER", message.answer(), f)?;
        write_section("AUTHORITY", message.authority(), f)?;
        write_section("ADDITIONAL", message.additional(), f)
    }
}
