//! Messages as JSON (RFC 8427).

use crate::json::Json;
use dns_base::{Message, NoMemory, ParseError, Question, Record, RecordData, RecordSection};
use dns_presentation::{Absolute, ShownData};
use std::alloc::Global;
use std::fmt::{self, Display};

/// Octets as hexadecimal digits in upper case.
#[derive(Clone, Copy)]
struct Digits<'a>(&'a [u8]);

/// The hexadecimal digit of the lowest four bits.
fn digit(number: u8) -> char {
    match number % 16 {
        0 => '0',
        1 => '1',
        2 => '2',
        3 => '3',
        4 => '4',
        5 => '5',
        6 => '6',
        7 => '7',
        8 => '8',
        9 => '9',
        10 => 'A',
        11 => 'B',
        12 => 'C',
        13 => 'D',
        14 => 'E',
        _ => 'F',
    }
}

impl Display for Digits<'_> {
    fn fmt<W: fmt::Write>(&self, f: &mut fmt::Formatter<W>) -> fmt::Result {
        for octet in self.0 {
            let high = digit(*octet / 16);
            let low = digit(*octet);
            write!(f, "{high}{low}")?;
        }
        Ok(())
    }
}

/// The members of a header (RFC 8427 2.1).
fn put_header(json: &mut Json, message: &Message) -> Result<(), NoMemory> {
    let header = message.header();
    json.number("ID", u32::from(header.id()))?;
    json.bit("QR", header.qr())?;
    json.number("Opcode", u32::from(header.opcode().0))?;
    json.bit("AA", header.aa())?;
    json.bit("TC", header.tc())?;
    json.bit("RD", header.rd())?;
    json.bit("RA", header.ra())?;
    json.bit("AD", header.ad())?;
    json.bit("CD", header.cd())?;
    json.number("RCODE", u32::from(header.rcode().0))?;
    let counts = message.header_counts();
    json.number("QDCOUNT", u32::from(counts.qdcount()))?;
    json.number("ANCOUNT", u32::from(counts.ancount()))?;
    json.number("NSCOUNT", u32::from(counts.nscount()))?;
    json.number("ARCOUNT", u32::from(counts.arcount()))
}

/// The members of a question.
fn put_question(alloc: Global, json: &mut Json, question: &Question<'_>) -> Result<(), NoMemory> {
    let name = Absolute(&question.qname()).to_string(alloc)?;
    json.string("QNAME", name.as_str())?;
    json.number("QTYPE", u32::from(question.qtype().0))?;
    let rtype = question.qtype().to_string(alloc)?;
    json.string("QTYPEname", rtype.as_str())?;
    json.number("QCLASS", u32::from(question.qclass().0))?;
    let class = question.qclass().to_string(alloc)?;
    json.string("QCLASSname", class.as_str())
}

/// Whether data has names, which may be compressed, so that its octets alone don't say it.
fn has_names(data: &RecordData<'_>) -> bool {
    !matches!(
        data,
        RecordData::A(_)
            | RecordData::Aaaa(_)
            | RecordData::Txt(_)
            | RecordData::Opt(_)
            | RecordData::Other(_)
    )
}

/// The data of a record: its presentation form, and its octets where they alone say it.
fn put_data(alloc: Global, json: &mut Json, record: &Record<'_>) -> Result<(), NoMemory> {
    let data = record.data();
    let octets = record.raw_data();
    match &data {
        Ok(RecordData::Opt(_)) => {}
        Ok(_) => {
            let name = format!(in alloc; "rdata{}", record.rtype())?;
            let shown = ShownData(record).to_string(alloc)?;
            json.string(name.as_str(), shown.as_str())?;
        }
        Err(_) => {}
    }
    if let Ok(data) = &data {
        if has_names(data) {
            return Ok(());
        }
    }
    json.number("RDLENGTH", octets.len() as u32)?;
    let digits = Digits(octets).to_string(alloc)?;
    json.string("RDATAHEX", digits.as_str())
}

/// A record (RFC 8427 2.2).
fn put_record(alloc: Global, json: &mut Json, record: &Record<'_>) -> Result<(), NoMemory> {
    json.open('{')?;
    let name = Absolute(&record.owner()).to_string(alloc)?;
    json.string("NAME", name.as_str())?;
    json.number("TYPE", u32::from(record.rtype().0))?;
    let rtype = record.rtype().to_string(alloc)?;
    json.string("TYPEname", rtype.as_str())?;
    json.number("CLASS", u32::from(record.class().0))?;
    if !matches!(record.data(), Ok(RecordData::Opt(_))) {
        let class = record.class().to_string(alloc)?;
        json.string("CLASSname", class.as_str())?;
    }
    json.number("TTL", record.ttl().0)?;
    put_data(alloc, json, record)?;
    json.close('}')
}

/// The records of a section, up to the first that can't be read.
fn put_section(
    alloc: Global,
    json: &mut Json,
    name: &str,
    records: Result<RecordSection<'_>, ParseError>,
) -> Result<(), NoMemory> {
    let Ok(records) = records else {
        return Ok(());
    };
    json.name(name)?;
    json.open('[')?;
    for record in records {
        let Ok(record) = record else {
            break;
        };
        put_record(alloc, json, &record)?;
    }
    json.close(']')
}

/// A message as one object on a line: its header, its first question and its sections. A section that can't be reached is left out,
/// and one that can't be read to its end has the records before that; the counts say how many there should be.
pub fn json_text(alloc: Global, message: &Message) -> Result<String, NoMemory> {
    let mut json = Json::new(alloc);
    json.open('{')?;
    put_header(&mut json, message)?;
    if let Some(question) = message.first_question() {
        put_question(alloc, &mut json, &question)?;
    }
    put_section(alloc, &mut json, "answerRRs", message.answer())?;
    put_section(alloc, &mut json, "authorityRRs", message.authority())?;
    put_section(alloc, &mut json, "additionalRRs", message.additional())?;
    json.close('}')?;
    json.into_line()
}
