//! Records in lines, as a layout has them (RFC 1035 5.1).

use crate::data::data_text;
use crate::span::{Span, Units};
use dns_base::{NoMemory, Record, RecordData, Rtype};
use dns_lookup_words::Layout;
use dns_presentation::Absolute;
use std::alloc::Global;

/// What begins a line that goes on with a record.
const INDENT: &str = "\n\t\t\t\t";

/// From how many octets on data is put on several lines.
const LONG: usize = 60;

/// For how long a record may be kept, with a tab behind it, if a layout has that.
fn ttl_text(alloc: Global, layout: Layout, record: &Record<'_>) -> Result<String, NoMemory> {
    let ttl = record.ttl().0;
    if !layout.ttl {
        return Ok(String::new(alloc));
    }
    if layout.units {
        return Ok(format!(in alloc; "{}\t", Units(ttl))?);
    }
    Ok(format!(in alloc; "{ttl}\t")?)
}

/// The class of a record, with a tab behind it, if a layout has that.
fn class_text(alloc: Global, layout: Layout, record: &Record<'_>) -> Result<String, NoMemory> {
    if !layout.class {
        return Ok(String::new(alloc));
    }
    let class = record.class();
    Ok(format!(in alloc; "{class}\t")?)
}

/// The owner, what a layout has of how long the record may be kept and of its class, and the type, with a tab behind each.
fn front(alloc: Global, layout: Layout, record: &Record<'_>) -> Result<String, NoMemory> {
    let owner = record.owner();
    let rtype = record.rtype();
    let ttl = ttl_text(alloc, layout, record)?;
    let class = class_text(alloc, layout, record)?;
    Ok(format!(in alloc; "{}\t{ttl}{class}{rtype}\t", Absolute(&owner))?)
}

/// A line of a number of seconds, and what it means.
fn push_seconds(
    alloc: Global,
    text: &mut String,
    seconds: u32,
    meaning: &str,
) -> Result<(), NoMemory> {
    let span = Span(seconds);
    let line = format!(in alloc; "{INDENT}{seconds}\t; {meaning} ({span})")?;
    text.push_str(line.as_str())?;
    Ok(())
}

/// The start of a zone, a line for each of its numbers; none of other data.
fn start_of_zone(
    alloc: Global,
    layout: Layout,
    record: &Record<'_>,
) -> Result<Option<String>, NoMemory> {
    let Ok(
        RecordData::Soa {
            mname,
            rname,
            serial,
            refresh,
            retry,
            expire,
            minimum,
        },
    ) = record.data()
    else {
        return Ok(None);
    };
    let mut text = front(alloc, layout, record)?;
    let serial = serial.0;
    let names = format!(in alloc;
        "{} {} ({INDENT}{serial}\t; serial",
        Absolute(&mname),
        Absolute(&rname)
    )?;
    text.push_str(names.as_str())?;
    push_seconds(alloc, &mut text, refresh.0, "refresh")?;
    push_seconds(alloc, &mut text, retry.0, "retry")?;
    push_seconds(alloc, &mut text, expire.0, "expire")?;
    push_seconds(alloc, &mut text, minimum.0, "minimum")?;
    text.push_str(INDENT)?;
    text.push_str(")\n")?;
    Ok(Some(text))
}

/// Whether the data of a type is words with no quotes, of which some are long.
fn is_of_long_words(rtype: Rtype) -> bool {
    match rtype {
        Rtype::DNSKEY | Rtype::CDNSKEY | Rtype::DS | Rtype::CDS | Rtype::RRSIG => true,
        Rtype::NSEC | Rtype::NSEC3 | Rtype::TLSA | Rtype::SMIMEA | Rtype::SSHFP => true,
        _ => false,
    }
}

/// The record with each word of its data on a line of its own.
fn folded(
    alloc: Global,
    layout: Layout,
    record: &Record<'_>,
    shown: &str,
) -> Result<String, NoMemory> {
    let mut text = front(alloc, layout, record)?;
    text.push('(')?;
    for word in shown.split(' ') {
        text.push_str(INDENT)?;
        text.push_str(word)?;
    }
    text.push_str(INDENT)?;
    text.push_str(")\n")?;
    Ok(text)
}

/// A record on a line.
fn on_a_line(alloc: Global, layout: Layout, record: &Record<'_>) -> Result<String, NoMemory> {
    let mut text = front(alloc, layout, record)?;
    let shown = data_text(alloc, layout, record)?;
    text.push_str(shown.as_str())?;
    text.push('\n')?;
    Ok(text)
}

/// A record on several lines, if it is the start of a zone, or its data is long and of words without quotes.
fn on_lines(
    alloc: Global,
    layout: Layout,
    record: &Record<'_>,
) -> Result<Option<String>, NoMemory> {
    if let Some(text) = start_of_zone(alloc, layout, record)? {
        return Ok(Some(text));
    }
    let shown = data_text(alloc, layout, record)?;
    if !is_of_long_words(record.rtype()) || shown.len() <= LONG {
        return Ok(None);
    }
    let text = folded(alloc, layout, record, shown.as_str())?;
    Ok(Some(text))
}

/// A record in presentation form: on several lines, where a layout has that and it is long, or on one.
pub(crate) fn record_text(
    alloc: Global,
    layout: Layout,
    record: &Record<'_>,
) -> Result<String, NoMemory> {
    if layout.multiline {
        if let Some(text) = on_lines(alloc, layout, record)? {
            return Ok(text);
        }
    }
    on_a_line(alloc, layout, record)
}
