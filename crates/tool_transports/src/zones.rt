//! Zones of example.com, and the messages of their transfers.
//!
//! `updates KIND; MESSAGE, ..` says what messages of a transfer say, an `axfr` or an `ixfr`: `whole`, `delete` and `add` begin what comes then,
//! `-` and `+` are records, and an end is `end`; or why one is refused; and how many records were outside. `zone MESSAGE, ..; MESSAGE, ..` says what a whole zone's messages
//! and then those of its changes come to: how many records were missing, or why nothing changes, the serial and the records. `fetch KIND MOST;
//! MESSAGE, ..; EVENT, ..` fetches a zone over an edge in memory within so many octets, and says the same.

use crate::memory::{clock_of, edge_of};
use crate::reading::{first_word, message_of, number};
use crate::saying::{say, say_name, say_octets, say_sentence};
use client_request::{ListWords, WordList};
use dns_base::Name;
use std::alloc::Global;
use zone_records::{Interpreter, Update, XfrKind, Zone, ZoneRecord};
use zone_transfer::fetch_within;

fn kind_of(word: &str) -> Option<XfrKind> {
    match word {
        "axfr" => Some(XfrKind::Axfr),
        "ixfr" => Some(XfrKind::Ixfr),
        _ => None,
    }
}

fn apex(alloc: Global) -> Option<Name> {
    Name::from_text(alloc, "example.com").ok()
}

fn say_update(said: &mut String, update: &Update) -> Option<()> {
    match update {
        Update::DeleteAllRecords => say(said, "whole"),
        Update::BeginBatchDelete { .. } => say(said, "delete"),
        Update::DeleteRecord(_) => say(said, "-"),
        Update::BeginBatchAdd { .. } => say(said, "add"),
        Update::AddRecord(_) => say(said, "+"),
        Update::Finished { .. } => say(said, "end"),
    }
}

pub fn show_updates(alloc: Global, line: &str, said: &mut String) -> Option<()> {
    let (kind, messages) = line.split_once(';')?;
    let mut interpreter = Interpreter::new(apex(alloc)?, kind_of(kind)?);
    for digits in messages.split(',') {
        let message = message_of(alloc, digits.trim())?;
        match interpreter.interpret(alloc, &message) {
            Ok(updates) => {
                for update in &updates {
                    say_update(said, update)?;
                }
            }
            Err(fault) => say_name(said, &fault)?,
        }
    }
    say_sentence(said, "finished", &interpreter.is_finished())?;
    say_sentence(said, "outside", &interpreter.outside())
}

/// The updates of all messages.
fn updates_of(alloc: Global, kind: XfrKind, messages: &str) -> Option<Vec<Update>> {
    let mut interpreter = Interpreter::new(apex(alloc)?, kind);
    let mut all = Vec::new(alloc);
    for digits in messages.split(',') {
        let message = message_of(alloc, digits.trim())?;
        for update in interpreter.interpret(alloc, &message).ok()? {
            all.push(update).ok()?;
        }
    }
    Some(all)
}

/// The zone of the messages of a whole one.
fn zone_of(alloc: Global, messages: &str) -> Option<Zone> {
    let mut zone = Zone::empty(alloc, apex(alloc)?);
    let updates = updates_of(alloc, XfrKind::Axfr, messages)?;
    zone.apply(updates).ok()?;
    Some(zone)
}

fn say_record(said: &mut String, record: &ZoneRecord) -> Option<()> {
    say_octets(said, record.owner.as_slice())?;
    say_sentence(said, "ttl", &record.ttl.0)?;
    say_sentence(said, "type", &record.rtype.0)?;
    say_octets(said, record.rdata.as_slice())
}

fn say_zone(said: &mut String, zone: &Zone) -> Option<()> {
    match zone.serial() {
        Some(serial) => say_sentence(said, "serial", &serial.0)?,
        None => say(said, "no serial")?,
    }
    for record in zone.records() {
        say_record(said, record)?;
    }
    Some(())
}

pub fn show_zone(alloc: Global, line: &str, said: &mut String) -> Option<()> {
    let (whole, changes) = line.split_once(';')?;
    let mut zone = zone_of(alloc, whole)?;
    match zone.apply(updates_of(alloc, XfrKind::Ixfr, changes)?) {
        Ok(missing) => say_sentence(said, "missing", &missing)?,
        Err(fault) => say_name(said, &fault)?,
    }
    say_zone(said, &zone)
}

pub fn show_fetch(alloc: Global, line: &str, said: &mut String) -> Option<()> {
    let (words, rest) = line.split_once(';')?;
    let (kind, most) = first_word(words);
    let (whole, events) = rest.split_once(';')?;
    let mut zone = zone_of(alloc, whole)?;
    let mut edge = edge_of(alloc, events)?;
    let mut clock = clock_of(alloc, "")?;
    let mut words = ListWords::new(WordList::new(alloc));
    let kind = kind_of(kind)?;
    let came = fetch_within(
        alloc,
        &mut zone,
        kind,
        number(most)?,
        &mut edge,
        &mut clock,
        &mut words,
    );
    match came {
        Ok(missing) => say_sentence(said, "missing", &missing)?,
        Err(fault) => say_name(said, &fault)?,
    }
    say_zone(said, &zone)
}
