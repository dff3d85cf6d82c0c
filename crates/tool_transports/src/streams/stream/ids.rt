//! Which ids a table of requests gives. What it holds is numbers.

use crate::reading::{first_word, number};
use crate::saying::{say, say_value};
use client_stream::{InsertFault, Queries};
use std::alloc::Global;

type Table = Queries<u64>;

fn say_item(said: &mut String, item: Option<u64>) -> Option<()> {
    match item {
        Some(item) => say_value(said, &item),
        None => say(said, "none"),
    }
}

/// Puts the items of words in, and says their ids.
fn put_all(table: &mut Table, items: &str, said: &mut String) -> Option<()> {
    for item in items.split(' ') {
        match table.insert(number(item)?) {
            Ok(id) => say_value(said, &id)?,
            Err(InsertFault::Full(_)) => say(said, "full")?,
            Err(InsertFault::NoMemory(_)) => say(said, "NoMemory")?,
        }
    }
    Some(())
}

/// Takes the items of ids out.
fn take_all(table: &mut Table, ids: &str, said: &mut String) -> Option<()> {
    for id in ids.split(' ') {
        say_item(said, table.try_remove(id.parse::<u16>().ok()?))?;
    }
    Some(())
}

/// Takes an item out, and puts it back under its id.
fn put_back(table: &mut Table, id: u16, said: &mut String) -> Option<()> {
    let item = table.try_remove(id);
    if let Some(item) = item {
        table.insert_at(id, item);
    }
    say_item(said, item)
}

/// Says how many of so many items, which are numbered from 0, get their number for id, and how many are refused.
fn fill(table: &mut Table, count: u64, said: &mut String) -> Option<()> {
    let mut given: u64 = 0;
    let mut refused: u64 = 0;
    for item in 0..count {
        match table.insert(item) {
            Ok(id) if u64::from(id) == item => given = given.saturating_add(1),
            Err(InsertFault::Full(_)) => refused = refused.saturating_add(1),
            _ => {}
        }
    }
    say_value(said, &given)?;
    say_value(said, &refused)
}

fn tell(table: &mut Table, words: &str, said: &mut String) -> Option<()> {
    let (word, rest) = first_word(words);
    match word {
        "put" => put_all(table, rest, said),
        "take" => take_all(table, rest, said),
        "back" => put_back(table, rest.parse::<u16>().ok()?, said),
        "slots" => {
            for slot in table.slots() {
                say_item(said, *slot)?;
            }
            Some(())
        }
        "drain" => {
            for item in table.drain().ok()?.as_slice() {
                say_value(said, item)?;
            }
            Some(())
        }
        "count" => say_value(said, &table.count()),
        "empty" => say_value(said, &table.is_empty()),
        "next" => say_item(said, table.next_id().map(u64::from)),
        "fill" => fill(table, number(rest)?, said),
        _ => None,
    }
}

/// Says what a table answers to what stands between commas.
pub fn show(alloc: Global, line: &str, said: &mut String) -> Option<()> {
    let mut table = Queries::new(alloc);
    for words in line.split(',') {
        tell(&mut table, words.trim(), said)?;
    }
    Some(())
}
