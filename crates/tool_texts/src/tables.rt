//! Tables by number, call by call.

use number_table::NumberTable;
use std::alloc::Global;

/// What a new table answers to calls, by `table CALL; CALL; ..`.
pub fn text_of(alloc: Global, word: &str, rest: &str) -> Option<String> {
    if word != "table" {
        return None;
    }
    let mut table = NumberTable::new(alloc);
    let mut text = String::new(alloc);
    for call in rest.split(';') {
        if !text.is_empty() {
            text.push_str("; ").ok()?;
        }
        let answer = answer(alloc, &mut table, call.trim())?;
        text.push_str(answer.as_str()).ok()?;
    }
    text.push_str("\n").ok()?;
    Some(text)
}

fn number(text: &str) -> Option<u64> {
    text.parse::<u64>().ok()
}

/// What a table answers to a call.
fn answer(alloc: Global, table: &mut NumberTable<u64>, call: &str) -> Option<String> {
    match call.split_once(' ') {
        Some((word, rest)) => answer_of_key(alloc, table, word, rest),
        None => answer_of_all(alloc, table, call),
    }
}

/// What a table answers to a call with a key, or with a count of keys.
fn answer_of_key(
    alloc: Global,
    table: &mut NumberTable<u64>,
    word: &str,
    rest: &str,
) -> Option<String> {
    match word {
        "insert" => insert(alloc, table, rest),
        "remove" => format!(in alloc; "{:?}", table.remove(number(rest)?)).ok(),
        "get" => format!(in alloc; "{:?}", table.get(number(rest)?)).ok(),
        "contains" => format!(in alloc; "{}", table.contains_key(number(rest)?)).ok(),
        "fill" => fill(alloc, table, number(rest)?),
        "hollow" => hollow(alloc, table, number(rest)?),
        _ => None,
    }
}

/// What a table answers to a call without a key.
fn answer_of_all(alloc: Global, table: &mut NumberTable<u64>, word: &str) -> Option<String> {
    match word {
        "size" => format!(in alloc; "{} {}", table.len(), table.is_empty()).ok(),
        "first" => format!(in alloc; "{:?}", table.first()).ok(),
        "pop" => format!(in alloc; "{:?}", table.pop_first()).ok(),
        "entries" => entries(alloc, table),
        "pop-all" => pop_all(alloc, table),
        "clear" => {
            table.clear();
            String::from_str(alloc, "cleared").ok()
        }
        _ => None,
    }
}

/// Puts a value under a key, by `KEY VALUE`.
fn insert(alloc: Global, table: &mut NumberTable<u64>, rest: &str) -> Option<String> {
    let (key, value) = rest.split_once(' ')?;
    let old = table.insert(number(key)?, number(value)?).ok()?;
    format!(in alloc; "{old:?}").ok()
}

/// Puts so many keys in, from 0 on, each under itself.
fn fill(alloc: Global, table: &mut NumberTable<u64>, count: u64) -> Option<String> {
    for key in 0..count {
        let _ = table.insert(key, key).ok()?;
    }
    String::from_str(alloc, "filled").ok()
}

/// Takes the keys from 1 on out, from the greatest of so many on.
fn hollow(alloc: Global, table: &mut NumberTable<u64>, count: u64) -> Option<String> {
    for key in (1..=count).rev() {
        let _ = table.remove(key);
    }
    String::from_str(alloc, "hollowed").ok()
}

/// Adds an entry to the text of some.
fn push_entry(alloc: Global, text: &mut String, key: u64, value: u64) -> Option<()> {
    if !text.is_empty() {
        text.push_str(" ").ok()?;
    }
    let entry = format!(in alloc; "{key}={value}").ok()?;
    text.push_str(entry.as_str()).ok()
}

/// The entries as they stand.
fn entries(alloc: Global, table: &NumberTable<u64>) -> Option<String> {
    let mut text = String::new(alloc);
    for (key, value) in table {
        push_entry(alloc, &mut text, key, *value)?;
    }
    Some(text)
}

/// The entries as they come out.
fn pop_all(alloc: Global, table: &mut NumberTable<u64>) -> Option<String> {
    let mut text = String::new(alloc);
    for _ in 0..table.len() {
        let (key, value) = table.pop_first()?;
        push_entry(alloc, &mut text, key, value)?;
    }
    Some(text)
}
