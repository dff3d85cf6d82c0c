//! What is printed for a line.

use crate::{
    confs, errors, final_confs, laws, messages, names, pairs, readings, scripts, streams, tables,
    traces, values, written,
};
use std::alloc::Global;
use std::fmt::Display;

/// A value as a line of its own.
pub fn line_of<T: Display>(alloc: Global, value: &T) -> Option<String> {
    format!(in alloc; "{value}\n").ok()
}

/// What is printed of names, addresses and numbers, and by calls of libraries.
fn small_text(alloc: Global, word: &str, rest: &str) -> Option<String> {
    if let Some(text) = names::text_of(alloc, word, rest) {
        return Some(text);
    }
    if let Some(text) = pairs::text_of(alloc, word, rest) {
        return Some(text);
    }
    if let Some(text) = values::text_of(alloc, word, rest) {
        return Some(text);
    }
    if let Some(text) = streams::text_of(alloc, word, rest) {
        return Some(text);
    }
    if let Some(text) = tables::text_of(alloc, word, rest) {
        return Some(text);
    }
    laws::text_of(alloc, word, rest)
}

/// What is printed of messages.
fn message_text(alloc: Global, word: &str, rest: &str) -> Option<String> {
    if let Some(text) = messages::text_of(alloc, word, rest) {
        return Some(text);
    }
    if let Some(text) = readings::text_of(alloc, word, rest) {
        return Some(text);
    }
    written::text_of(alloc, word, rest)
}

/// What is printed of traces, scripts and configurations.
fn whole_text(alloc: Global, word: &str, rest: &str) -> Option<String> {
    if let Some(text) = traces::text_of(alloc, word, rest) {
        return Some(text);
    }
    if let Some(text) = errors::text_of(alloc, word, rest) {
        return Some(text);
    }
    if let Some(text) = scripts::text_of(alloc, word, rest) {
        return Some(text);
    }
    if let Some(text) = confs::text_of(alloc, word, rest) {
        return Some(text);
    }
    final_confs::text_of(alloc, word, rest)
}

/// What is printed for a line: its first word says what stands behind it. None where there is no such word, or what stands
/// behind it can't be read, or memory runs out.
pub fn text_of(alloc: Global, line: &str) -> Option<String> {
    let (word, rest) = line.split_once(' ').unwrap_or((line, ""));
    if let Some(text) = message_text(alloc, word, rest) {
        return Some(text);
    }
    if let Some(text) = small_text(alloc, word, rest) {
        return Some(text);
    }
    whole_text(alloc, word, rest)
}
