//! Messages in hexadecimal digits, as lines and in presentation form.

use crate::{hex, text};
use dns_presentation::Presentation;
use std::alloc::Global;

/// What is printed of a whole message.
pub fn text_of(alloc: Global, word: &str, digits: &str) -> Option<String> {
    match word {
        "message" => match lines(alloc, digits) {
            Some(text) => Some(text),
            None => String::from_str(alloc, "refused\n").ok(),
        },
        "present" => match presented(alloc, digits) {
            Some(text) => Some(text),
            None => String::from_str(alloc, "refused\nend\n").ok(),
        },
        _ => None,
    }
}

fn lines(alloc: Global, digits: &str) -> Option<String> {
    text::message_text(alloc, &hex::message(alloc, digits)?)
}

fn presented(alloc: Global, digits: &str) -> Option<String> {
    format!(in alloc; "{}end\n", hex::message(alloc, digits)?.presentation()).ok()
}
