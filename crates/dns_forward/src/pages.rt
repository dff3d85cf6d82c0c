//! What the program tells of itself.

use crate::help::HELP;
use command_parts::deliver;
use dns_values::StdSink;
use forward_conf::{end_delivered, end_without_memory};
use program_words::{Page, version_line};

/// Writes what is asked for, and a sentence where that fails.
pub fn tell_page(rt: HostRuntime, page: Page) -> u8 {
    let mut sink = StdSink::new(rt.stdout());
    let mut errors = StdSink::new(rt.stderr());
    let status = match page {
        Page::Help => deliver(&mut sink, HELP.as_bytes()),
        Page::Version => match version_line(rt.alloc(), "dns_forward") {
            Ok(line) => deliver(&mut sink, line.as_bytes()),
            Err(_) => return end_without_memory(&mut errors).0,
        },
    };
    end_delivered(&mut errors, status).0
}
