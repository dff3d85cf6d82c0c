//! A message as text, of which some parts are written.

use crate::lines::record_text;
use dns_base::{Message, NoMemory, ParseError, Record, RecordData, RecordSection};
use dns_lookup_words::Layout;
use dns_presentation::Presentation;
use std::alloc::Global;

/// What stands in place of entries that can't be read.
const UNREAD: &str = ";; the rest of the message can't be read\n";

/// A part of the presentation form of a message.
#[derive(Clone, Copy)]
enum Part {
    /// The header and the OPT record.
    Head,
    Question,
    Answer,
    Authority,
    Additional,
}

/// The part whose title a line is, if it is one.
fn title_of(line: &str) -> Option<Part> {
    match line {
        ";; EDNS PSEUDOSECTION:" => Some(Part::Head),
        ";; QUESTION SECTION:" => Some(Part::Question),
        ";; ANSWER SECTION:" => Some(Part::Answer),
        ";; AUTHORITY SECTION:" => Some(Part::Authority),
        ";; ADDITIONAL SECTION:" => Some(Part::Additional),
        _ => None,
    }
}

/// Whether a part is to be written.
fn is_written(part: Part, layout: Layout) -> bool {
    match part {
        Part::Head => layout.comments,
        Part::Question => layout.question,
        Part::Answer => layout.answer,
        Part::Authority => layout.authority,
        Part::Additional => layout.additional,
    }
}

/// Whether a record is an OPT record that can be read, which is no record of its section.
fn is_extension(record: &Record<'_>) -> bool {
    matches!(record.data(), Ok(RecordData::Opt(_)))
}

/// Adds the records of a section.
fn push_records(
    alloc: Global,
    layout: Layout,
    text: &mut String,
    records: Result<RecordSection<'_>, ParseError>,
) -> Result<(), NoMemory> {
    let Ok(records) = records else {
        return Ok(());
    };
    for record in records {
        let Ok(record) = record else {
            text.push_str(UNREAD)?;
            return Ok(());
        };
        if !is_extension(&record) {
            let lines = record_text(alloc, layout, &record)?;
            text.push_str(lines.as_str())?;
        }
    }
    Ok(())
}

/// Whether records are written otherwise than the presentation form of a message has them.
fn is_of_own_lines(layout: Layout) -> bool {
    layout.multiline || !layout.ttl || !layout.class || layout.units || layout.expanded
}

/// A message's text as it grows, line by line.
#[derive(Drop)]
struct Lines {
    alloc: Global,
    layout: Layout,
    text: String,
    part: Part,
}

impl Lines {
    /// Whether the records of this part are written by themselves.
    fn has_own_lines(&self) -> bool {
        is_of_own_lines(self.layout) && !matches!(self.part, Part::Head | Part::Question)
    }

    /// Adds the records of this part, each by itself.
    fn push_own(&mut self, message: &Message) -> Result<(), NoMemory> {
        let records = match self.part {
            Part::Head | Part::Question => return Ok(()),
            Part::Answer => message.answer(),
            Part::Authority => message.authority(),
            Part::Additional => message.additional(),
        };
        push_records(self.alloc, self.layout, &mut self.text, records)
    }

    /// Begins a part, by its title.
    fn begin(&mut self, part: Part, title: &str, message: &Message) -> Result<(), NoMemory> {
        self.part = part;
        if !is_written(part, self.layout) {
            return Ok(());
        }
        if self.layout.comments {
            self.text.push('\n')?;
            self.text.push_str(title)?;
            self.text.push('\n')?;
        }
        if self.has_own_lines() {
            return self.push_own(message);
        }
        Ok(())
    }

    /// Takes a line of the presentation form.
    fn take(&mut self, line: &str, message: &Message) -> Result<(), NoMemory> {
        if let Some(part) = title_of(line) {
            return self.begin(part, line, message);
        }
        if line.is_empty() || !is_written(self.part, self.layout) || self.has_own_lines() {
            return Ok(());
        }
        self.text.push_str(line)?;
        self.text.push('\n')?;
        Ok(())
    }
}

/// The parts of a message that a layout asks for, in presentation form: the header and the OPT record, the question, and the
/// records of each section. What can't be read, and all that follows it in its section, is one line that says so.
pub fn message_text(alloc: Global, layout: Layout, message: &Message) -> Result<String, NoMemory> {
    let shown = message.presentation().to_string(alloc)?;
    let mut lines = Lines {
        alloc,
        layout,
        text: String::new(alloc),
        part: Part::Head,
    };
    for line in shown.lines() {
        lines.take(line, message)?;
    }
    let Lines { text, .. } = lines;
    Ok(text)
}
