//! Names that stand for texts.

use std::alloc::Global;

struct Let {
    name: String,
    text: String,
}

impl Drop for Let {
    fn drop(self) {
        let Let { name: _, text: _ } = self;
    }
}

/// The names by now.
pub struct Lets {
    alloc: Global,
    all: Vec<Let>,
}

impl Drop for Lets {
    fn drop(self) {
        let Lets { alloc: _, all: _ } = self;
    }
}

/// A word without the comma, colon or semicolon behind it, and that mark.
fn unmarked(word: &str) -> (&str, &'static str) {
    if let Some(body) = word.strip_suffix(',') {
        return (body, ",");
    }
    if let Some(body) = word.strip_suffix(';') {
        return (body, ";");
    }
    match word.strip_suffix(':') {
        Some(body) => (body, ":"),
        None => (word, ""),
    }
}

/// What stands before a star, and the count behind it.
fn counted(part: &str) -> (&str, u32) {
    match part.split_once('*') {
        Some((name, count)) => (name, count.parse::<u32>().unwrap_or(1)),
        None => (part, 1),
    }
}

impl Lets {
    pub fn new(alloc: Global) -> Lets {
        Lets {
            alloc,
            all: Vec::new(alloc),
        }
    }

    /// Lets a name stand for the text behind it.
    pub fn put(&mut self, line: &str) -> Option<()> {
        let (name, text) = line.split_once(' ')?;
        let name = String::from_str(self.alloc, name).ok()?;
        let text = String::from_str(self.alloc, text).ok()?;
        self.all.push(Let { name, text }).ok()
    }

    /// The text that a name stands for.
    fn text_of(&self, name: &str) -> Option<&str> {
        let found = self.all.iter().find(|known| known.name.as_str() == name)?;
        Some(found.text.as_str())
    }

    /// Adds a text, or what its name stands for, so many times.
    fn push_part(&self, text: &mut String, part: &str) -> Option<()> {
        let (name, count) = counted(part);
        let once = self.text_of(name).unwrap_or(name);
        for _ in 0..count {
            text.push_str(once).ok()?;
        }
        Some(())
    }

    fn push_word(&self, text: &mut String, word: &str) -> Option<()> {
        let (body, mark) = unmarked(word);
        for part in body.split('+') {
            self.push_part(text, part)?;
        }
        text.push_str(mark).ok()
    }

    /// A line whose names are spelled out.
    pub fn spelled(&self, line: &str) -> Option<String> {
        let mut text = String::new(self.alloc);
        for word in line.split(' ') {
            if !text.is_empty() {
                text.push_str(" ").ok()?;
            }
            self.push_word(&mut text, word)?;
        }
        Some(text)
    }
}
