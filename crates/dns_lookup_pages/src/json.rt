//! Objects of JSON as they grow (RFC 8259).

use dns_base::NoMemory;
use std::alloc::Global;

/// A text of JSON up to the end of what stands so far.
#[derive(Drop)]
pub(crate) struct Json {
    alloc: Global,
    text: String,
    /// Whether a comma must stand before what comes next.
    is_begun: bool,
}

impl Json {
    pub(crate) fn new(alloc: Global) -> Json {
        Json {
            alloc,
            text: String::new(alloc),
            is_begun: false,
        }
    }

    /// Puts a comma before what comes next, if one must stand there.
    fn part(&mut self) -> Result<(), NoMemory> {
        if self.is_begun {
            self.text.push_str(", ")?;
        }
        self.is_begun = true;
        Ok(())
    }

    /// Begins an object or a list by its sign.
    pub(crate) fn open(&mut self, sign: char) -> Result<(), NoMemory> {
        self.part()?;
        self.text.push(sign)?;
        self.is_begun = false;
        Ok(())
    }

    /// Ends an object or a list by its sign.
    pub(crate) fn close(&mut self, sign: char) -> Result<(), NoMemory> {
        self.text.push(sign)?;
        self.is_begun = true;
        Ok(())
    }

    /// The name of the member that comes next, which has no sign that JSON escapes.
    pub(crate) fn name(&mut self, name: &str) -> Result<(), NoMemory> {
        self.part()?;
        self.text.push('"')?;
        self.text.push_str(name)?;
        self.text.push_str("\": ")?;
        self.is_begun = false;
        Ok(())
    }

    /// A member that is a number.
    pub(crate) fn number(&mut self, name: &str, number: u32) -> Result<(), NoMemory> {
        self.name(name)?;
        let digits = number.to_string(self.alloc)?;
        self.text.push_str(digits.as_str())?;
        self.is_begun = true;
        Ok(())
    }

    /// A member that is 1 or 0.
    pub(crate) fn bit(&mut self, name: &str, is_set: bool) -> Result<(), NoMemory> {
        self.number(name, if is_set { 1 } else { 0 })
    }

    /// A member that is a text: a quote and a backslash stand behind a backslash. Texts of the DNS have no other sign that JSON escapes.
    pub(crate) fn string(&mut self, name: &str, value: &str) -> Result<(), NoMemory> {
        self.name(name)?;
        self.text.push('"')?;
        for sign in value.chars() {
            if sign == '"' || sign == '\\' {
                self.text.push('\\')?;
            }
            self.text.push(sign)?;
        }
        self.text.push('"')?;
        self.is_begun = true;
        Ok(())
    }

    /// The text, on a line.
    pub(crate) fn into_line(self) -> Result<String, NoMemory> {
        let Json { mut text, .. } = self;
        text.push('\n')?;
        Ok(text)
    }
}
