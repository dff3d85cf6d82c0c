//! Reading a configuration from a source.

ghost use Rattle.std.specs.Prelude.{◌≡◌, ◌==◌, position, ◌<◌, ◌≤◌, ℕ, List, [], ◌∷◌, length, Some, Err, OnOk, OnErr, IfSome};
ghost use Rattle.dns_values.specs.Source.{Rose};
ghost use Rattle.resolv_conf.specs.Parse.{LineAnswers, LinesAnswer, ParseAnswers};
ghost use Rattle.resolv_conf.specs.Words.{lines_of};

use crate::conf::ResolvConf;
use crate::error::{Error, IoFault};
use crate::fault::LineFault;
use dns_values::{MOST_TEXT, Source, read_to_end};
use std::alloc::Global;
use std::str;

impl ResolvConf {
    /// Reads a source to its end, or to octet 16777217, and then takes its lines in order, up to
    /// the first bad one.
    ///
    /// `TooLong` where the source gives more than 16777216 octets, and `Io(Read)` only where its
    /// count of faults rose; both leave the configuration as it was. `Io(NotUtf8)` or `ParseError`
    /// name the first bad line, counted from 1: the lines before it stand, and of it what
    /// `parse_line` says. After `NoMemory` the lines before it stand.
    pub fn parse<S: Source>(&mut self, alloc: Global, source: &mut S) -> Result<(), Error>
        ensures answer { IfSome (S.left source.old) (λ text. ParseAnswers text self.old result self.new) }
        ensures whole { OnOk result (IfSome (S.left source.old) (λ _. S.left source.new ≡ Some [])) }
        ensures too_long { result ≡ Err (Error.TooLong) → self.new ≡ self.old }
        ensures not_read { result ≡ Err (Error.Io IoFault.Read) → self.new ≡ self.old }
        ensures failed { result ≡ Err (Error.Io IoFault.Read) → Rose (S.faults source.old) (S.faults source.new) }
        ensures count { S.faults source.old ≤ S.faults source.new }
    {
        let text = read_to_end(alloc, source, MOST_TEXT)?;
        self.take_lines(alloc, &text)
    }

    fn take_lines(&mut self, alloc: Global, text: &[u8]) -> Result<(), Error>
        ensures { LinesAnswer 1 (lines_of text.now) self.old result self.new }
    {
        let mut rest = text;
        let mut number = 1;
        while !rest.is_empty() {
            let (line, behind) = split_line(rest);
            match self.take_line(alloc, number, line) {
                Ok(()) => rest = behind,
                Err(e) => return Err(e),
            }
            number += 1;
        }
        Ok(())
    }

    fn take_line(&mut self, alloc: Global, number: u64, line: &[u8]) -> Result<(), Error>
        ensures { LineAnswers number line.now self.old result self.new }
    {
        let Ok(line) = str::from_utf8(line) else {
            return Err(Error::Io(IoFault::NotUtf8(number)));
        };
        match self.parse_line(alloc, line) {
            Ok(()) => Ok(()),
            Err(LineFault::Parse) => Err(Error::ParseError(number)),
            Err(LineFault::NoMemory) => Err(Error::NoMemory),
        }
    }
}

/// The first line, without its line feed, and the text behind it.
fn split_line(text: &[u8]) -> (&[u8], &[u8])
    requires { 0 < length text.now }
    ensures first { lines_of text.now ≡ result.0.now ∷ lines_of result.1.now }
    ensures shorter { length result.1.now < length text.now }
{
    match line_end(text) {
        Some(end) => (&text[..end], &text[end + 1..]),
        None => (text, &[]),
    }
}

/// Where the first line feed stands.
fn line_end(text: &[u8]) -> Option<usize>
    ensures { result ≡ position (λ c. c == 10) text.now }
{
    text.iter().position(|octet| *octet == b'\n')
}
