//! Reading a configuration as it is found.

ghost use Rattle.std.specs.Prelude.{◌≡◌, ◌≤◌, ◌<◌, ◌==◌, [], ◌∷◌, length, position, Some, IfOk, IfErr, IfSome, OnOk, MatchOption, option_copied};
ghost use Rattle.std.specs.String.{string_bytes};
ghost use Rattle.std.specs.Str.Iter.{split_whitespace_rest};
ghost use Rattle.dns_values.specs.Source.{Rose};
ghost use Rattle.dns_values.specs.declared.streams.ReadFault.TheVariants as faults;
ghost use Rattle.resolv_conf.specs.Words.{lines_of, words_of};
ghost use Rattle.resolver_policy.specs.Found.{IsFoundFrom, IsFoundIn, Reads, ReadsLine, ReadsLines, ReadsOptions, ReadsServer, ReadsWords, before_zone, beginning, is_of_server, option_line, takes_no_server, tell_of_servers, told, why_not};

use crate::note::{Note, Notes, Why};
use crate::plain::uncommented;
use dns_values::{MOST_TEXT, NoMemory, ReadFault, Source, read_to_end};
use resolv_conf::{LineFault, ResolvConf, ResolvOptions, Servers};
use std::alloc::Global;
use std::str::{self, SplitWhitespace};

/// What is found in a file: a configuration, which is not finalized, and what is told of its lines.
#[derive(Debug, Drop)]
pub struct Found {
    /// The configuration.
    pub conf: ResolvConf,
    /// What is told of lines that were not taken as they stand.
    pub notes: Notes,
}

/// Why a line may be refused, by its first word.
fn why_not(first: &str) -> Why
    ensures { result ≡ why_not first.now }
{
    match first {
        "domain" => Why::Domain,
        "search" => Why::Search,
        _ => Why::Keyword,
    }
}

/// Whether this is told of a line that names a server.
fn is_of_server(why: Why) -> bool
    ensures { result ≡ is_of_server why }
{
    match why {
        Why::Server | Why::Zone => true,
        _ => false,
    }
}

/// Whether any of these is told of a line that names a server.
fn tell_of_servers(notes: &[Note]) -> bool
    ensures { result ≡ tell_of_servers notes.now }
{
    notes.iter().any(|note| is_of_server(note.why))
}

/// The next word.
fn next_word<'a>(words: &mut SplitWhitespace<'a>) -> Option<&'a str>
    ensures { MatchOption result (words_of (split_whitespace_rest words.old) ≡ [])
        (λ word. words_of (split_whitespace_rest words.old) ≡ word.now ∷ words_of (split_whitespace_rest words.new)) }
{
    words.next()
}

/// A line up to its zone identifier, if it has one.
#[tactic(auto, unfolding(crate::specs::Found::before_zone))]
fn before_zone(line: &str) -> Option<&str>
    ensures { option_copied result ≡ before_zone line.now }
{
    match line.split_once('%') {
        Some((address, _)) => Some(address),
        None => None,
    }
}

/// A word of the options as a line of its own.
fn option_line(alloc: Global, word: &str) -> Result<String, NoMemory>
    ensures { IfOk result (λ s. string_bytes s ≡ option_line word.now) }
{
    Ok(format!(in alloc; "options {word}")?)
}

/// Where the first line feed stands.
fn line_end(text: &[u8]) -> Option<usize>
    ensures { result ≡ position (λ c. c == 10) text.now }
{
    text.iter().position(|octet| *octet == b'\n')
}

/// The first line, without its line feed, and the text behind it.
fn split_line(text: &[u8]) -> (&[u8], &[u8])
    requires { 0 < length text.now }
    ensures first { lines_of text.now ≡ result.0.now ∷ lines_of result.1.now }
    ensures shorter { length result.1.now < length text.now }
{
    match line_end(text) {
        Some(end) => (&text[..end], &text[end + 1..]),
        None => (text, &[]),
    }
}

impl Found {
    /// What is found where no line is, from these options on.
    fn new(alloc: Global, options: ResolvOptions) -> Found
        ensures { result ≡ beginning options }
    {
        Found {
            conf: ResolvConf {
                servers: Servers::new(alloc),
                options,
            },
            notes: Notes::new(alloc),
        }
    }

    /// Tells of a line.
    fn tell(&mut self, line: u64, why: Why) -> Result<(), NoMemory>
        ensures { OnOk result (self.new ≡ told line why self.old) }
    {
        self.notes.push(Note { line, why })
    }

    /// Reads a line as an exact one is read, and tells of it where it is refused.
    fn read_exactly(
        &mut self,
        alloc: Global,
        number: u64,
        why: Why,
        line: &str,
    ) -> Result<(), NoMemory>
        ensures { OnOk result (Reads number why line.now self.old self.new) }
    {
        match self.conf.parse_line(alloc, line) {
            Ok(()) => Ok(()),
            Err(LineFault::Parse) => self.tell(number, why),
            Err(LineFault::NoMemory) => Err(NoMemory),
        }
    }

    /// Reads each word of the options.
    fn read_options(
        &mut self,
        alloc: Global,
        number: u64,
        mut words: SplitWhitespace<'_>,
    ) -> Result<(), NoMemory>
        ensures { OnOk result (ReadsOptions number (words_of (split_whitespace_rest words.entry)) self.old self.new) }
    {
        while let Some(word) = next_word(&mut words) {
            let line = option_line(alloc, word)?;
            self.read_exactly(alloc, number, Why::Option, line.as_str())?;
        }
        Ok(())
    }

    /// Reads a line that names a server, without a zone identifier.
    fn read_server(&mut self, alloc: Global, number: u64, line: &str) -> Result<(), NoMemory>
        ensures { OnOk result (ReadsServer (before_zone line.now) number line.now self.old self.new) }
    {
        match before_zone(line) {
            Some(address) => {
                self.tell(number, Why::Zone)?;
                self.read_exactly(alloc, number, Why::Server, address)
            }
            None => self.read_exactly(alloc, number, Why::Server, line),
        }
    }

    /// Reads a line without its comment.
    fn read_words(&mut self, alloc: Global, number: u64, line: &str) -> Result<(), NoMemory>
        ensures { OnOk result (ReadsWords number line.now (words_of line.now) self.old self.new) }
    {
        let mut words = line.split_whitespace();
        let Some(first) = next_word(&mut words) else {
            return Ok(());
        };
        match first {
            "options" => self.read_options(alloc, number, words),
            "nameserver" => self.read_server(alloc, number, line),
            _ => self.read_exactly(alloc, number, why_not(first), line),
        }
    }

    /// Reads a line.
    fn read_line(&mut self, alloc: Global, number: u64, line: &[u8]) -> Result<(), NoMemory>
        ensures { OnOk result (ReadsLine number line.now self.old self.new) }
    {
        match str::from_utf8(uncommented(line)) {
            Ok(line) => self.read_words(alloc, number, line),
            Err(_) => self.tell(number, Why::NotUtf8),
        }
    }

    /// Reads the lines of a text.
    fn read_lines(&mut self, alloc: Global, text: &[u8]) -> Result<(), NoMemory>
        ensures { OnOk result (ReadsLines 1 (lines_of text.now) self.old self.new) }
    {
        let mut rest = text;
        let mut number = 1;
        while !rest.is_empty() {
            let (line, behind) = split_line(rest);
            self.read_line(alloc, number, line)?;
            rest = behind;
            number += 1;
        }
        Ok(())
    }

    /// Reads a source to its end, or to octet 16777217, and takes of each line what is understood. What it doesn't say of the
    /// options is as it is said here.
    ///
    /// A line is read without its comment, which begins with a semicolon or a number sign that stands first or behind a blank.
    /// Then it is read as `ResolvConf::parse_line` does, each option for itself and an address without its zone identifier.
    /// What is refused is told, with the line's number, and reading goes on.
    ///
    /// `TooLong` where the source gives more than 16777216 octets, `Failed` only where its count of faults rose, and `NoMemory`.
    pub fn read_from<S: Source>(
        alloc: Global,
        options: ResolvOptions,
        source: &mut S,
    ) -> Result<Found, ReadFault>
        ensures found { IfOk result (λ found. IfSome (S.left source.old) (λ text. IsFoundFrom options text found × (S.left source.new ≡ Some []))) }
        ensures too_long { IfErr result (λ e. e ≡ faults.TooLong → IfSome (S.left source.old) (λ text. 16777216 < length text)) }
        ensures failed { IfErr result (λ e. e ≡ faults.Failed → Rose (S.faults source.old) (S.faults source.new)) }
        ensures count { S.faults source.old ≤ S.faults source.new }
    {
        let text = read_to_end(alloc, source, MOST_TEXT)?;
        let mut found = Found::new(alloc, options);
        match found.read_lines(alloc, &text) {
            Ok(()) => Ok(found),
            Err(NoMemory) => Err(ReadFault::NoMemory),
        }
    }

    /// The same, where what is not said of the options is as by default.
    pub fn read<S: Source>(alloc: Global, source: &mut S) -> Result<Found, ReadFault>
        ensures found { IfOk result (λ found. IfSome (S.left source.old) (λ text. IsFoundIn text found × (S.left source.new ≡ Some []))) }
        ensures too_long { IfErr result (λ e. e ≡ faults.TooLong → IfSome (S.left source.old) (λ text. 16777216 < length text)) }
        ensures failed { IfErr result (λ e. e ≡ faults.Failed → Rose (S.faults source.old) (S.faults source.new)) }
        ensures count { S.faults source.old ≤ S.faults source.new }
    {
        Found::read_from(alloc, ResolvOptions::new(alloc), source)
    }

    /// Whether lines name servers, and none of them is taken.
    pub fn takes_no_server(&self) -> bool
        ensures { result ≡ takes_no_server self.now }
    {
        match self.conf.servers.as_slice() {
            [] => tell_of_servers(self.notes.as_slice()),
            _ => false,
        }
    }
}
