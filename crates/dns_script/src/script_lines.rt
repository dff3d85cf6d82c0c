//! Scripts, read line by line.

ghost use Rattle.std.specs.Prelude.{◌≡◌, ◌↔◌, ◌++◌, IsTrue, Some, option_map};
ghost use Rattle.dns_script.specs.Reading.{Makes, MakesBy, Reads, named, numbers_of};
ghost use Rattle.dns_script.specs.Names.{script_names};
ghost use Rattle.std.specs.Str.{IsUtf8};
ghost use Rattle.dns_script.specs.ScriptReading.{ReadsScript, begun_with, event_of, TakesConf, TakesEvent, TakesLane, TakesLine, TakesNamed, TakesSet, TakesWords};

use crate::line::{LineFault, Lines, Words, split_first};
use crate::names::{ScriptName, script_named};
use crate::reading::event;
use crate::scan::is_ascii;
use crate::script::{Lanes, Script, ScriptFault};
use crate::settings::Settings;
use crate::told::check_what;
use client_request::{Event, Events, WordList};
use resolv_conf::{ResolvConf, line_laws};
use std::alloc::Global;
use std::str;

/// What the lines of a script said so far.
#[derive(Drop)]
pub(crate) struct ScriptReader {
    /// There may be lanes, and none has begun at first.
    pub many: bool,
    /// An event or a lane came.
    pub begun: bool,
    pub conf: ResolvConf,
    pub settings: Settings,
    pub words: WordList,
    /// The lanes that are whole.
    pub lanes: Lanes,
    /// The lane that is being read.
    pub lane: Option<Events>,
}

/// Adds a number for each word.
fn add_numbers(numbers: &mut WordList, words: &mut Words<'_>) -> Result<(), LineFault>
    ensures { Makes result numbers.new (option_map (λ more. numbers.old ++ more) (numbers_of words.old)) }
{
    while !words.is_empty() {
        numbers.push(words.u64()?)?;
    }
    Ok(())
}

/// The event that a text says.
fn event_of(alloc: Global, text: &[u8]) -> Result<Event, LineFault>
    ensures { Reads (λ e. e) result (event_of text.now) }
{
    let mut words = Words::of(text);
    let event = event(alloc, &mut words)?;
    words.end()?;
    Ok(event)
}

/// Whether octets are a text.
fn is_text(octets: &[u8]) -> bool
    ensures { IsTrue result ↔ IsUtf8 octets.now }
{
    is_ascii(octets) || str::from_utf8(octets).is_ok()
}

impl ScriptReader {
    /// Where `many`, no lane has begun.
    fn new(alloc: Global, many: bool) -> ScriptReader
        ensures { result ≡ begun_with many }
    {
        ScriptReader {
            many,
            begun: false,
            conf: ResolvConf::new(alloc),
            settings: Settings::new(),
            words: WordList::new(alloc),
            lanes: Lanes::new(alloc),
            lane: if many { None } else { Some(Events::new(alloc)) },
        }
    }

    fn conf_line(&mut self, alloc: Global, text: &str) -> Result<(), LineFault>
        ensures { MakesBy result self.new (TakesConf text.now self.old) }
    {
        if self.begun {
            return Err(LineFault::Refused);
        }
        // A line makes one thing of a configuration, so one that is refused is never taken.
        line_laws();
        match self.conf.parse_line(alloc, text) {
            Ok(()) => Ok(()),
            Err(resolv_conf::LineFault::Parse) => Err(LineFault::Refused),
            Err(resolv_conf::LineFault::NoMemory) => Err(LineFault::NoMemory),
        }
    }

    fn set_line(&mut self, text: &[u8]) -> Result<(), LineFault>
        ensures { MakesBy result self.new (TakesSet text.now self.old) }
    {
        if self.begun {
            return Err(LineFault::Refused);
        }
        self.settings.set(&mut Words::of(text))
    }

    fn words_line(&mut self, text: &[u8]) -> Result<(), LineFault>
        ensures { MakesBy result self.new (TakesWords text.now self.old) }
    {
        if self.begun {
            return Err(LineFault::Refused);
        }
        add_numbers(&mut self.words, &mut Words::of(text))
    }

    fn event_line(&mut self, alloc: Global, text: &[u8]) -> Result<(), LineFault>
        ensures { MakesBy result self.new (TakesEvent text.now self.old) }
    {
        let event = event_of(alloc, text)?;
        check_what(&event.what)?;
        let Some(lane) = &mut self.lane else {
            return Err(LineFault::Refused);
        };
        lane.push(event)?;
        self.begun = true;
        Ok(())
    }

    /// The next lane, of 64 at most.
    fn lane_line(&mut self, alloc: Global) -> Result<(), LineFault>
        ensures { MakesBy result self.new (TakesLane self.old) }
    {
        let whole = if self.lane.is_some() { 63 } else { 64 };
        if !self.many || self.lanes.len() >= whole {
            return Err(LineFault::Refused);
        }
        if let Some(lane) = self.lane.take() {
            self.lanes.push(lane)?;
        }
        self.lane = Some(Events::new(alloc));
        self.begun = true;
        Ok(())
    }

    /// A name and what stands behind it.
    fn named_line(&mut self, alloc: Global, name: &[u8], text: &[u8]) -> Result<(), LineFault>
        requires { IsUtf8 text.now }
        ensures { MakesBy result self.new (TakesNamed (named script_names name.now) text.now self.old) }
    {
        match script_named(name) {
            None => Err(LineFault::Refused),
            Some(ScriptName::Conf) => match str::from_utf8(text) {
                Ok(text) => self.conf_line(alloc, text),
                Err(_) => Err(LineFault::Refused),
            },
            Some(ScriptName::Set) => self.set_line(text),
            Some(ScriptName::Words) => self.words_line(text),
            Some(ScriptName::At) => self.event_line(alloc, text),
        }
    }

    /// Takes a line. A reader that gave an error is not used again.
    #[tactic(auto, using(crate::proofs::Parts::utf8_behind))]
    pub(crate) fn line(&mut self, alloc: Global, line: &[u8]) -> Result<(), LineFault>
        ensures { MakesBy result self.new (TakesLine line.now self.old) }
    {
        if !is_text(line) {
            return Err(LineFault::Refused);
        }
        if line.len() == 0 || line[0] == b'#' {
            return Ok(());
        }
        match split_first(line, b' ') {
            None if line == b"lane".as_slice() => self.lane_line(alloc),
            None => Err(LineFault::Refused),
            Some((name, text)) => self.named_line(alloc, name, text),
        }
    }
}

/// Reads a script. Where `lanes`, its events stand in lanes, of which there is one at least.
///
/// Its events are those of a trace, but that a fault is one that a socket tells: `expired`, `short-send`,
/// `nothing-taken` and `end-of-data` are found by the client itself. Each `conf` line is one that
/// `ResolvConf::parse_line` takes, and a `set` line has a setting of the choice among servers, of the cache or of transports, and
/// `on` or `off`, a number, or a number of seconds or milliseconds, which is cut into the setting's limits.
///
/// A text that is no script gives the first line that is refused, or the line after the last where a
/// lane is wanted and none came.
#[tactic(auto, using(crate::proofs::ScriptLoop::nothing_read, crate::proofs::ScriptLoop::line_read, crate::proofs::ScriptLoop::line_refused, crate::proofs::ScriptLoop::no_lane, crate::proofs::ScriptLoop::script_read))]
pub fn read_script(alloc: Global, text: &[u8], lanes: bool) -> Result<Script, ScriptFault>
    ensures { ReadsScript lanes text.now result }
{
    let mut reader = ScriptReader::new(alloc, lanes);
    let mut left = Lines { rest: text };
    let mut count: u64 = 0;
    while let Some(line) = left.take() {
        count += 1;
        match reader.line(alloc, line) {
            Ok(()) => {}
            Err(LineFault::Refused) => return Err(ScriptFault::Line(count)),
            Err(LineFault::NoMemory) => return Err(ScriptFault::NoMemory),
        }
    }
    let ScriptReader {
        conf,
        settings,
        words,
        mut lanes,
        lane,
        ..
    } = reader;
    match lane {
        None => Err(ScriptFault::Line(count + 1)),
        Some(lane) => match lanes.push(lane) {
            Ok(()) => Ok(Script {
                conf,
                redundant: settings.redundant,
                cache: settings.cache,
                transports: settings.transports,
                words,
                lanes,
            }),
            Err(_) => Err(ScriptFault::NoMemory),
        },
    }
}
