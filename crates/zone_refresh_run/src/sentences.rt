//! What is told of zones that are kept.

ghost use Rattle.std.specs.Prelude.{◌≡◌, IfOk, Some};
ghost use Rattle.std.specs.String.{string_bytes};
ghost use Rattle.zone_refresh_run.specs.Sentences as spec;

use crate::files::FileFault;
use crate::listing::Unlisted;
use crate::serials::NoSerial;
use crate::world::ZoneNews;
use client_request::Error;
use dns_base::{Name, NoMemory, Serial, SocketAddr};
use resolv_lookup::QueryFault;
use std::alloc::Global;
use std::fmt::{self, Display};
use zone_list::{ListFault, ListPart, Listed, WrongLine};
use zone_refresh::{Event, KeptZone, Phase, ZoneTimers};

/// The primary of a number among these.
#[derive(Clone, Copy)]
struct Primary<'a> {
    primaries: &'a [SocketAddr],
    number: usize,
}

impl Display for Primary<'_> {
    ghost output = { λ p. Some (spec.primary_text p.primaries.now p.number) };

    fn fmt<W: fmt::Write>(&self, f: &mut fmt::Formatter<W>) -> fmt::Result {
        match self.primaries.get(self.number) {
            Some(addr) => write!(f, "{addr}"),
            None => f.write_str("no primary"),
        }
    }
}

/// What is done next for a zone, as it is at a moment.
#[derive(Clone, Copy)]
struct NextStep<'a> {
    primaries: &'a [SocketAddr],
    moment: u64,
    phase: Phase,
}

impl Display for NextStep<'_> {
    ghost output = { λ n. Some (spec.next_text n.primaries.now n.moment n.phase) };

    fn fmt<W: fmt::Write>(&self, f: &mut fmt::Formatter<W>) -> fmt::Result {
        let primaries = self.primaries;
        match self.phase {
            Phase::Waiting(due) => {
                let seconds = due.saturating_sub(self.moment) / 1_000_000;
                write!(f, "asked again in {seconds} s")
            }
            Phase::Asking(number) => {
                let primary = Primary { primaries, number };
                write!(f, "{primary} is asked")
            }
            Phase::Fetching(number) => {
                let primary = Primary { primaries, number };
                write!(f, "it is fetched from {primary}")
            }
        }
    }
}

/// Whether a zone that is held has this serial.
fn has_serial(held: Option<ZoneTimers>, serial: u32) -> bool
    ensures { result ≡ spec.has_serial held serial }
{
    match held {
        Some(timers) => timers.serial.0 == serial,
        None => false,
    }
}

/// What a primary said, for a file.
#[derive(Clone, Copy)]
struct SaidSerial<'a> {
    primary: Primary<'a>,
    file: &'a str,
    serial: u32,
    is_held: bool,
}

impl Display for SaidSerial<'_> {
    ghost output = { λ s. Some (spec.said_text (spec.primary_text s.primary.primaries.now s.primary.number) s.file.now s.serial s.is_held) };

    fn fmt<W: fmt::Write>(&self, f: &mut fmt::Formatter<W>) -> fmt::Result {
        let (primary, file, serial) = (self.primary, self.file, self.serial);
        if self.is_held {
            write!(
                f,
                "{file} is up to date, serial {serial} as {primary} has it"
            )
        } else {
            write!(f, "{primary} has serial {serial}, and {file} has not")
        }
    }
}

/// Why a client got no answer.
#[derive(Clone, Copy)]
struct OfClient(Error);

impl Display for OfClient {
    ghost output = { λ of. Some (spec.client_text of.0) };

    fn fmt<W: fmt::Write>(&self, f: &mut fmt::Formatter<W>) -> fmt::Result {
        match self.0 {
            Error::TimedOut => f.write_str("no answer came in 10 seconds"),
            error => write!(f, "{error}"),
        }
    }
}

/// Why a question got no answer.
#[derive(Clone, Copy)]
struct OfFault(QueryFault);

impl Display for OfFault {
    ghost output = { λ of. Some (spec.fault_text of.0) };

    fn fmt<W: fmt::Write>(&self, f: &mut fmt::Formatter<W>) -> fmt::Result {
        match self.0 {
            QueryFault::Client(error) => Display::fmt(&OfClient(error), f),
            QueryFault::NoReply => f.write_str("no answer came in a million turns"),
        }
    }
}

/// Why a primary gave no serial.
impl Display for NoSerial {
    ghost output = { λ why. Some (spec.no_serial_text why) };

    fn fmt<W: fmt::Write>(&self, f: &mut fmt::Formatter<W>) -> fmt::Result {
        match *self {
            NoSerial::NotAsked => f.write_str(
                "it was not asked, since memory ran out or no random words could be had",
            ),
            NoSerial::Failed(fault) => Display::fmt(&OfFault(fault), f),
            NoSerial::Refused(code) => write!(f, "it answered {code}"),
            NoSerial::NotAuthoritative => f.write_str("its answer is not authoritative"),
            NoSerial::NoSoa => f.write_str("its answer has no SOA of the zone"),
        }
    }
}

/// Why a primary gave no serial, behind other words, where that is what it said last.
#[derive(Clone, Copy)]
struct Why(Option<Result<Serial, NoSerial>>);

impl Display for Why {
    ghost output = { λ why. Some (spec.why_text why.0) };

    fn fmt<W: fmt::Write>(&self, f: &mut fmt::Formatter<W>) -> fmt::Result {
        match self.0 {
            Some(Err(why)) => write!(f, ": {why}"),
            Some(Ok(_)) | None => Ok(()),
        }
    }
}

/// What came of a primary, for a zone and its file, where this was said last.
#[derive(Clone, Copy)]
struct Came<'a> {
    primary: Primary<'a>,
    file: &'a str,
    said: Option<Result<Serial, NoSerial>>,
    event: Event,
    held: Option<ZoneTimers>,
}

impl Display for Came<'_> {
    ghost output = { λ c. Some (spec.came_text (spec.primary_text c.primary.primaries.now c.primary.number) c.file.now c.said c.event c.held) };

    fn fmt<W: fmt::Write>(&self, f: &mut fmt::Formatter<W>) -> fmt::Result {
        let (primary, file) = (self.primary, self.file);
        match self.event {
            Event::Tick => Ok(()),
            Event::Answered(Serial(serial)) => {
                let is_held = has_serial(self.held, serial);
                let said = SaidSerial {
                    primary,
                    file,
                    serial,
                    is_held,
                };
                Display::fmt(&said, f)
            }
            Event::Unanswered => {
                let why = Why(self.said);
                write!(f, "{primary} gave no SOA{why}")
            }
            Event::Fetched(timers) => {
                let value = timers.serial.0;
                write!(
                    f,
                    "{file} is up to date, serial {value} came from {primary}"
                )
            }
            Event::NotFetched => write!(f, "nothing came from {primary}"),
        }
    }
}

/// What came of a primary, where this was said last, and what is next.
fn came_sentence(
    alloc: Global,
    listed: &Listed,
    said: Option<Result<Serial, NoSerial>>,
    number: usize,
    event: Event,
    moment: u64,
    zone: KeptZone,
) -> Result<String, NoMemory>
    ensures { IfOk result (λ s. string_bytes s ≡ spec.came_sentence listed.now said number event moment zone) }
{
    let (apex, primaries) = (&listed.zone, listed.primaries.as_slice());
    let came = Came {
        primary: Primary { primaries, number },
        file: listed.file.as_str(),
        said,
        event,
        held: zone.held,
    };
    let next = NextStep {
        primaries,
        moment,
        phase: zone.phase,
    };
    Ok(format!(in alloc; "zone_fetch: {apex}: {came}; {next}\n")?)
}

/// That a zone has expired.
fn expired_sentence(alloc: Global, apex: &Name) -> Result<String, NoMemory>
    ensures { IfOk result (λ s. string_bytes s ≡ spec.expired_sentence apex.now) }
{
    Ok(format!(in alloc;
        "zone_fetch: {apex}: expired: no primary has confirmed it for as long as its SOA says\n"
    )?)
}

/// The sentence that tells what there is to tell of a zone, where this was said last of a primary: what came of one, and what is next, or
/// that the zone has expired.
pub(crate) fn news_sentence(
    alloc: Global,
    listed: &Listed,
    said: Option<Result<Serial, NoSerial>>,
    news: ZoneNews,
) -> Result<String, NoMemory>
    ensures { IfOk result (λ s. string_bytes s ≡ spec.news_sentence listed.now said news) }
{
    match news {
        ZoneNews::Came {
            primary,
            event,
            moment,
            zone,
        } => came_sentence(alloc, listed, said, primary, event, moment, zone),
        ZoneNews::Expired => expired_sentence(alloc, &listed.zone),
    }
}

/// What a file has of its zone.
#[derive(Clone, Copy)]
struct OfHeld(Option<ZoneTimers>);

impl Display for OfHeld {
    ghost output = { λ held. Some (spec.held_text held.0) };

    fn fmt<W: fmt::Write>(&self, f: &mut fmt::Formatter<W>) -> fmt::Result {
        match self.0 {
            Some(timers) => {
                let serial = timers.serial.0;
                write!(f, "which has serial {serial}")
            }
            None => f.write_str("which has no zone yet"),
        }
    }
}

/// Where a zone is kept, and what its file has of it.
#[derive(Clone, Copy)]
struct KeptIn<'a> {
    file: &'a str,
    held: Option<ZoneTimers>,
}

impl Display for KeptIn<'_> {
    ghost output = { λ kept. Some (spec.kept_text kept.file.now kept.held) };

    fn fmt<W: fmt::Write>(&self, f: &mut fmt::Formatter<W>) -> fmt::Result {
        let (file, has) = (self.file, OfHeld(self.held));
        write!(f, "kept in {file}, {has}")
    }
}

/// The sentence that tells that a zone is kept from now on, and what its file has of it.
pub(crate) fn kept_sentence(
    alloc: Global,
    listed: &Listed,
    held: Option<ZoneTimers>,
) -> Result<String, NoMemory>
    ensures { IfOk result (λ s. string_bytes s ≡ spec.kept_sentence listed.now held) }
{
    let apex = &listed.zone;
    let kept = KeptIn {
        file: listed.file.as_str(),
        held,
    };
    Ok(format!(in alloc; "zone_fetch: {apex}: {kept}\n")?)
}

/// What is wrong with a line of a list.
#[derive(Clone, Copy)]
struct OfPart(ListPart);

impl Display for OfPart {
    ghost output = { λ of. Some (spec.part_text of.0) };

    fn fmt<W: fmt::Write>(&self, f: &mut fmt::Formatter<W>) -> fmt::Result {
        match self.0 {
            ListPart::Text => f.write_str("it is no text in UTF-8"),
            ListPart::Zone => f.write_str("the zone is no name"),
            ListPart::File => f.write_str("no file stands behind the zone"),
            ListPart::LongFile => f.write_str("the path of the file is too long"),
            ListPart::Primaries => f.write_str("no primary stands behind the file"),
            ListPart::Primary(place) => {
                write!(
                    f,
                    "primary {place} is no address with a port from 1 to 65535 behind @"
                )
            }
        }
    }
}

/// The sentence that tells what is wrong with a line of a list.
fn wrong_line_sentence(alloc: Global, list: &str, wrong: WrongLine) -> Result<String, NoMemory>
    ensures { IfOk result (λ s. string_bytes s ≡ spec.wrong_line_sentence list.now wrong) }
{
    let (line, part) = (wrong.line, OfPart(wrong.part));
    Ok(format!(in alloc; "zone_fetch: {list}: line {line}: {part}\n")?)
}

/// The sentence that tells why there is no list at a path.
pub(crate) fn unlisted_sentence(
    alloc: Global,
    list: &str,
    unlisted: Unlisted,
) -> Result<String, NoMemory>
    ensures { IfOk result (λ s. string_bytes s ≡ spec.unlisted_sentence list.now unlisted) }
{
    match unlisted {
        Unlisted::File(FileFault::Unread) => {
            Ok(format!(in alloc; "zone_fetch: {list} could not be read\n")?)
        }
        Unlisted::List(ListFault::Wrong(wrong)) => wrong_line_sentence(alloc, list, wrong),
        Unlisted::List(ListFault::TooLong) => {
            Ok(format!(in alloc; "zone_fetch: {list} is too long\n")?)
        }
        Unlisted::NoZone => Ok(format!(in alloc; "zone_fetch: {list} names no zone\n")?),
        Unlisted::File(FileFault::NoMemory) | Unlisted::List(ListFault::NoMemory) => Err(NoMemory),
    }
}
