//! The sentences that tell why no zone is written, or not whole.

ghost use Rattle.std.specs.Prelude.{◌≡◌, IfOk, Some};
ghost use Rattle.std.specs.String.{string_bytes};
ghost use Rattle.zone_fetch_run.specs.Sentences as spec;

use crate::command::Command;
use crate::leading::{Detour, Left};
use crate::stop::Stop;
use crate::wrong::{Refusal, Wrong};
use client_request::{Error, Fault};
use dns_base::NoMemory;
use std::alloc::Global;
use std::fmt::{self, Display};
use zone_records::{ApplyFault, XfrFault};
use zone_text::Flaw;
use zone_transfer::FetchFault;

/// What is told where memory ran out.
pub(crate) const MEMORY: &[u8] = b"zone_fetch: memory ran out\n";

/// What is told where the sink failed.
pub(crate) const UNPRINTED: &str = "zone_fetch: writing to standard output failed\n";

/// What is wrong with a word, behind this one. Where an address must stand that is the zone, which may be a misspelled option.
#[derive(Clone, Copy)]
struct Behind<'a> {
    wrong: Wrong,
    before: &'a str,
}

impl Display for Behind<'_> {
    ghost output = { λ b. Some (spec.wrong_text b.before.now b.wrong) };

    fn fmt<W: fmt::Write>(&self, f: &mut fmt::Formatter<W>) -> fmt::Result {
        match self.wrong {
            Wrong::Port => f.write_str("is no port from 1 to 65535"),
            Wrong::Most => f.write_str("is no count of octets"),
            Wrong::Zone => f.write_str("is neither an option nor the name of a zone"),
            Wrong::Address => {
                let before = self.before;
                write!(
                    f,
                    "stands behind the zone {before}, where the server must, and is no address"
                )
            }
            Wrong::More => f.write_str("stands behind the server's address, where no word may"),
        }
    }
}

/// The word of a number, or none at all.
fn word_at(words: &[String], at: usize) -> &str
    ensures { result.now ≡ spec.word_at words.now at }
{
    match words.get(at) {
        Some(word) => word.as_str(),
        None => "",
    }
}

/// What is wrong with the word of a number.
fn word_text(alloc: Global, words: &[String], at: usize, wrong: Wrong) -> Result<String, NoMemory>
    ensures { IfOk result (λ s. string_bytes s ≡ spec.word_text words.now at wrong) }
{
    let word = word_at(words, at);
    let before = word_at(words, at.saturating_sub(1));
    let behind = Behind { wrong, before };
    Ok(format!(in alloc; "{word} {behind}")?)
}

/// What is wrong with words, which names the wrong one as it was given.
fn refusal_text(alloc: Global, words: &[String], refusal: Refusal) -> Result<String, NoMemory>
    ensures { IfOk result (λ s. string_bytes s ≡ spec.refusal_text words.now refusal) }
{
    let text = match refusal {
        Refusal::Word { at, wrong } => return word_text(alloc, words, at, wrong),
        Refusal::NoPort => "no port stands behind --port",
        Refusal::NoMost => "no count of octets stands behind --most",
        Refusal::NoFile => "no file stands behind --from",
        Refusal::NoOutput => "no file stands behind --output",
        Refusal::NoZone => "no zone is asked for",
        Refusal::NoAddress => "no address of a server stands behind the zone",
    };
    Ok(String::from_str(alloc, text)?)
}

/// The sentence that tells why words are no command.
pub(crate) fn refusal_sentence(
    alloc: Global,
    words: &[String],
    refusal: Refusal,
) -> Result<String, NoMemory>
    ensures { IfOk result (λ s. string_bytes s ≡ spec.refusal_sentence words.now refusal) }
{
    let text = refusal_text(alloc, words, refusal)?;
    Ok(format!(in alloc; "zone_fetch: {text}; see zone_fetch --help\n")?)
}

/// What failed at the reading of a stream.
#[derive(Clone, Copy)]
struct OfReading(Fault);

impl Display for OfReading {
    ghost output = { λ of. Some (spec.read_text of.0) };

    fn fmt<W: fmt::Write>(&self, f: &mut fmt::Formatter<W>) -> fmt::Result {
        match self.0 {
            Fault::EndOfData => {
                f.write_str("the server closed the stream before the transfer's end")
            }
            fault => write!(f, "reading the stream failed: {fault}"),
        }
    }
}

/// What failed at the stream of a transfer, with the fault of it where there is one.
#[derive(Clone, Copy)]
struct OfStream(Error);

impl Display for OfStream {
    ghost output = { λ of. Some (spec.stream_text of.0) };

    fn fmt<W: fmt::Write>(&self, f: &mut fmt::Formatter<W>) -> fmt::Result {
        match self.0 {
            Error::StreamReadError(fault) => {
                f.write_str("failed transport: ")?;
                Display::fmt(&OfReading(fault), f)
            }
            Error::StreamUnexpectedEndOfData => {
                f.write_str("failed transport: the stream was cut within a message")
            }
            Error::StreamReadTimeout => {
                f.write_str("failed transport: no message came for 19 seconds")
            }
            Error::WrongReplyForQuery => {
                f.write_str("failed transport: a message came that answers another question")
            }
            Error::StreamWriteError(fault) => {
                write!(f, "failed transport: writing to the stream failed: {fault}")
            }
            Error::NumbersUsed => f.write_str("numbers used: a number would pass 64 bits"),
            error => write!(f, "failed transport: {error}"),
        }
    }
}

/// What the messages are in place of a transfer.
#[derive(Clone, Copy)]
struct OfTransfer(XfrFault);

impl Display for OfTransfer {
    ghost output = { λ of. Some (spec.transfer_text of.0) };

    fn fmt<W: fmt::Write>(&self, f: &mut fmt::Formatter<W>) -> fmt::Result {
        match self.0 {
            XfrFault::NotValid => f.write_str(
                "what came is no transfer of the zone: it ends otherwise than it began, or has a record that no zone holds",
            ),
            XfrFault::SingleSoa(serial) => {
                let serial = serial.0;
                write!(
                    f,
                    "the server has no changes, and a zone with serial {serial}"
                )
            }
            XfrFault::AlreadyFinished => f.write_str("more came behind the transfer's end"),
            XfrFault::NoMemory => f.write_str("memory ran out"),
        }
    }
}

/// Why changes are not those of the zone that a file has.
#[derive(Clone, Copy)]
struct OfChanges(ApplyFault);

impl Display for OfChanges {
    ghost output = { λ of. Some (spec.apply_text of.0) };

    fn fmt<W: fmt::Write>(&self, f: &mut fmt::Formatter<W>) -> fmt::Result {
        match self.0 {
            ApplyFault::WrongSerial { have: _, got } => {
                let serial = got.0;
                write!(f, "the changes are those of a zone with serial {serial}")
            }
            ApplyFault::Unfinished => f.write_str("the changes do not end"),
            ApplyFault::NoMemory => f.write_str("memory ran out"),
        }
    }
}

/// Why a zone was not fetched of which so many octets are taken at most.
#[derive(Clone, Copy)]
struct Told {
    most: u64,
    fault: FetchFault,
}

impl Display for Told {
    ghost output = { λ told. Some (spec.told_fault told.most told.fault) };

    fn fmt<W: fmt::Write>(&self, f: &mut fmt::Formatter<W>) -> fmt::Result {
        match self.fault {
            FetchFault::Connect(fault) => write!(f, "failed connect: {fault}"),
            FetchFault::Transport(error) => Display::fmt(&OfStream(error), f),
            FetchFault::Refused(code) => { write!(f, "failed refused: the server answered {code}") }
            FetchFault::Xfr(fault) => {
                f.write_str("failed transfer: ")?;
                Display::fmt(&OfTransfer(fault), f)
            }
            FetchFault::Apply(fault) => {
                f.write_str("failed serial: ")?;
                Display::fmt(&OfChanges(fault), f)
            }
            FetchFault::TooLarge => {
                let most = self.most;
                write!(
                    f,
                    "failed too-large: its records take more than {most} octets, which --most says"
                )
            }
            FetchFault::NoReply => {
                f.write_str("failed no-reply: the server was silent for a million turns")
            }
            FetchFault::NoMemory => f.write_str("memory ran out"),
        }
    }
}

/// A serial that is not greater than another.
#[derive(Clone, Copy)]
struct Compared {
    have: u32,
    got: u32,
}

impl Display for Compared {
    ghost output = { λ of. Some (spec.compared_text of.have of.got) };

    fn fmt<W: fmt::Write>(&self, f: &mut fmt::Formatter<W>) -> fmt::Result {
        let (have, got) = (self.have, self.got);
        write!(f, "its serial {got} is not greater than {have}")
    }
}

/// Why a zone is left as it was, where the words named this file and so many octets were taken at most.
#[derive(Clone, Copy)]
struct OfLeft<'a> {
    most: u64,
    path: &'a str,
    left: Left,
}

impl Display for OfLeft<'_> {
    ghost output = { λ of. Some (spec.left_told of.most of.path.now of.left) };

    fn fmt<W: fmt::Write>(&self, f: &mut fmt::Formatter<W>) -> fmt::Result {
        let path = self.path;
        match self.left {
            Left::NotFetched(fault) => {
                let most = self.most;
                Display::fmt(&Told { most, fault }, f)
            }
            Left::Unchanged(serial) => {
                let serial = serial.0;
                write!(f, "unchanged: its serial is {serial}, which {path} has")
            }
            Left::NotNewer { have, got } => {
                let compared = Compared {
                    have: have.0,
                    got: got.0,
                };
                write!(f, "failed serial: {compared}, which {path} has")
            }
        }
    }
}

impl Display for Detour {
    ghost output = { λ detour. Some (spec.detour_text detour) };

    fn fmt<W: fmt::Write>(&self, f: &mut fmt::Formatter<W>) -> fmt::Result {
        match self {
            Detour::Refused(code) => write!(
                f,
                "asked for whole: the server answered {code} where its changes were asked for"
            ),
            Detour::NoChanges(serial) => {
                let serial = serial.0;
                write!(
                    f,
                    "asked for whole: the server has no changes, and a zone with serial {serial}"
                )
            }
            Detour::Misfits(count) => write!(
                f,
                "asked for whole: of its changes {count} delete what is not there, or add what is"
            ),
        }
    }
}

/// The sentence that tells this of a zone and its server.
fn server_sentence(alloc: Global, command: &Command, text: &str) -> Result<String, NoMemory>
    ensures { IfOk result (λ s. string_bytes s ≡ spec.server_sentence command.now text.now) }
{
    let (apex, server) = (&command.apex, command.server);
    Ok(format!(in alloc; "zone_fetch: {apex} from {server}: {text}\n")?)
}

/// The sentence that tells why the whole zone was asked for in place of its changes; nothing where it was not.
pub(crate) fn detour_sentence(
    alloc: Global,
    command: &Command,
    detour: Option<Detour>,
) -> Result<String, NoMemory>
    ensures { IfOk result (λ s. string_bytes s ≡ spec.detour_sentence command.now detour) }
{
    let Some(why) = detour else {
        return Ok(String::new(alloc));
    };
    let text = format!(in alloc; "{why}")?;
    server_sentence(alloc, command, text.as_str())
}

/// The sentence that tells why a zone is left as it was.
fn left_sentence(alloc: Global, command: &Command, left: Left) -> Result<String, NoMemory>
    ensures { IfOk result (λ s. string_bytes s ≡ spec.server_sentence command.now (spec.left_text command.now left)) }
{
    let told = OfLeft {
        most: command.most,
        path: path_of(command),
        left,
    };
    let text = format!(in alloc; "{told}")?;
    server_sentence(alloc, command, text.as_str())
}

/// The sentence of a file that has no printed zone: which file, and why.
fn flaw_sentence(alloc: Global, path: &str, flaw: Flaw) -> Result<String, NoMemory>
    ensures { IfOk result (λ s. string_bytes s ≡ spec.flaw_sentence path.now flaw) }
{
    Ok(format!(in alloc; "zone_fetch: {path}: no printed zone: {flaw}\n")?)
}

/// The file that the words name, or none at all.
fn path_of(command: &Command) -> &str
    ensures { result.now ≡ spec.path_text command.now }
{
    match &command.file {
        Some(path) => path.as_str(),
        None => "",
    }
}

/// The sentence that tells why no zone is written.
pub(crate) fn stop_sentence(
    alloc: Global,
    command: &Command,
    stop: Stop,
) -> Result<String, NoMemory>
    ensures { IfOk result (λ s. string_bytes s ≡ spec.stop_sentence command.now stop) }
{
    let path = path_of(command);
    match stop {
        Stop::Unread => Ok(format!(in alloc; "zone_fetch: {path} could not be read\n")?),
        Stop::NotPrinted(flaw) => flaw_sentence(alloc, path, flaw),
        Stop::NotBrought(left) => left_sentence(alloc, command, left),
        Stop::NoMemory => Err(NoMemory),
    }
}

/// The sentence that tells that a zone was not written whole.
pub(crate) fn unwritten_sentence(alloc: Global, command: &Command) -> Result<String, NoMemory>
    ensures { IfOk result (λ s. string_bytes s ≡ spec.unwritten_sentence command.now) }
{
    match &command.output {
        Some(path) => {
            let path = path.as_str();
            Ok(format!(in alloc; "zone_fetch: {path} could not be written\n")?)
        }
        None => Ok(String::from_str(alloc, UNPRINTED)?),
    }
}
