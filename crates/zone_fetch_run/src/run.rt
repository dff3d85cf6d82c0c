//! What the program does.

ghost use Rattle.std.specs.Prelude.{◌≡◌, ◌≢◌, ◌⊎◌, Some, IfOk, IfErr, IfSome};
ghost use Rattle.dns_values.specs.Sink.{IsFlushed};
ghost use Rattle.dns_values.specs.Source.{Rose};
ghost use Rattle.zone_fetch_run.specs.Ends.{CommandEndsIn, FetchEndsIn, HasStopped, HasZone, IsBase, IsFiled, IsOfFile, IsOfReading, IsUnbased, LineEnds, RoseUnread, TellsBySentence, Texts, seen};
ghost use Rattle.zone_fetch_run.specs.Fetching.{over};

use crate::command::{Command, command_of};
use crate::explaining::{tell_detour, tell_no_memory, tell_refusal, tell_stop, tell_written};
use crate::fetching::bring;
use crate::leading::Detour;
use crate::putting::{put_zone, tell_zone};
use crate::replacing::Replacing;
use crate::stop::{Stop, tell};
use crate::world::{FetchWorld, Means};
use crate::wrong::Fault;
use client_core::{Clock, Edge};
use client_request::Words;
use command_parts::statuses;
use dns_base::{ReadFault, Sink, Status, read_to_end};
use resolv_conf::OpenFile;
use std::alloc::Global;
use zone_records::Zone;
use zone_text::{Unread, zone_of};
use zone_transfer::Progress;

/// The octets of the file at a path.
fn octets_at<O: OpenFile>(alloc: Global, opener: &mut O, path: &str) -> Result<Vec<u8>, Stop>
    ensures octets { IfOk result (λ v. IfSome (O.files opener.old) (λ file_at. file_at path.now ≡ Some v.items)) }
    ensures stopped { IfErr result IsOfReading }
    ensures unread { IfErr result (RoseUnread (O.faults opener.old) (O.faults opener.new)) }
{
    if opener.open_file(path).is_err() {
        return Err(Stop::Unread);
    }
    match read_to_end(alloc, opener, usize::MAX) {
        Ok(octets) => Ok(octets),
        Err(ReadFault::Failed) => Err(Stop::Unread),
        Err(ReadFault::TooLong) => Err(Stop::NoMemory),
        Err(ReadFault::NoMemory) => Err(Stop::NoMemory),
    }
}

/// The zone of the text that the file at a path has.
#[tactic(auto, using(crate::proofs::Asked::of_reading))]
fn zone_at<O: OpenFile>(
    alloc: Global,
    command: &Command,
    opener: &mut O,
    path: &str,
) -> Result<Zone, Stop>
    ensures zone { IfOk result (IsFiled command.now.apex path.now (O.files opener.old)) }
    ensures stopped { IfErr result (IsOfFile command.now.apex path.now (O.files opener.old)) }
    ensures unread { IfErr result (RoseUnread (O.faults opener.old) (O.faults opener.new)) }
{
    let octets = octets_at(alloc, opener, path)?;
    let apex = command.apex.try_clone(alloc)?;
    match zone_of(alloc, octets.as_slice(), apex) {
        Ok(zone) => Ok(zone),
        Err(Unread::NoZone(flaw)) => Err(Stop::NotPrinted(flaw)),
        Err(Unread::NoMemory) => Err(Stop::NoMemory),
    }
}

/// The zone before: what the file has that the words name, or none.
fn zone_before<O: OpenFile>(alloc: Global, command: &Command, opener: &mut O) -> Result<Zone, Stop>
    ensures zone { IfOk result (IsBase command.now (O.files opener.old)) }
    ensures stopped { IfErr result (IsUnbased command.now (O.files opener.old)) }
    ensures unread { IfErr result (RoseUnread (O.faults opener.old) (O.faults opener.new)) }
{
    match &command.file {
        Some(path) => zone_at(alloc, command, opener, path.as_str()),
        None => {
            let apex = command.apex.try_clone(alloc)?;
            Ok(Zone::empty(alloc, apex))
        }
    }
}

/// The zone that a command asks for, and why it was asked for whole, if its changes were asked for before.
fn zone_asked<O: OpenFile, E: Edge, C: Clock, W: Words, P: Progress>(
    alloc: Global,
    command: &Command,
    opener: &mut O,
    edge: &mut E,
    later: &mut E,
    means: &mut Means<C, W, P>,
) -> (Option<Detour>, Result<Zone, Stop>)
    ensures zone { IfOk result.1 (λ zone. over E.deeds E.polls C.given (edge.old, later.old, means.old.clock) (edge.new, later.new, means.new.clock) (HasZone command.now (O.files opener.old) (W.stream means.old.random) zone result.0)) }
    ensures stop { IfErr result.1 (λ stop. over E.deeds E.polls C.given (edge.old, later.old, means.old.clock) (edge.new, later.new, means.new.clock) (HasStopped command.now (O.files opener.old) (W.stream means.old.random) result.0 stop)) }
    ensures unread { IfErr result.1 (RoseUnread (O.faults opener.old) (O.faults opener.new)) }
{
    let mut zone = match zone_before(alloc, command, opener) {
        Ok(zone) => zone,
        Err(stop) => return (None, Err(stop)),
    };
    let (detour, end) = bring(alloc, command, &mut zone, edge, later, means);
    means.progress.end();
    match end {
        Ok(()) => (detour, Ok(zone)),
        Err(left) => (detour, Err(Stop::NotBrought(left))),
    }
}

/// Does what the words ask for, `[--text] [--port P] [--most OCTETS] [--from FILE] [--output FILE] ZONE ADDRESS`, and answers the exit
/// status. What `--output` says is the caller's: the zone is written to the sink.
///
/// 0: the zone was written whole, a line for each record. 1: the file has no text of the zone, and the line says which line of it is
/// wrong first, and how. 2: the words are others; nothing is written. 3: the file can't be read; nothing is written. 4: the sink failed.
/// 5: the zone was not fetched, or its serial is not greater than the file's, and the line says why. 6: memory ran out. 7: numbers are
/// used up. 9: the server's zone has the file's serial.
///
/// No edge was used before. The later one is used where changes were asked for and do not lead on (RFC 1995 4). While it turns, the
/// means' `progress` is told how far the transfer is.
pub fn run_fetch<O: OpenFile, K: Sink, E: Edge, C: Clock, W: Words, P: Progress>(
    alloc: Global,
    words: &[String],
    opener: &mut O,
    sink: &mut K,
    edge: &mut E,
    later: &mut E,
    means: &mut Means<C, W, P>,
) -> Status
    ensures ends { over E.deeds E.polls C.given (edge.old, later.old, means.old.clock) (edge.new, later.new, means.new.clock) (LineEnds K.held K.faults words.now (O.files opener.old) (W.stream means.old.random) result sink.old sink.new) }
    ensures unread { result.0 ≡ 3 → Rose (O.faults opener.old) (O.faults opener.new) }
    ensures flushed { result.0 ≡ 0 → IsFlushed (K.held sink.new) (K.flushed sink.new) }
{
    let command = match command_of(alloc, words) {
        Ok(command) => command,
        Err(Fault::Refused(_)) => return statuses::USAGE,
        Err(Fault::NoMemory) => return statuses::NO_MEMORY,
    };
    let (_, asked) = zone_asked(alloc, &command, opener, edge, later, means);
    match asked {
        Ok(zone) => tell_zone(alloc, sink, &zone, command.text),
        Err(stop) => tell(alloc, sink, stop),
    }
}

/// Does what a command says: the zone is put in the place of a file where it says so, and else written to the sink, and a sentence to
/// `errors` tells why the status is another than 0: which file can't be read or has no text of the zone, and why; which zone was not fetched
/// of which server, and why; or that the sink or the file could not be written, or memory ran out. Nothing is written to the sink then,
/// but what it took of a zone, and no file is replaced. Where changes did not lead on, a sentence before says why the zone was asked for
/// whole, on status 0 too. A fault of `errors` changes no status.
pub fn fetch_for<
    O: OpenFile,
    K: Sink,
    L: Sink,
    E: Edge,
    C: Clock,
    W: Words,
    P: Progress,
    F: Replacing,
>(
    alloc: Global,
    command: &Command,
    sink: &mut K,
    errors: &mut L,
    world: &mut FetchWorld<O, E, C, W, P, F>,
) -> Status
    ensures ends { (words : Texts) → CommandEndsIn E.deeds E.polls C.given O.files W.stream command.now (seen K.held K.flushed K.faults F.placed F.faults L.held L.faults (sink.old, world.old.files, errors.old) (sink.new, world.new.files, errors.new) (TellsBySentence words)) result.0 world.old world.new }
    ensures unread { result.0 ≡ 3 → Rose (O.faults world.old.opener) (O.faults world.new.opener) }
    ensures unplaced { result.0 ≢ 0 → F.placed world.new.files ≡ F.placed world.old.files }
    ensures handed_on { result.0 ≢ 0 → result.0 ≢ 6 → IsFlushed (L.held errors.new) (L.flushed errors.new) ⊎ Rose (L.faults errors.old) (L.faults errors.new) }
{
    let (detour, asked) = zone_asked(
        alloc,
        command,
        &mut world.opener,
        &mut world.edge,
        &mut world.later,
        &mut world.means,
    );
    let Ok(()) = tell_detour(alloc, command, detour, errors) else {
        return tell_no_memory(errors);
    };
    match asked {
        Ok(zone) => {
            let status = put_zone(alloc, command, sink, &mut world.files, &zone);
            tell_written(alloc, command, status, errors)
        }
        Err(stop) => tell_stop(alloc, command, stop, errors),
    }
}

/// Does what the words ask for, as `run_fetch`, but puts the zone in the place of a file where they say so, and tells in a sentence to
/// `errors` why the status is another than 0: which word is wrong, or what is missing, or what `fetch_for` tells.
pub fn fetch_to<
    O: OpenFile,
    K: Sink,
    L: Sink,
    E: Edge,
    C: Clock,
    W: Words,
    P: Progress,
    F: Replacing,
>(
    alloc: Global,
    words: &[String],
    sink: &mut K,
    errors: &mut L,
    world: &mut FetchWorld<O, E, C, W, P, F>,
) -> Status
    ensures ends { FetchEndsIn E.deeds E.polls C.given O.files W.stream words.now (seen K.held K.flushed K.faults F.placed F.faults L.held L.faults (sink.old, world.old.files, errors.old) (sink.new, world.new.files, errors.new) (TellsBySentence words.now)) result.0 world.old world.new }
    ensures unread { result.0 ≡ 3 → Rose (O.faults world.old.opener) (O.faults world.new.opener) }
    ensures unplaced { result.0 ≢ 0 → F.placed world.new.files ≡ F.placed world.old.files }
    ensures handed_on { result.0 ≢ 0 → result.0 ≢ 6 → IsFlushed (L.held errors.new) (L.flushed errors.new) ⊎ Rose (L.faults errors.old) (L.faults errors.new) }
{
    match command_of(alloc, words) {
        Ok(command) => fetch_for(alloc, &command, sink, errors, world),
        Err(Fault::Refused(refusal)) => tell_refusal(alloc, words, refusal, errors),
        Err(Fault::NoMemory) => tell_no_memory(errors),
    }
}
