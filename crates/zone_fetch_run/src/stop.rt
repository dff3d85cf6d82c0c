//! How the program ends where no zone is written.

ghost use Rattle.std.specs.Prelude.{◌≡◌, ◌≢◌, ◌⊎◌, IfOk};
ghost use Rattle.std.specs.String.{string_bytes};
ghost use Rattle.zone_fetch_run.specs.declared.stop.Stop.{Stop};
ghost use Rattle.zone_fetch_run.specs.Stops.{Tells, fault_line, fault_status, left_line, left_status, line_of, status_of};

use crate::leading::Left;
use client_request::Error;
use command_parts::{end_by, statuses};
use dns_base::{NoMemory, Sink, Status};
use std::alloc::Global;
use zone_text::Flaw;
use zone_transfer::FetchFault;

/// Why no zone is written.
#[derive(Clone, Copy)]
pub(crate) enum Stop {
    /// The file can't be read.
    Unread,
    /// The file has no text of the zone.
    NotPrinted(Flaw),
    /// The zone is left as it was.
    NotBrought(Left),
    /// Memory ran out.
    NoMemory,
}

/// The server's zone is the one that is there.
const UNCHANGED: Status = Status(9);

impl From<NoMemory> for Stop {
    ghost use Rattle.zone_fetch_run.specs.declared.stop.Stop.{Stop};

    ghost from_gives = { λ _ e. e ≡ Stop.NoMemory };

    fn from(_e: NoMemory) -> Stop {
        Stop::NoMemory
    }
}

fn fault_status(fault: FetchFault) -> Status
    ensures status { result.0 ≡ fault_status fault }
    ensures others { (result.0 ≡ 5) ⊎ ((result.0 ≡ 6) ⊎ (result.0 ≡ 7)) }
{
    match fault {
        FetchFault::NoMemory => statuses::NO_MEMORY,
        FetchFault::Transport(Error::NumbersUsed) => statuses::NUMBERS_USED,
        _ => statuses::NO_REPLY,
    }
}

fn fault_line(fault: FetchFault) -> &'static str
    ensures { result.now ≡ fault_line fault }
{
    match fault {
        FetchFault::NoMemory => "",
        FetchFault::Transport(Error::NumbersUsed) => "numbers used\n",
        FetchFault::Connect(_) => "failed connect\n",
        FetchFault::Transport(_) => "failed transport\n",
        FetchFault::Refused(_) => "failed refused\n",
        FetchFault::Xfr(_) => "failed transfer\n",
        FetchFault::Apply(_) => "failed serial\n",
        FetchFault::TooLarge => "failed too-large\n",
        FetchFault::NoReply => "failed no-reply\n",
    }
}

#[tactic(auto, using(crate::proofs::Telling::nine_more))]
fn left_status(left: Left) -> Status
    ensures status { result.0 ≡ left_status left }
    ensures others { (result.0 ≡ 5) ⊎ ((result.0 ≡ 6) ⊎ ((result.0 ≡ 7) ⊎ (result.0 ≡ 9))) }
{
    match left {
        Left::NotFetched(fault) => fault_status(fault),
        Left::Unchanged(_) => UNCHANGED,
        Left::NotNewer { .. } => statuses::NO_REPLY,
    }
}

fn left_line(left: Left) -> &'static str
    ensures { result.now ≡ left_line left }
{
    match left {
        Left::NotFetched(fault) => fault_line(fault),
        Left::Unchanged(_) => "unchanged\n",
        Left::NotNewer { .. } => "failed serial\n",
    }
}

#[tactic(auto, using(crate::proofs::Telling::no_three, crate::proofs::Telling::no_zero))]
pub(crate) fn status_of(stop: Stop) -> Status
    ensures status { result.0 ≡ status_of stop }
    ensures some { result.0 ≢ 0 }
    ensures unread { result.0 ≡ 3 → stop ≡ Stop.Unread }
{
    match stop {
        Stop::Unread => statuses::SOURCE_FAULT,
        Stop::NotPrinted(_) => statuses::REFUSED,
        Stop::NotBrought(left) => left_status(left),
        Stop::NoMemory => statuses::NO_MEMORY,
    }
}

/// What is written then, if anything is.
fn line_of(alloc: Global, stop: Stop) -> Result<String, NoMemory>
    ensures { IfOk result (λ s. string_bytes s ≡ line_of stop) }
{
    match stop {
        Stop::NotPrinted(flaw) => Ok(format!(in alloc; "no printed zone: {flaw}\n")?),
        Stop::NotBrought(left) => Ok(String::from_str(alloc, left_line(left))?),
        Stop::Unread | Stop::NoMemory => Ok(String::new(alloc)),
    }
}

/// Ends so: by a line, or by the status alone.
#[tactic(auto, using(crate::proofs::Telling::tells_nothing, crate::proofs::Telling::tells_line))]
pub(crate) fn tell<K: Sink>(alloc: Global, sink: &mut K, stop: Stop) -> Status
    ensures status { (result.0 ≡ status_of stop) ⊎ (result.0 ≡ 6) }
    ensures some { result.0 ≢ 0 }
    ensures unread { result.0 ≡ 3 → stop ≡ Stop.Unread }
    ensures told { result.0 ≢ 6 → Tells (line_of stop) (K.held sink.old) (K.held sink.new) (K.faults sink.old) (K.faults sink.new) }
{
    let status = status_of(stop);
    let Ok(line) = line_of(alloc, stop) else {
        return statuses::NO_MEMORY;
    };
    if line.is_empty() {
        return status;
    }
    end_by(sink, status, line.as_bytes())
}
