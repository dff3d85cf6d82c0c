//! Why nothing is said of a trace, and the line that tells it.

ghost use Rattle.std.specs.Prelude.{◌≡◌, ◌≢◌, ◌⊎◌, IfOk};
ghost use Rattle.std.specs.String.{string_bytes};
ghost use Rattle.trace_audit_run.specs.Stops.{Tells, line_of, status_of};

use command_parts::{end_by, statuses};
use dns_base::{NoMemory, Status};
use dns_values::Sink;
use std::alloc::Global;

/// One of the two texts.
#[derive(Clone, Copy)]
pub(crate) enum Text {
    Script,
    Trace,
}

/// Why nothing is said of a trace.
#[derive(Clone, Copy)]
pub(crate) enum Stop {
    /// This text is too long.
    Long(Text),
    /// A line of this text is refused, counted from 1.
    Line(Text, u64),
    /// This text can't be read.
    Unread(Text),
    /// Memory ran out.
    NoMemory,
}

impl From<NoMemory> for Stop {
    ghost use Rattle.trace_audit_run.specs.declared.stop.Stop.{Stop};

    ghost from_gives = { λ _ e. e ≡ Stop.NoMemory };

    fn from(_e: NoMemory) -> Stop {
        Stop::NoMemory
    }
}

/// The exit status of an end.
pub(crate) fn status_of(stop: Stop) -> Status
    ensures status { result.0 ≡ status_of stop }
    ensures others { (result.0 ≡ 1) ⊎ ((result.0 ≡ 3) ⊎ (result.0 ≡ 6)) }
{
    match stop {
        Stop::Long(_) | Stop::Line(_, _) => statuses::REFUSED,
        Stop::Unread(_) => statuses::SOURCE_FAULT,
        Stop::NoMemory => statuses::NO_MEMORY,
    }
}

/// What is written of it, if anything is.
fn line_of(alloc: Global, stop: Stop) -> Result<String, NoMemory>
    ensures { IfOk result (λ s. string_bytes s ≡ line_of stop) }
{
    match stop {
        Stop::Long(_) => Ok(String::from_str(alloc, "input too long\n")?),
        Stop::Line(Text::Script, line) => { Ok(format!(in alloc; "script line {line} refused\n")?) }
        Stop::Line(Text::Trace, line) => Ok(format!(in alloc; "trace line {line} refused\n")?),
        Stop::Unread(_) | Stop::NoMemory => Ok(String::new(alloc)),
    }
}

/// Ends so: by a line, or by the status alone.
#[tactic(auto, using(crate::proofs::Stopping::tells_nothing, crate::proofs::Stopping::tells_line))]
pub(crate) fn end_at<K: Sink>(alloc: Global, sink: &mut K, stop: Stop) -> Status
    ensures status { (result.0 ≡ status_of stop) ⊎ (result.0 ≡ 6) }
    ensures others { (result.0 ≡ 1) ⊎ ((result.0 ≡ 3) ⊎ (result.0 ≡ 6)) }
    ensures told { result.0 ≢ 6 → Tells (line_of stop) (K.held sink.old) (K.held sink.new) (K.faults sink.old) (K.faults sink.new) }
{
    let status = status_of(stop);
    let Ok(line) = line_of(alloc, stop) else {
        return statuses::NO_MEMORY;
    };
    if line.is_empty() {
        return status;
    }
    end_by(sink, status, line.as_bytes())
}
