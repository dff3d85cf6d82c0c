//! A zone that is fetched into its file.

ghost use Rattle.std.specs.Prelude.{◌≡◌, None, Some, IfOk, if◌then◌else◌, option_map};
ghost use Rattle.std.specs.String.{string_bytes};
ghost use Rattle.zone_refresh_run.specs.Fetching.{Brings, Fetches, FetchesOnce, IsCommandFor};
ghost use Rattle.zone_refresh_run.specs.Fetching as spec;

use crate::system::System;
use crate::words::KeptForm;
use command_parts::statuses;
use dns_base::{NoMemory, SocketAddr, Status};
use std::alloc::Global;
use zone_fetch_run::Command;
use zone_list::Listed;
use zone_refresh::ZoneTimers;

/// What a fetch ends with where the file has the server's zone already.
const UNCHANGED: Status = Status(9);

/// How a zone is fetched.
#[derive(Clone, Copy)]
pub(crate) struct FetchManner {
    pub(crate) primary: SocketAddr,
    pub(crate) form: KeptForm,
    /// Whether its file has it already, so that its changes are asked for.
    pub(crate) has_zone: bool,
}

/// Whether a zone is in its file then: it was fetched, or the file has it already.
fn is_there(status: Status) -> bool
    ensures { result ≡ spec.is_there status.0 }
{
    status == statuses::DONE || status == UNCHANGED
}

/// Whether the file has no zone whose changes can be asked for.
fn has_no_base(status: Status) -> bool
    ensures { result ≡ spec.has_no_base status.0 }
{
    status == statuses::REFUSED || status == statuses::SOURCE_FAULT
}

/// Whether a file that had the zone has it no more.
fn is_lost(has_zone: bool, status: Status) -> bool
    ensures { result ≡ spec.is_lost has_zone status.0 }
{
    has_zone && has_no_base(status)
}

/// The path of the file whose changes are asked for, if it has the zone.
fn base_of(alloc: Global, path: &str, has_zone: bool) -> Result<Option<String>, NoMemory>
    ensures { IfOk result (λ file. option_map string_bytes file ≡ (if has_zone then Some path.now else None)) }
{
    if has_zone {
        Ok(Some(String::from_str(alloc, path)?))
    } else {
        Ok(None)
    }
}

/// The command by which a zone is fetched so into its file.
fn command_for(alloc: Global, listed: &Listed, manner: FetchManner) -> Result<Command, NoMemory>
    ensures { IfOk result (IsCommandFor listed.now manner.primary manner.form manner.has_zone) }
{
    let path = listed.file.as_str();
    let apex = listed.zone.try_clone(alloc)?;
    let file = base_of(alloc, path, manner.has_zone)?;
    let output = String::from_str(alloc, path)?;
    Ok(Command {
        apex,
        server: manner.primary,
        most: manner.form.most,
        file,
        output: Some(output),
        text: manner.form.text,
        whole_at_servfail: true,
    })
}

/// Fetches a zone so.
fn fetch_once<S: System>(
    alloc: Global,
    system: &mut S,
    listed: &Listed,
    manner: FetchManner,
) -> Status
    ensures { FetchesOnce listed.now manner.primary manner.form manner.has_zone result.0 (S.acts system.old) (S.acts system.new) }
{
    match command_for(alloc, listed, manner) {
        Ok(command) => system.fetch(&command),
        Err(NoMemory) => statuses::NO_MEMORY,
    }
}

/// Fetches a zone so, and whole where its file has no zone whose changes can be asked for.
fn fetch<S: System>(alloc: Global, system: &mut S, listed: &Listed, manner: FetchManner) -> Status
    ensures { Fetches listed.now manner.primary manner.form manner.has_zone result.0 (S.acts system.old) (S.acts system.new) }
{
    let status = fetch_once(alloc, system, listed, manner);
    if !is_lost(manner.has_zone, status) {
        return status;
    }
    let whole = FetchManner {
        primary: manner.primary,
        form: manner.form,
        has_zone: false,
    };
    fetch_once(alloc, system, listed, whole)
}

/// Fetches a zone so: the times of the zone that its file has then, or none where it was not fetched.
pub(crate) fn bring<S: System>(
    alloc: Global,
    system: &mut S,
    listed: &Listed,
    manner: FetchManner,
) -> Option<ZoneTimers>
    ensures { Brings listed.now manner.primary manner.form manner.has_zone result (S.acts system.old) (S.acts system.new) }
{
    let status = fetch(alloc, system, listed, manner);
    if !is_there(status) {
        return None;
    }
    system.held(&listed.zone, listed.file.as_str())
}
