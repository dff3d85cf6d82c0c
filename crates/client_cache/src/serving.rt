//! Whether a request would be served.

ghost use Rattle.std.specs.Prelude.{◌≡◌, None, Some, Ok, IfOk, is_some};
ghost use Rattle.client_cache.specs.Keeping as keeping;
ghost use Rattle.client_cache.specs.Plain.{read, way_asked};
ghost use Rattle.client_cache.specs.Serving.{is_given, is_served, would_serve};

use crate::entry::Asked;
use crate::finding::{derive_unused, first_other, is_own};
use crate::settling::Kept;
use crate::steps::asked_of;
use crate::table::{Flags, Table};
use client_request::ComposeRequest;
use client_settings::cache::Config;
use dns_base::NoMemory;
use std::alloc::Global;

/// Whether what is derived for a request from the entry with these flags serves it, where none is there under its own key.
fn would_derive(
    table: &Table,
    alloc: Global,
    config: &Config,
    asked: &Asked<'_>,
    flags: Flags,
    now: u64,
) -> Result<bool, NoMemory>
    requires { keeping.entry_under asked.now.key table.now ≡ None }
    ensures { IfOk result (λ served. served ≡ is_some (keeping.takes config.now asked.now now table.now (Some flags)).answer) }
{
    if is_own(flags, &asked.key) {
        return Ok(false);
    }
    match derive_unused(table, alloc, config, asked, flags)? {
        None => Ok(false),
        Some(Err(_)) => Ok(true),
        Some(Ok(entry)) => Ok(entry.is_valid(now)),
    }
}

/// The same of what a request asks whose results are kept.
fn would_serve_asked(
    table: &Table,
    alloc: Global,
    config: &Config,
    now: u64,
    mut asked: Asked<'_>,
) -> Result<bool, NoMemory>
    ensures { IfOk result (λ served. served ≡ is_given (way_asked config.now now table.now (Some asked.entry)).0) }
{
    if let Some(entry) = table.peek(&asked.key) {
        return Ok(entry.is_valid(now));
    }
    match first_other(table, &mut asked.key) {
        None => Ok(false),
        Some(flags) => would_derive(table, alloc, config, &asked, flags, now),
    }
}

/// The same of a request.
fn would_serve_by<CR: ComposeRequest>(
    table: &Table,
    alloc: Global,
    config: &Config,
    now: u64,
    request: &CR,
) -> Result<bool, NoMemory>
    ensures { IfOk result (λ served. served ≡ is_served config.now (CR.header_of request.now) (CR.is_dnssec_ok request.now) now table.now (CR.requests.composed request.now)) }
{
    if let Err(_error) = request.check_message() {
        return Ok(true);
    }
    match asked_of(alloc, request)? {
        Some(asked) => would_serve_asked(table, alloc, config, now, asked),
        None => Ok(false),
    }
}

/// Whether a request that is asked at a moment has its result at once. Nothing is used.
pub(crate) fn would_serve<CR: ComposeRequest>(
    kept: &Kept,
    now: u64,
    request: &CR,
) -> Result<bool, NoMemory>
    ensures { IfOk result (λ served. served ≡ would_serve (read CR.requests CR.header_of CR.is_dnssec_ok) request.now now kept.now) }
{
    would_serve_by(&kept.table, kept.alloc, &kept.config, now, request)
}
