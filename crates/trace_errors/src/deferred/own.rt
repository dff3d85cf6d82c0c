//! Whether an error has a cause of its own.

ghost use Rattle.std.specs.Prelude.{◌≡◌, ◌&&◌, ◌||◌, not, IfOk};
ghost use Rattle.right_trace.specs.Errors.{is_of_server};
ghost use Rattle.trace_errors.specs.deferred.Own as plain;

use crate::owed::{Exchanged, are_all_done};
use crate::promptness::{Heards, TraceSettings};
use crate::{Earlier, direct_cause, is_excused, matches};
use client_request::{Error, What};
use dns_base::NoMemory;
use trace_points::due::Timers;
use trace_points::exchanges::{Coming, Open};
use trace_points::questions::TraceConf;
use trace_tables::frames::{Here, Ledger};

/// Whether only a server gives an error.
fn is_of_server(error: Error) -> bool
    ensures { result ≡ is_of_server error }
{
    matches!(
        error,
        Error::Dgram(_) | Error::WrongReplyForQuery | Error::StreamReadTimeout
    )
}

/// Whether an error waits for something better: only a server gives it, and such are deferred.
fn is_deferred(error: Error, settings: &TraceSettings) -> bool
    ensures { result ≡ (is_of_server error && settings.now.defers_errors) }
{
    is_of_server(error) && settings.defers_errors()
}

/// Whether a direct cause is a cause of its own.
fn is_own(direct: bool, deferred: bool, done: bool, none: bool) -> bool
    ensures { result ≡ (direct && (not deferred || (done && none))) }
{
    direct && (!deferred || (done && none))
}

fn some_matching(request: u64, comings: &[Coming]) -> bool
    ensures { result ≡ plain.some_matching request comings.now }
{
    for coming in comings {
        if coming.request == request && matches(coming) {
            return true;
        }
    }
    false
}

/// Whether no message came for a request that may not be passed over, where it is known whether those of this row may.
fn none_came(excused: bool, earlier: &Earlier, comings: &[Coming], request: u64) -> bool
    ensures { result ≡ plain.none_of excused earlier.now comings.now request }
{
    !earlier.arrivals.came.contains_key(request) && (excused || !some_matching(request, comings))
}

fn find_own(
    conf: &TraceConf,
    settings: &TraceSettings,
    past: &Ledger,
    timers: &Timers,
    heard: &Heards,
    here: &Ledger,
    outs: &Here,
    earlier: &Earlier,
    sends: &Open,
    exchanged: &Exchanged,
    what: &What,
    comings: &[Coming],
    request: u64,
    error: Error,
) -> Result<bool, NoMemory>
    ensures { IfOk result (plain.IsOwn conf.now settings.now past.now timers.now heard.now here.now outs.now earlier.now sends.now exchanged.now what.now comings.now request error) }
{
    let books = &past.books;
    let direct = direct_cause(
        conf,
        settings,
        books,
        heard,
        &here.books,
        earlier,
        what,
        comings,
        request,
        error,
    )?;
    let done = are_all_done(conf, books, here, sends, exchanged, what, request)?;
    let excused = is_excused(conf, past, timers, here, outs);
    let none = none_came(excused, earlier, comings, request);
    Ok(is_own(direct, is_deferred(error, settings), done, none))
}

/// Whether an error of a request has a cause of its own, in a row with this event: a direct one, and where it is a server's and
/// such are deferred, every server is done with the request, and no message came for it. `past`, `timers`, `heard` and `earlier`
/// are what was known before the row; `here`, `sends` and `exchanged` are what is known where the error is given, `outs` is what
/// the row's outs made of places by there, and `comings` all that came for the request by there.
pub fn own_cause(
    conf: &TraceConf,
    settings: &TraceSettings,
    past: &Ledger,
    timers: &Timers,
    heard: &Heards,
    here: &Ledger,
    outs: &Here,
    earlier: &Earlier,
    sends: &Open,
    exchanged: &Exchanged,
    what: &What,
    comings: &[Coming],
    request: u64,
    error: Error,
) -> Result<bool, NoMemory>
    ensures { IfOk result (plain.TellsOwn conf.now settings.now past.now timers.now heard.now here.now outs.now earlier.now sends.now exchanged.now what.now comings.now request error) }
{
    find_own(
        conf, settings, past, timers, heard, here, outs, earlier, sends, exchanged, what, comings,
        request, error,
    )
}
