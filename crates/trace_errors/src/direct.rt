//! Whether an error has a cause that is no kept error.

ghost use Rattle.std.specs.Prelude.{◌≡◌, IfOk};
ghost use Rattle.trace_points.specs.questions.Outs.{Tells};
ghost use Rattle.trace_errors.specs.Direct as plain;

use crate::arrivals::is_unkept;
use crate::earlier::Earlier;
use crate::failures::server_cause;
use crate::promptness::{Heards, TraceSettings};
use client_request::{Error, What};
use dns_base::NoMemory;
use number_table::NumberTable;
use trace_points::exchanges::Coming;
use trace_points::questions::TraceConf;
use trace_tables::{Asked, Books};

/// Whether a row with this event asks a request: `past` is what was known before it.
pub fn is_asked_here(past: &Books, what: &What, request: u64) -> bool
    ensures { result ≡ plain.asked_here request what.now past.now }
{
    matches!(what, What::Ask { .. }) && past.requests.asked == request
}

/// Whether a message came for a request that may be kept and has no validity.
fn some_unkept(
    settings: &TraceSettings,
    askings: &NumberTable<Asked>,
    request: u64,
    comings: &[Coming],
) -> Result<bool, NoMemory>
    ensures { IfOk result (λ b. b ≡ plain.some_unkept settings.now request askings.now comings.now) }
{
    for coming in comings {
        if coming.request == request && is_unkept(settings, askings, coming)? {
            return Ok(true);
        }
    }
    Ok(false)
}

/// Whether a message without a validity came for a request, in this row or deferred in one before.
fn is_without_validity(
    settings: &TraceSettings,
    past: &Books,
    earlier: &Earlier,
    comings: &[Coming],
    request: u64,
) -> Result<bool, NoMemory>
    ensures { IfOk result (Tells (plain.IsWithoutValidity settings.now past.now earlier.now comings.now request)) }
{
    if earlier.arrivals.unkept.contains_key(request) {
        return Ok(true);
    }
    some_unkept(settings, &past.requests.askings, request, comings)
}

/// Whether an error that no server gives has its cause.
fn has_other(
    conf: &TraceConf,
    settings: &TraceSettings,
    past: &Books,
    here: &Books,
    earlier: &Earlier,
    what: &What,
    comings: &[Coming],
    request: u64,
    error: Error,
) -> Result<bool, NoMemory>
    ensures { IfOk result (Tells (plain.HasOther conf.now settings.now past.now here.now earlier.now what.now comings.now request error)) }
{
    match error {
        Error::TimedOut => Ok(here.requests.is_past_deadline(request, conf.timeout())),
        Error::NoTransportAvailable => {
            Ok(!conf.has_server(0) && is_asked_here(past, what, request))
        }
        Error::MessageParseError => {
            is_without_validity(settings, past, earlier, comings, request)
        }
        _ => Ok(false),
    }
}

/// Whether a server gives the error here, or gave it in a row before and it was deferred.
fn is_by_server(
    conf: &TraceConf,
    settings: &TraceSettings,
    past: &Books,
    heard: &Heards,
    here: &Books,
    earlier: &Earlier,
    what: &What,
    comings: &[Coming],
    request: u64,
    error: Error,
) -> Result<bool, NoMemory>
    ensures { IfOk result (plain.ByServers conf.now settings.now past.now heard.now here.now earlier.now what.now comings.now request error) }
{
    let now = server_cause(conf, past, heard, here, what, comings, request, error)?;
    let before = earlier.was_caused(conf, past, heard, request, error);
    Ok(now || (settings.defers_errors() && before))
}

/// Whether an error of a request has a cause that is no kept error, in a row with this event: its deadline has passed, there is no
/// server, a server gives the error or gave it and it was deferred, or a message without a validity came. `past`, `heard` and
/// `earlier` are what was known before the row, `here` is what is known where the error is given, and `comings` all that came for
/// the request by there.
pub fn direct_cause(
    conf: &TraceConf,
    settings: &TraceSettings,
    past: &Books,
    heard: &Heards,
    here: &Books,
    earlier: &Earlier,
    what: &What,
    comings: &[Coming],
    request: u64,
    error: Error,
) -> Result<bool, NoMemory>
    ensures { IfOk result (plain.TellsDirect conf.now settings.now past.now heard.now here.now earlier.now what.now comings.now request error) }
{
    find_direct(
        conf, settings, past, heard, here, earlier, what, comings, request, error,
    )
}

fn find_direct(
    conf: &TraceConf,
    settings: &TraceSettings,
    past: &Books,
    heard: &Heards,
    here: &Books,
    earlier: &Earlier,
    what: &What,
    comings: &[Coming],
    request: u64,
    error: Error,
) -> Result<bool, NoMemory>
    ensures { IfOk result (plain.IsDirect conf.now settings.now past.now heard.now here.now earlier.now what.now comings.now request error) }
{
    let other = has_other(
        conf, settings, past, here, earlier, what, comings, request, error,
    )?;
    let by_server = is_by_server(
        conf, settings, past, heard, here, earlier, what, comings, request, error,
    )?;
    Ok(other || by_server)
}
