//! Messages that fail, in whose place an expired one may stand.

ghost use Rattle.std.specs.Prelude.{◌≡◌};
ghost use Rattle.std.specs.List.{list_any};
ghost use Rattle.trace_tables.specs.Lists.{listed};
ghost use Rattle.trace_replies.specs.firsts.Failing as plain;

use crate::firsts::firsts::{Arrived, Firsts, is_counted, matches};
use trace_errors::promptness::{TraceSettings, is_failing};
use trace_points::exchanges::Coming;
use trace_tables::Newest;

/// Whether what came is for a request, matches it, and fails.
fn fails_for(request: u64, coming: &Coming) -> bool
    ensures { result ≡ plain.fails_for request coming.now }
{
    coming.request == request && matches(coming) && is_failing(&coming.message)
}

/// Whether it is so, and given whatever other servers say.
fn fails_now(settings: &TraceSettings, request: u64, coming: &Coming) -> bool
    ensures { result ≡ plain.fails_now settings.now request coming.now }
{
    fails_for(request, coming) && !settings.is_deferred(&coming.message)
}

/// Whether what came in a row before was the first, fails, and is deferred.
fn failed_first(settings: &TraceSettings, arrived: &Arrived) -> bool
    ensures { result ≡ plain.failed_first settings.now arrived.now }
{
    arrived.first && is_failing(&arrived.message) && settings.is_deferred(&arrived.message)
}

fn some_fails(request: u64, comings: &[Coming]) -> bool
    ensures { result ≡ list_any (plain.fails_for request) comings.now }
{
    for coming in comings {
        if fails_for(request, coming) {
            return true;
        }
    }
    false
}

fn some_fails_now(settings: &TraceSettings, request: u64, comings: &[Coming]) -> bool
    ensures { result ≡ list_any (plain.fails_now settings.now request) comings.now }
{
    for coming in comings {
        if fails_now(settings, request, coming) {
            return true;
        }
    }
    false
}

fn some_failed_first(settings: &TraceSettings, arrived: &Newest<Arrived>) -> bool
    ensures { result ≡ list_any (plain.failed_first settings.now) arrived.now }
{
    for one in arrived {
        if failed_first(settings, one) {
            return true;
        }
    }
    false
}

/// The same of what came for a request.
fn some_failed_first_for(settings: &TraceSettings, firsts: &Firsts, request: u64) -> bool
    ensures { result ≡ list_any (plain.failed_first settings.now) (listed request firsts.now) }
{
    match firsts.get(request) {
        None => false,
        Some(arrived) => some_failed_first(settings, arrived),
    }
}

fn find_failing(
    settings: &TraceSettings,
    firsts: &Firsts,
    request: u64,
    done: bool,
    comings: &[Coming],
) -> bool
    ensures { result ≡ plain.message_fails settings.now request done comings.now firsts.now }
{
    some_fails_now(settings, request, comings)
        || done
            && (some_fails(request, comings) && !is_counted(firsts, request)
                || some_failed_first_for(settings, firsts, request))
}

/// Whether a request could be given a message that fails, where it is known whether every server is done with it: `comings` is all
/// that came for it in the row by here.
pub fn message_fails(
    settings: &TraceSettings,
    firsts: &Firsts,
    request: u64,
    done: bool,
    comings: &[Coming],
) -> bool
    ensures value { result ≡ plain.message_fails settings.now request done comings.now firsts.now }
    ensures told { plain.TellsMessageFails settings.now request done comings.now firsts.now result }
{
    find_failing(settings, firsts, request, done, comings)
}
