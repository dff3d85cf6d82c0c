//! Whether a message is the view of a kept one, valid or not.

ghost use Rattle.std.specs.Prelude.{◌≡◌, IfOk};
ghost use Rattle.cache_rules.specs.declared.copying.Ttls.TheVariants.{Lessened};
ghost use Rattle.message_judging.specs.views.Serving as serving;
ghost use Rattle.trace_hits.specs.Views as plain;

use cache_rules::{is_viewable, view};
use client_request::Error;
use dns_base::{Message, NoMemory};
use message_judging::views::{Served, is_same_message};
use std::alloc::Global;

/// Microseconds in a second.
const SECOND: u64 = 1_000_000;

/// An age in whole seconds, as far as a TTL goes.
fn seconds_of(age: u64) -> u32
    ensures { result ≡ serving.seconds_of age }
{
    let seconds = age / SECOND;
    if seconds < u64::from(u32::MAX) {
        seconds as u32
    } else {
        u32::MAX
    }
}

/// The view, so many seconds later. None exactly where the message is not read by type.
fn view_at(alloc: Global, served: &Served<'_>, seconds: u32) -> Result<Option<Message>, NoMemory>
    ensures { IfOk result (serving.IsMade served.now.kept.now served.now.from served.now.to served.now.name.now (Lessened seconds)) }
{
    let clears_rd = served.from.rd && !served.to.rd;
    match view(
        alloc,
        served.kept,
        served.from.class,
        served.to.class,
        clears_rd,
        served.name,
        seconds,
    ) {
        Ok(message) => Ok(Some(message)),
        Err(Error::NoMemory) => Err(NoMemory),
        Err(_) => Ok(None),
    }
}

/// Whether a message says the view so many seconds later.
fn says_aged(
    alloc: Global,
    served: &Served<'_>,
    seconds: u32,
    given: &Message,
) -> Result<bool, NoMemory>
    ensures { IfOk result (serving.TellsAged served.now.kept.now served.now.from served.now.to served.now.name.now seconds given.now) }
{
    match view_at(alloc, served, seconds)? {
        None => Ok(false),
        Some(view) => Ok(is_same_message(given, &view)),
    }
}

/// Whether a message says the view of the kept one at an age in microseconds, however long that is.
pub(crate) fn says_view(
    alloc: Global,
    served: &Served<'_>,
    age: u64,
    given: &Message,
) -> Result<bool, NoMemory>
    ensures { IfOk result (plain.TellsGiven served.now.kept.now served.now.from served.now.to served.now.name.now age given.now) }
{
    is_viewable(served.kept.header(), served.kept, served.name);
    says_aged(alloc, served, seconds_of(age), given)
}
