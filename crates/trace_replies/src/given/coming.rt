//! Whether a message came for a request in a row.

ghost use Rattle.std.specs.Prelude.{◌≡◌, IfOk};
ghost use Rattle.trace_errors.specs.promptness.Prompt.{matches};
ghost use Rattle.trace_replies.specs.given.Coming as plain;

use client_request::Via;
use dns_base::{Message, NoMemory};
use std::alloc::Global;
use trace_points::exchanges::{Coming, Open, find_coming};
use trace_points::questions::TraceConf;
use trace_tables::Books;
use trace_tables::frames::Ledger;

/// Whether a message answers its request and, if it is a datagram, has TC clear.
fn matches(coming: &Coming) -> bool
    ensures { result ≡ matches coming.now }
{
    coming.agrees
        && match coming.via {
            Via::Dgram => !coming.message.header().tc(),
            Via::Stream => true,
        }
}

/// Whether it came for a request with these octets, and matches it.
fn brings(request: u64, message: &Message, coming: &Coming) -> bool
    ensures { result ≡ plain.brings request message.now coming.now }
{
    coming.request == request && matches(coming) && coming.message.as_slice() == message.as_slice()
}

fn some_brings(request: u64, message: &Message, comings: &[Coming]) -> bool
    ensures { result ≡ plain.some_brings request message.now comings.now }
{
    for coming in comings {
        if brings(request, message, coming) {
            return true;
        }
    }
    false
}

/// Whether a message came for a request in a row, on an exchange open for it, and matches it: `past` is what was known before
/// the row, and `sent` what was open then; `here` is what is known where it is asked, the row's event included.
pub fn came_for(
    alloc: Global,
    conf: &TraceConf,
    past: &Books,
    sent: &Open,
    here: &Ledger,
    request: u64,
    message: &Message,
) -> Result<bool, NoMemory>
    ensures { IfOk result (plain.TellsCame conf.now request message.now past.now sent.now here.now) }
{
    let comings = find_coming(alloc, conf, Some(request), past, sent, here)?;
    Ok(some_brings(request, message, comings.as_slice()))
}
