//! Whether the newest row is the asking of a request.

ghost use Rattle.std.specs.Prelude.{◌≡◌, ◌+◌, ◌==◌, ◌&&◌};
ghost use Rattle.right_trace.specs.Requests.{is_ask};

use client_request::What;
use trace_tables::Requests;

/// Whether the newest row, whose event is `what`, is the asking of a request.
pub(crate) fn is_asked_here(requests: &Requests, what: &What, request: u64) -> bool
    ensures { result ≡ (is_ask what.now && (requests.now.asked == request + 1)) }
{
    match what {
        What::Ask { .. } => match requests.asked.checked_sub(1) {
            None => false,
            Some(last) => last == request,
        },
        _ => false,
    }
}
