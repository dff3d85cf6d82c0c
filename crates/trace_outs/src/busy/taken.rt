//! Datagram places that others than a request have taken.

ghost use Rattle.std.specs.Prelude.{◌≡◌, min, nat_le};
ghost use Rattle.right_trace.specs.Busy.{is_taken};
ghost use Rattle.right_trace.specs.Places.{Alive};
ghost use Rattle.trace_outs.specs.busy.Taken as plain;
ghost use Rattle.trace_tables.specs.sets.Sets.{count_of, members};
ghost use Rattle.trace_tables.specs.Lists.{listed};
ghost use Rattle.trace_tables.specs.Sends.{last_of};

use number_table::NumberTable;
use trace_tables::sets::{Members, Sets};
use trace_tables::{Books, Newest, Sent, Stand};

/// Whether the newest of these is of another request.
fn is_of_other(sends: &Newest<Sent>, request: u64) -> bool
    ensures { result ≡ is_taken request Alive (last_of sends.now) }
{
    match sends.into_iter().next() {
        None => false,
        Some(sent) => sent.request != request,
    }
}

/// Whether another request was sent at a place.
fn is_sent_at(sent: &NumberTable<Newest<Sent>>, request: u64, place: u64) -> bool
    ensures { result ≡ is_taken request Alive (last_of (listed place sent.now)) }
{
    match sent.get(place) {
        None => false,
        Some(sends) => is_of_other(sends, request),
    }
}

/// Whether a place is opening, or another request was sent there.
fn is_taken(books: &Books, request: u64, number: u64) -> bool
    ensures { result ≡ plain.taken_seen request books.now number }
{
    match books.places.get(number) {
        None => false,
        Some(place) => match place.stand {
            Stand::Opening => true,
            Stand::Alive => is_sent_at(&books.sends.sent, request, number),
            Stand::Gone => false,
        },
    }
}

/// How many of these places are taken so. As many as `most` are as many as more.
fn count_taken(books: &Books, request: u64, numbers: &Members, most: usize) -> usize
    ensures { result ≡ min most (count_of (plain.taken_seen request books.now) numbers.now) }
{
    let mut count = 0;
    for (number, _) in numbers {
        if count < most && is_taken(books, request, number) {
            count += 1;
        }
    }
    count
}

/// Whether so many datagram places of a server are taken so, at least.
pub(crate) fn are_taken(
    books: &Books,
    dgrams: &Sets,
    request: u64,
    server: u64,
    most: usize,
) -> bool
    ensures { result ≡ nat_le most (count_of (plain.taken_seen request books.now) (members server dgrams.now)) }
{
    match dgrams.get(server) {
        None => most == 0,
        Some(numbers) => count_taken(books, request, numbers, most) >= most,
    }
}
