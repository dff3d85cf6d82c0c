//! What books over a network in memory do and tell.

use crate::edge_books::scenes::{
    ListBooks, Tells, books, giving, opens, opens_stream, puts, slow, told_by,
};
use client_request::Out;
use std::alloc::Global;

/// Whether a datagram goes out, and another comes.
fn there_and_back(alloc: Global, books: &mut ListBooks) -> bool {
    opens(books, 1)
        && matches!(told_by(books), Tells::Opened)
        && puts(books, alloc)
        && matches!(told_by(books), Tells::Datagram)
}

#[test]
fn a_datagram_goes_there_and_back(rt: HostRuntime) {
    let books = books(rt.alloc(), giving(rt.alloc(), &[4, 5]));
    assert!(rt; books.is_some_and(|mut books| there_and_back(rt.alloc(), &mut books)));
}

/// Whether a stream takes what it did not take at once.
fn takes_later(alloc: Global, books: &mut ListBooks) -> bool {
    opens_stream(books, 0)
        && matches!(told_by(books), Tells::Opened)
        && puts(books, alloc)
        && books.wait(1).is_ok()
        && matches!(told_by(books), Tells::Wrote(2))
}

#[test]
fn a_stream_takes_octets_later(rt: HostRuntime) {
    let books = books(rt.alloc(), slow(rt.alloc()));
    assert!(rt; books.is_some_and(|mut books| takes_later(rt.alloc(), &mut books)));
}

/// Whether nothing is told of a place that is closed, nor of a server that is not there but that.
fn tells_no_more(books: &mut ListBooks) -> bool {
    opens(books, 1)
        && books.act(&Out::Close { place: 0 }).is_ok()
        && matches!(told_by(books), Tells::Nothing)
        && opens(books, 2)
        && matches!(told_by(books), Tells::OpenFailed)
}

#[test]
fn nothing_is_told_of_a_place_that_is_closed(rt: HostRuntime) {
    let books = books(rt.alloc(), giving(rt.alloc(), &[4, 5]));
    assert!(rt; books.is_some_and(|mut books| tells_no_more(&mut books)));
}
