//! What a server's peers get and tell.

use crate::listener_books::scenes::{ListServer, Tells, answers, dgrams, server, streams, told_by};
use client_request::{FIRST_STREAM, Fault};
use dns_values::NoMemory;
use socket_places::Answer;
use std::alloc::Global;

/// Something is found at the listener for datagrams, at that for streams, or at the stream behind them.
const DATAGRAM: &[bool] = &[true];

const LISTENER: &[bool] = &[false, true];

const STREAM: &[bool] = &[false, false, true];

/// Whether nothing is told.
fn is_silent(server: &mut ListServer) -> bool {
    matches!(told_by(server), Tells::Nothing)
}

fn is_accepted(server: &mut ListServer) -> bool {
    matches!(told_by(server), Tells::Accepted(FIRST_STREAM))
}

/// A server to which a datagram comes, and a stream that answers so to what it is handed.
fn scene(
    alloc: Global,
    puts: &[Answer<usize>],
    rounds: &[&[bool]],
) -> Result<ListServer, NoMemory> {
    let mut answers = Vec::new(alloc);
    for answer in puts {
        answers.push(match answer {
            Answer::Done(count) => Answer::Done(*count),
            Answer::Failed(fault) => Answer::Failed(*fault),
            Answer::Later => Answer::Later,
        })?;
    }
    let streams = streams(alloc, &[7, 8], answers)?;
    server(alloc, dgrams(alloc, &[7, 8])?, streams, rounds)
}

/// Whether a datagram comes and is answered, and the answer to another is not one.
fn answers_a_datagram(alloc: Global, server: &mut ListServer) -> bool {
    matches!(told_by(server), Tells::Datagram(0))
        && answers(alloc, server, 0)
        && answers(alloc, server, 1)
        && is_silent(server)
}

/// Whether a stream comes, gives octets and is answered, and nothing is told of it once it is closed.
fn answers_a_stream(alloc: Global, server: &mut ListServer) -> bool {
    let came = is_accepted(server)
        && is_silent(server)
        && matches!(told_by(server), Tells::Bytes(FIRST_STREAM))
        && answers(alloc, server, FIRST_STREAM);
    server.close(FIRST_STREAM);
    came && is_silent(server)
}

/// Whether a stream that takes one octet takes the others later, and one that fails is told to be gone once.
fn fails_later(alloc: Global, server: &mut ListServer) -> bool {
    is_accepted(server)
        && is_silent(server)
        && answers(alloc, server, FIRST_STREAM)
        && server.wait(1).is_ok()
        && is_silent(server)
        && matches!(told_by(server), Tells::Gone(FIRST_STREAM))
        && is_silent(server)
}

#[test]
fn a_datagram_is_answered(rt: HostRuntime) {
    let alloc = rt.alloc();
    let server = scene(alloc, &[], &[DATAGRAM, DATAGRAM]).ok();
    assert!(rt; server.is_some_and(|mut server| answers_a_datagram(alloc, &mut server)));
}

#[test]
fn a_stream_is_answered_until_it_is_closed(rt: HostRuntime) {
    let alloc = rt.alloc();
    let server = scene(alloc, &[], &[LISTENER, STREAM, STREAM]).ok();
    assert!(rt; server.is_some_and(|mut server| answers_a_stream(alloc, &mut server)));
}

#[test]
fn a_stream_that_fails_is_gone(rt: HostRuntime) {
    let alloc = rt.alloc();
    let puts = [Answer::Done(1), Answer::Later, Answer::Failed(Fault::Reset)];
    let server = scene(alloc, &puts, &[LISTENER, STREAM, STREAM, STREAM]).ok();
    assert!(rt; server.is_some_and(|mut server| fails_later(alloc, &mut server)));
}
