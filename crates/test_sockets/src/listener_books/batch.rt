//! What a socket is asked for that receives, and sends, many datagrams one behind another.

use crate::listener_books::scenes::{FROM, dgrams};
use dns_values::{NoMemory, Octets};
use listener_peers::{BatchDgrams, DgramListener, ListDgrams, Post};
use socket_places::Answer;
use std::alloc::Global;

/// Whether a datagram is given.
fn gives(alloc: Global, batch: &mut BatchDgrams<ListDgrams>) -> bool {
    matches!(batch.receive(alloc, &mut []), Ok(Answer::Done(_)))
}

/// Whether there are no more for now.
fn ends(alloc: Global, batch: &mut BatchDgrams<ListDgrams>) -> bool {
    matches!(batch.receive(alloc, &mut []), Ok(Answer::Later))
}

/// Whether a datagram of one octet is taken.
fn takes(batch: &mut BatchDgrams<ListDgrams>, octets: &Octets) -> bool {
    matches!(batch.send(FROM, octets), Ok(Answer::Done(1)))
}

/// How many datagrams the socket was handed.
fn count_sent(batch: &BatchDgrams<ListDgrams>) -> usize {
    let posts = batch.get_ref().posts();
    posts
        .iter()
        .filter(|it| matches!(it, Post::Went { .. }))
        .count()
}

/// Whether what answers a datagram is sent once there are no more, and then at once.
fn sends_at_the_end(alloc: Global, batch: &mut BatchDgrams<ListDgrams>, octets: &Octets) -> bool {
    gives(alloc, batch)
        && takes(batch, octets)
        && count_sent(batch) == 0
        && ends(alloc, batch)
        && count_sent(batch) == 1
        && takes(batch, octets)
        && count_sent(batch) == 2
}

/// Whether of forty datagrams that are handed over meanwhile the first 32 are sent.
fn sends_many(alloc: Global, batch: &mut BatchDgrams<ListDgrams>, octets: &Octets) -> bool {
    gives(alloc, batch) && (0..40).all(|_| takes(batch, octets)) && count_sent(batch) == 32
}

/// A socket that gives one datagram, and one octet to be sent.
fn scene(alloc: Global) -> Result<(BatchDgrams<ListDgrams>, Octets), NoMemory> {
    let batch = BatchDgrams::new(alloc, dgrams(alloc, &[7, 8])?);
    let octets = Octets::from_slice(alloc, &[1])?;
    Ok((batch, octets))
}

#[test]
fn what_answers_is_sent_at_the_end(rt: HostRuntime) {
    let alloc = rt.alloc();
    let scene = scene(alloc).ok();
    assert!(rt;
        scene.is_some_and(|(mut batch, octets)| sends_at_the_end(alloc, &mut batch, &octets))
    );
}

#[test]
fn many_are_sent_before(rt: HostRuntime) {
    let alloc = rt.alloc();
    let scene = scene(alloc).ok();
    assert!(rt; scene.is_some_and(|(mut batch, octets)| sends_many(alloc, &mut batch, &octets)));
}
