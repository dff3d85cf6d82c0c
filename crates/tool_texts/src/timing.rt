//! How long a message takes to be read and written.

use crate::answer::line_of;
use dns_base::{Builder, Message, Octets, Section};
use std::alloc::Global;
use std::time::{Clock, Instant};

/// An answer of example.com with its address.
const ANSWER: [u8; 45] = [
    0x12, 0x34, 0x81, 0x80, 0, 1, 0, 1, 0, 0, 0, 0, 7, 101, 120, 97, 109, 112, 108, 101, 3, 99,
    111, 109, 0, 0, 1, 0, 1, 0xc0, 0x0c, 0, 1, 0, 1, 0, 0, 0, 100, 0, 4, 192, 0, 2, 1,
];

/// The question and the first answer of a message, written anew.
fn copied(alloc: Global, message: &Message) -> Option<Message> {
    let mut builder = Builder::new(alloc, None).ok()?;
    builder.set_header(message.header());
    let question = message.sole_question().ok()?;
    builder
        .push_question(&question.qname(), question.qtype(), question.qclass())
        .ok()?;
    let record = message.answer().ok()?.next()?.ok()?;
    builder
        .push_record(
            Section::Answer,
            &record.owner(),
            record.class(),
            record.ttl(),
            record.rtype(),
            &record.data().ok()?,
        )
        .ok()?;
    builder.finish().ok()
}

/// An answer that is read and written once.
fn read_and_written(alloc: Global) -> Option<Message> {
    let octets = Octets::from_slice(alloc, &ANSWER).ok()?;
    copied(alloc, &Message::from_octets(octets).ok()?)
}

/// The nanoseconds that reading and writing an answer takes, of so many times.
pub fn text_of<R: Clock>(rt: &R, alloc: Global, count: &str) -> Option<String> {
    let count = count.parse::<u32>().ok()?;
    let start = Instant::now(rt).ok()?;
    for _ in 0..count {
        read_and_written(alloc)?;
    }
    let taken = start.elapsed(rt).ok()?.as_nanos();
    if count == 0 {
        return None;
    }
    line_of(alloc, &(taken / count as u128))
}
