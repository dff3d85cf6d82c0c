//! What becomes of queries of DNS clients, and what a forwarder puts out.
//!
//! A line `QUERY` is what came of a client, and `QUERY REPLY` has the reply to its request too, or `-` where that got none; all
//! in hexadecimal digits. It is printed that the query is ignored, or what refuses it, or the message that is asked for it;
//! and for a reply what answers the query as a datagram, and by a stream.
//!
//! `scene QUIET SERVES PUTS` begins a forwarder over a client in memory, which puts out `reply` or `close` after so many events, and serves
//! all that is asked where it `serves`. `tells WHAT PEER OCTETS` tells it that a `datagram` comes, a stream is `accepted`, gives `bytes` or is
//! `gone`, or that a `tick` passes, a `crowd` of so many questions comes, or so many `streams`; what it puts out is printed, and how
//! many events its client was told.

mod client;
mod hex;
mod scene;

use crate::given;
use crate::trouble::Trouble;
use client_request::{Compose, Error};
use dns_base::{Message, Octets};
use front_queries::{Query, Sorted, answer_to, request_of, sort};
use hex::Hex;
use scene::Scene;
use std::alloc::Global;

/// The octets of a word.
fn octets_in(alloc: Global, word: &str) -> Result<Octets, Trouble> {
    Ok(Octets::from_vec(given::octets(alloc, word.as_bytes())?)?)
}

/// The reply of a word.
fn reply_in(alloc: Global, word: &str) -> Result<Result<Message, Error>, Trouble> {
    if word == "-" {
        return Ok(Err(Error::TimedOut));
    }
    Ok(Ok(Message::from_octets(octets_in(alloc, word)?)?))
}

fn asked_line(alloc: Global, query: &Query) -> Result<String, Trouble> {
    let message = request_of(alloc, query)?.to_message()?;
    Ok(format!(in alloc; "asks {}\n", Hex(message.as_slice()))?)
}

/// The lines of what answers a query as a datagram, and by a stream.
fn answer_lines(
    alloc: Global,
    query: &Query,
    reply: &Result<Message, Error>,
) -> Result<String, Trouble> {
    let datagram = answer_to(alloc, query, false, reply)?;
    let frame = answer_to(alloc, query, true, reply)?;
    let (datagram, frame) = (Hex(datagram.as_slice()), Hex(frame.as_slice()));
    Ok(format!(in alloc; "datagram {datagram}\nframe {frame}\n")?)
}

/// The lines of a query that is taken, and of the reply to it where one is given.
fn taken_lines(alloc: Global, query: &Query, reply: Option<&str>) -> Result<String, Trouble> {
    let mut text = asked_line(alloc, query)?;
    if let Some(reply) = reply {
        let reply = reply_in(alloc, reply)?;
        text.push_str(answer_lines(alloc, query, &reply)?.as_str())?;
    }
    Ok(text)
}

/// The lines of a query.
fn query_lines(alloc: Global, line: &str) -> Result<String, Trouble> {
    let (query, reply) = match line.split_once(' ') {
        Some((query, reply)) => (query, Some(reply)),
        None => (line, None),
    };
    match sort(alloc, octets_in(alloc, query)?)? {
        Sorted::Ignored => Ok(String::from_str(alloc, "ignored\n")?),
        Sorted::Refused { octets } => {
            Ok(format!(in alloc; "refused {}\n", Hex(octets.as_slice()))?)
        }
        Sorted::Taken { query } => taken_lines(alloc, &query, reply),
    }
}

/// The forwarder that lines go on with, if one was begun.
pub struct Front {
    scene: Option<Scene>,
}

impl Drop for Front {
    fn drop(self) {
        let Front { scene: _ } = self;
    }
}

impl Front {
    pub fn new() -> Front {
        Front { scene: None }
    }

    /// Begins a scene, tells one something, or says what a query gets.
    pub fn text_of(&mut self, alloc: Global, line: &str) -> Result<String, Trouble> {
        if let Some(line) = line.strip_prefix("scene ") {
            self.scene = Scene::of(alloc, line);
            return Ok(String::new(alloc));
        }
        let Some(line) = line.strip_prefix("tells ") else {
            return query_lines(alloc, line);
        };
        match &mut self.scene {
            Some(scene) => scene.tell(line).ok_or(Trouble::Usage),
            None => Err(Trouble::Usage),
        }
    }
}
