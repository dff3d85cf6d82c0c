//! A forwarder over a client in memory, what it is told, and what it puts out.

use crate::front::client::Given;
use crate::front::hex::Hex;
use crate::given::octets;
use client_request::{FIRST_STREAM, ListWords, Moment, Out, Outs, What, WordList};
use dns_base::{Message, Octets};
use front_peers::{FrontEvent, FrontOut, FrontWhat};
use front_steps::Forwarder;
use std::alloc::Global;

/// A question for the addresses of h.example, under the id 1, but for its class.
const QUERY: [u8; 25] = *b"\0\x01\x01\0\0\x01\0\0\0\0\0\0\x01h\x07example\0\0\x01";

/// The reply that the client gives: there is no such name.
const REPLY: [u8; 27] = *b"\x09\x09\x81\x83\0\x01\0\0\0\0\0\0\x01h\x07example\0\0\x01\0\x01";

pub struct Scene {
    alloc: Global,
    forwarder: Forwarder<Given>,
    words: ListWords,
    moment: u64,
}

impl Drop for Scene {
    fn drop(self) {
        let Scene {
            alloc: _,
            forwarder: _,
            words: _,
            moment: _,
        } = self;
    }
}

/// The reply to request 0.
fn reply(alloc: Global) -> Option<Out> {
    let octets = Octets::from_slice(alloc, &REPLY).ok()?;
    let message = Message::from_octets(octets).ok()?;
    Some(Out::Reply {
        request: 0,
        result: Ok(message),
    })
}

/// What the client puts out: its reply, or that a place is closed.
fn outs(alloc: Global, word: &str) -> Option<Outs> {
    let mut outs = Outs::new(alloc);
    let out = match word {
        "reply" => reply(alloc)?,
        _ => Out::Close { place: 1 },
    };
    outs.push(out).ok()?;
    Some(outs)
}

/// A client by its line: how many events are quiet, whether it serves all, and what it puts out.
fn given(alloc: Global, line: &str) -> Option<Given> {
    let (quiet, rest) = line.split_once(' ')?;
    let (serves, word) = rest.split_once(' ')?;
    Some(Given {
        alloc,
        quiet: quiet.parse::<u64>().ok()?,
        outs: outs(alloc, word),
        serves: serves == "serves",
        told: 0,
    })
}

/// The octets of digits, or of `-` none.
fn octets_of(alloc: Global, digits: &str) -> Option<Octets> {
    let digits = if digits == "-" { "" } else { digits };
    Octets::from_vec(octets(alloc, digits.as_bytes()).ok()?).ok()
}

/// What comes by a datagram, by a stream, or of a stream.
fn what_of(alloc: Global, word: &str, peer: u64, digits: &str) -> Option<FrontWhat> {
    let octets = octets_of(alloc, digits)?;
    match word {
        "datagram" => Some(FrontWhat::Datagram { peer, octets }),
        "bytes" => Some(FrontWhat::Bytes { peer, octets }),
        "accepted" => Some(FrontWhat::Accepted { peer }),
        "gone" => Some(FrontWhat::Gone { peer }),
        _ => None,
    }
}

/// A question in a class of its own, from a peer of its own.
fn question(alloc: Global, class: u16) -> Option<FrontWhat> {
    let mut octets = Vec::from_slice(alloc, &QUERY).ok()?;
    octets.extend_from_slice(&class.to_be_bytes()).ok()?;
    let peer = u64::from(class);
    let octets = Octets::from_vec(octets).ok()?;
    Some(FrontWhat::Datagram { peer, octets })
}

/// The line of a copy of what is put out.
fn out_text(alloc: Global, out: &FrontOut) -> Option<String> {
    match &out.try_clone().ok()? {
        FrontOut::Answer { peer, octets } => {
            format!(in alloc; "answer {peer} {}\n", Hex(octets.as_slice())).ok()
        }
        FrontOut::Drop { peer } => format!(in alloc; "drop {peer}\n").ok(),
        FrontOut::Core {
            out: Out::Close { place },
        } => format!(in alloc; "close {place}\n").ok(),
        FrontOut::Core { .. } => String::from_str(alloc, "core\n").ok(),
    }
}

impl Scene {
    /// A scene by its line.
    pub fn of(alloc: Global, line: &str) -> Option<Scene> {
        let given = given(alloc, line)?;
        Some(Scene {
            alloc,
            forwarder: Forwarder::new(alloc, given),
            words: ListWords::new(WordList::new(alloc)),
            moment: 0,
        })
    }

    /// Tells the forwarder a copy of what happens, a microsecond later than that before.
    fn step(&mut self, text: &mut String, what: &FrontWhat) -> Option<()> {
        self.moment = self.moment.saturating_add(1);
        let moment = Moment(self.moment);
        let what = what.try_clone(self.alloc).ok()?;
        let row = self
            .forwarder
            .step(&mut self.words, FrontEvent { moment, what })
            .ok()?;
        for out in row.outs.as_slice() {
            text.push_str(out_text(self.alloc, out)?.as_str()).ok()?;
        }
        Some(())
    }

    /// So many questions wait.
    fn crowd(&mut self, text: &mut String, count: u16) -> Option<()> {
        for class in 0..count {
            let what = question(self.alloc, class)?;
            self.step(text, &what)?;
        }
        Some(())
    }

    /// So many streams come.
    fn streams(&mut self, text: &mut String, count: u64) -> Option<()> {
        for number in 0..count {
            let peer = FIRST_STREAM.saturating_add(number);
            self.step(text, &FrontWhat::Accepted { peer })?;
        }
        Some(())
    }

    fn hear(&mut self, text: &mut String, word: &str, rest: &str) -> Option<()> {
        let (peer, digits) = rest.split_once(' ')?;
        let what = what_of(self.alloc, word, peer.parse::<u64>().ok()?, digits)?;
        self.step(text, &what)
    }

    fn tell_all(&mut self, text: &mut String, line: &str) -> Option<()> {
        let (word, rest) = line.split_once(' ')?;
        match word {
            "tick" => self.step(text, &FrontWhat::Core { what: What::Tick }),
            "crowd" => self.crowd(text, rest.parse::<u16>().ok()?),
            "streams" => self.streams(text, rest.parse::<u64>().ok()?),
            _ => self.hear(text, word, rest),
        }
    }

    /// What is put out for a line, and how many events the client was told then.
    pub fn tell(&mut self, line: &str) -> Option<String> {
        let mut text = String::new(self.alloc);
        self.tell_all(&mut text, line)?;
        let told = self.forwarder.within().told;
        format!(in self.alloc; "{text}told {told}\n").ok()
    }
}
