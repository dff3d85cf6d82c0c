//! Clients of servers that are known by their words, edges and clocks in memory, and what was done with them.
//!
//! An edge gives the events between commas, as in a trace but without their moments; `-` is none, and `ask BASE` asks what a message
//! asks. A server is named by its transport (`tcp`, or `both`) and the last octet of its address, as `both-53`.

use crate::reading::{first_word, number, request_of, what_of};
use crate::saying::{say, say_out, say_sentence};
use client_core::{Client, Deed, ListClock, ListEdge, What, cache, redundant};
use client_request::Moment;
use dns_base::{IpAddr, SocketAddr};
use resolv_conf::{ResolvConf, ServerConf, Transport};
use std::alloc::Global;

/// A server at port 53.
pub fn server_of(word: &str) -> Option<ServerConf> {
    let (transport, last) = word.split_once('-')?;
    let ip = IpAddr::V4([192, 0, 2, last.parse::<u8>().ok()?]);
    let addr = SocketAddr { ip, port: 53 };
    let transport = match transport {
        "tcp" => Transport::Tcp,
        "both" => Transport::UdpTcp,
        _ => return None,
    };
    Some(ServerConf::new(addr, transport))
}

/// A configuration of the servers between blanks; `-` is none.
pub fn conf_of(alloc: Global, words: &str) -> Option<ResolvConf> {
    let mut conf = ResolvConf::new(alloc);
    for word in words.split_whitespace().filter(|word| *word != "-") {
        conf.servers.push(server_of(word)?).ok()?;
    }
    Some(conf)
}

pub fn client_of(alloc: Global, words: &str) -> Option<Client> {
    let conf = conf_of(alloc, words)?;
    Client::new(alloc, &conf, redundant::Config::new(), cache::Config::new()).ok()
}

pub fn clock_of(alloc: Global, words: &str) -> Option<ListClock> {
    let mut moments = Vec::new(alloc);
    for word in words.split_whitespace() {
        moments.push(Moment(number(word)?)).ok()?;
    }
    Some(ListClock::new(moments))
}

pub fn event_of(alloc: Global, words: &str) -> Option<What> {
    let (word, rest) = first_word(words);
    if word == "ask" {
        let request = request_of(alloc, rest)?;
        return Some(What::Ask { request });
    }
    what_of(alloc, words)
}

pub fn edge_of(alloc: Global, all: &str) -> Option<ListEdge> {
    let mut events = Vec::new(alloc);
    for words in all.split(',').filter(|words| !words.trim().is_empty()) {
        let polled = match words.trim() {
            "-" => None,
            words => Some(event_of(alloc, words)?),
        };
        events.push(polled).ok()?;
    }
    Some(ListEdge::new(alloc, events))
}

/// Says what was done with an edge, and for how long it might wait, in microseconds.
pub fn say_edge(said: &mut String, edge: &ListEdge) -> Option<()> {
    for deed in edge.deeds() {
        match deed {
            Deed::Learned(server) => say_sentence(said, "learn", &server.addr)?,
            Deed::Acted(out) => say_out(said, out)?,
            Deed::Polled(Some(_)) => say(said, "event")?,
            Deed::Polled(None) => say(said, "none")?,
        }
    }
    for wait in edge.waits() {
        say_sentence(said, "wait", wait)?;
    }
    Some(())
}
