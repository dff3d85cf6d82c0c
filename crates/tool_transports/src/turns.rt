//! Requests that are asked, and turns: a client of the server `both-53` over an edge and a clock in memory.
//!
//! Each line ends in `WORDS; MOMENTS; EVENT, ..`. `ask NUMBER MOST BASE` asks what a message asks as the request of a number, within so
//! many turns, and `ask-long BASE` with as many as there may be; `ask-both BASE` asks it twice; `turn` makes one turn. `learn SERVER ..`
//! tells an edge of servers, and `poor BASE` does all this with an edge that finds no memory. The reply, what was done with the
//! edge, and how long it might wait are shown.

use crate::memory::{client_of, clock_of, edge_of, say_edge, server_of};
use crate::poor::PoorEdge;
use crate::reading::{first_word, number, request_of, word_list};
use crate::saying::{say, say_name, say_octets, say_sentence};
use client_core::{Client, ListClock, ListEdge, What};
use client_loop::{ask, ask_both, ask_within, learn_all, turn};
use client_request::{Error, ListWords, Row};
use dns_base::{Message, NoMemory};
use resolv_conf::ServerConf;
use std::alloc::Global;

/// What the turns are made with.
struct Stage {
    client: Client,
    clock: ListClock,
    words: ListWords,
    edge: ListEdge,
}

impl Drop for Stage {
    fn drop(self) {
        let Stage {
            client: _,
            clock: _,
            words: _,
            edge: _,
        } = self;
    }
}

fn stage_of(alloc: Global, line: &str) -> Option<Stage> {
    let (words, rest) = line.split_once(';')?;
    let (moments, events) = rest.split_once(';')?;
    Some(Stage {
        client: client_of(alloc, "both-53")?,
        clock: clock_of(alloc, moments)?,
        words: ListWords::new(word_list(alloc, words)?),
        edge: edge_of(alloc, events)?,
    })
}

/// A reply that a request has, or none yet.
type Reply = Option<Result<Message, Error>>;

fn say_reply(said: &mut String, reply: &Reply) -> Option<()> {
    match reply {
        Some(Ok(message)) => say_octets(said, message.as_slice()),
        Some(Err(error)) => say_name(said, error),
        None => say(said, "no reply"),
    }
}

fn say_asked(said: &mut String, asked: &Result<Reply, Error>) -> Option<()> {
    match asked {
        Ok(reply) => say_reply(said, reply),
        Err(error) => say_name(said, error),
    }
}

/// Asks within so many turns, or with as many as there may be.
pub fn show_ask(alloc: Global, rest: &str, is_long: bool, said: &mut String) -> Option<()> {
    let (words, line) = rest.split_once(';')?;
    let mut stage = stage_of(alloc, line)?;
    let Stage {
        client,
        clock,
        words: drawn,
        edge,
    } = &mut stage;
    let asked = if is_long {
        ask(client, edge, clock, drawn, 0, request_of(alloc, words)?)
    } else {
        let (request, rest) = first_word(words);
        let (most, base) = first_word(rest);
        let base = request_of(alloc, base)?;
        ask_within(
            client,
            edge,
            clock,
            drawn,
            number(request)?,
            base,
            number(most)?,
        )
    };
    say_asked(said, &asked)?;
    say_edge(said, edge)
}

pub fn show_both(alloc: Global, rest: &str, said: &mut String) -> Option<()> {
    let (base, line) = rest.split_once(';')?;
    let mut stage = stage_of(alloc, line)?;
    let replies = ask_both(
        &mut stage.client,
        &mut stage.edge,
        &mut stage.clock,
        &mut stage.words,
        0,
        request_of(alloc, base)?,
        request_of(alloc, base)?,
    )
    .ok()?;
    say_reply(said, &replies.first)?;
    say_reply(said, &replies.second)?;
    say_edge(said, &stage.edge)
}

/// Says which kind of event a turn had, when, and how much it put out.
fn say_row(said: &mut String, row: &Row) -> Option<()> {
    let kind = if matches!(row.event.what, What::Tick) {
        "tick"
    } else {
        "event"
    };
    say_sentence(said, kind, &row.event.moment.0)?;
    say_sentence(said, "outs", &row.outs.len())
}

pub fn show_turn(alloc: Global, line: &str, said: &mut String) -> Option<()> {
    let mut stage = stage_of(alloc, line)?;
    let row = turn(
        &mut stage.client,
        &mut stage.edge,
        &mut stage.clock,
        &mut stage.words,
    );
    match row {
        Ok(row) => say_row(said, &row)?,
        Err(error) => say_name(said, &error)?,
    }
    say_edge(said, &stage.edge)
}

fn servers_of(alloc: Global, words: &str) -> Option<Vec<ServerConf>> {
    let mut servers = Vec::new(alloc);
    for word in words.split_whitespace() {
        servers.push(server_of(word)?).ok()?;
    }
    Some(servers)
}

pub fn show_learned(alloc: Global, words: &str, said: &mut String) -> Option<()> {
    let servers = servers_of(alloc, words)?;
    let mut edge = ListEdge::new(alloc, Vec::new(alloc));
    learn_all(&mut edge, &servers).ok()?;
    say_edge(said, &edge)
}

pub fn show_poor(alloc: Global, base: &str, said: &mut String) -> Option<()> {
    let mut stage = stage_of(alloc, "4660; 0; ")?;
    let mut edge = PoorEdge { servers: 0 };
    match learn_all(&mut edge, &servers_of(alloc, "both-53")?) {
        Ok(()) => say(said, "learned")?,
        Err(NoMemory) => say(said, "no memory")?,
    }
    if let Err(error) = turn(
        &mut stage.client,
        &mut edge,
        &mut stage.clock,
        &mut stage.words,
    ) {
        say_name(said, &error)?;
    }
    let asked = ask_within(
        &mut stage.client,
        &mut edge,
        &mut stage.clock,
        &mut stage.words,
        0,
        request_of(alloc, base)?,
        9,
    );
    say_asked(said, &asked)
}
