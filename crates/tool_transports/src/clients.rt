//! A client that is stepped by hand, and its edge and clock in memory.
//!
//! `client SERVER ..; WORDS; CALL, ..` calls a client of these servers, or of none for `-`: `at MOMENT EVENT` steps it and says what it puts out,
//! `due` says when it is due next, `serves MOMENT BASE` whether it would answer what a message asks at once, and `add SERVER` adds
//! one. `clock MOMENTS` reads a clock twice. `edge SERVER; EVENT, ..` tells an edge of a server, has it close place 3, lets it wait 7
//! microseconds and polls it twice. `fault EVENT` says whether an event tells of a fault.

use crate::memory::{client_of, clock_of, edge_of, event_of, say_edge, server_of};
use crate::reading::{first_word, number, request_of, word_list};
use crate::saying::{say_name, say_outcome, say_rows_out, say_value};
use client_core::{Client, Clock, Edge, Out, is_fault};
use client_request::{Event, ListWords, Moment};
use std::alloc::Global;

fn step(
    alloc: Global,
    client: &mut Client,
    words: &mut ListWords,
    call: &str,
    said: &mut String,
) -> Option<()> {
    let (moment, event) = first_word(call);
    let moment = Moment(number(moment)?);
    let what = event_of(alloc, event)?;
    match client.step(words, Event { moment, what }) {
        Ok(row) => say_rows_out(said, row.outs.as_slice()),
        Err(error) => say_name(said, &error),
    }
}

fn say_serving(alloc: Global, client: &Client, call: &str, said: &mut String) -> Option<()> {
    let (moment, base) = first_word(call);
    let request = request_of(alloc, base)?;
    let serves = client.would_serve(Moment(number(moment)?), &request).ok()?;
    say_value(said, &serves)
}

fn call(
    alloc: Global,
    client: &mut Client,
    words: &mut ListWords,
    line: &str,
    said: &mut String,
) -> Option<()> {
    let (word, rest) = first_word(line);
    match word {
        "at" => step(alloc, client, words, rest, said),
        "due" => say_name(said, &client.next_due()),
        "serves" => say_serving(alloc, client, rest, said),
        "add" => say_outcome(said, client.add_server(&server_of(rest)?)),
        _ => None,
    }
}

pub fn show_client(alloc: Global, rest: &str, said: &mut String) -> Option<()> {
    let (servers, line) = rest.split_once(';')?;
    let (words, calls) = line.split_once(';')?;
    let mut client = client_of(alloc, servers)?;
    let mut words = ListWords::new(word_list(alloc, words)?);
    for line in calls.split(',') {
        call(alloc, &mut client, &mut words, line.trim(), said)?;
    }
    Some(())
}

pub fn show_clock(alloc: Global, words: &str, said: &mut String) -> Option<()> {
    let mut clock = clock_of(alloc, words)?;
    say_value(said, &clock.now().0)?;
    say_value(said, &clock.now().0)
}

pub fn show_edge(alloc: Global, rest: &str, said: &mut String) -> Option<()> {
    let (server, events) = rest.split_once(';')?;
    let mut edge = edge_of(alloc, events)?;
    edge.learn_server(&server_of(server)?).ok()?;
    edge.act(&Out::Close { place: 3 }).ok()?;
    edge.wait(7);
    edge.poll().ok()?;
    edge.poll().ok()?;
    say_edge(said, &edge)
}

pub fn show_fault(alloc: Global, words: &str, said: &mut String) -> Option<()> {
    let what = match words {
        "-" => None,
        _ => Some(event_of(alloc, words)?),
    };
    say_value(said, &is_fault(&what))
}
