//! What is said: things between commas.

use crate::lent::Lent;
use client_request::{Error, Out, Part};
use dns_base::{Message, OptRecord};
use std::fmt::{Debug, Display, Write};

/// Puts a comma behind what was said before, if there is no mark.
fn go_on(said: &mut String) -> Option<()> {
    if said.is_empty() || said.as_str().ends_with(' ') {
        Some(())
    } else {
        said.push_str(", ").ok()
    }
}

pub fn say(said: &mut String, word: &str) -> Option<()> {
    go_on(said)?;
    said.push_str(word).ok()
}

/// Says a value as it is printed.
pub fn say_value<T: Display>(said: &mut String, value: &T) -> Option<()> {
    go_on(said)?;
    write!(said, "{value}").ok()
}

/// Says a value by its name in the code.
pub fn say_name<T: Debug>(said: &mut String, value: &T) -> Option<()> {
    go_on(said)?;
    write!(said, "{value:?}").ok()
}

/// Says a word, and a value as it is printed.
pub fn say_sentence<T: Display>(said: &mut String, word: &str, value: &T) -> Option<()> {
    go_on(said)?;
    write!(said, "{word} {value}").ok()
}

/// Says the error of a call, and nothing where it has none.
pub fn say_outcome(said: &mut String, outcome: Result<(), Error>) -> Option<()> {
    match outcome {
        Ok(()) => Some(()),
        Err(error) => say_name(said, &error),
    }
}

fn push_octets(said: &mut String, octets: &[u8]) -> Option<()> {
    for octet in octets {
        write!(said, "{octet:02x}").ok()?;
    }
    Some(())
}

pub fn say_octets(said: &mut String, octets: &[u8]) -> Option<()> {
    go_on(said)?;
    push_octets(said, octets)
}

/// Says the payload size of an OPT record, and the octets of its options.
pub fn say_opt(said: &mut String, opt: Option<OptRecord<'_>>) -> Option<()> {
    let Some(opt) = opt else {
        return say(said, "none");
    };
    let size = opt.udp_payload_size();
    go_on(said)?;
    write!(said, "opt {size} ").ok()?;
    if opt.data().is_empty() {
        return said.push_str("-").ok();
    }
    push_octets(said, opt.data())
}

/// Writes the id of a message that is given, or its first four octets (with its flags and its response code), the end of a
/// transfer, or an error.
fn push_part(said: &mut String, part: &Part, is_by_id: bool) -> Option<()> {
    match part {
        Ok(Some(message)) if is_by_id => {
            let id = message.header().id();
            write!(said, "id {id}").ok()
        }
        Ok(Some(message)) => push_octets(said, &message.header().to_octets()),
        Ok(None) => said.push_str("end").ok(),
        Err(error) => write!(said, "{error:?}").ok(),
    }
}

/// Says a part that was asked for.
pub fn say_part(said: &mut String, part: &Part, is_by_id: bool) -> Option<()> {
    go_on(said)?;
    push_part(said, part, is_by_id)
}

/// Says the results of requests, each by how many were asked before.
pub fn say_replies(lent: &mut Lent, said: &mut String) -> Option<()> {
    for _ in 0..lent.board.len() {
        let posted = lent.board.take_first()?;
        let number = lent.number_of(posted.ticket);
        go_on(said)?;
        write!(said, "reply {number} ").ok()?;
        push_part(said, &posted.part, lent.says_ids)?;
    }
    Some(())
}

/// Says what was put out.
pub fn say_outs(lent: &Lent, said: &mut String) -> Option<()> {
    for out in lent.outs.as_slice() {
        match out {
            Out::OpenStream { place, server } if lent.says_ids => {
                go_on(said)?;
                write!(said, "open {place} {server}").ok()?;
            }
            _ => say_out(said, out)?,
        }
    }
    Some(())
}

/// Says what stands for a result that was asked for.
pub fn say_given(said: &mut String, given: &Result<Message, Error>) -> Option<()> {
    match given {
        Ok(message) => say_octets(said, &message.header().to_octets()),
        Err(error) => say_name(said, error),
    }
}

/// Writes the reply to a request: the first four octets of a message, or an error.
fn push_result(said: &mut String, request: u64, given: &Result<Message, Error>) -> Option<()> {
    write!(said, "reply {request} ").ok()?;
    match given {
        Ok(message) => push_octets(said, &message.header().to_octets()),
        Err(error) => write!(said, "{error:?}").ok(),
    }
}

/// Says what a step puts out, or that it is nothing.
pub fn say_rows_out(said: &mut String, outs: &[Out]) -> Option<()> {
    if outs.is_empty() {
        return say(said, "nothing");
    }
    for out in outs {
        say_out(said, out)?;
    }
    Some(())
}

/// Writes what happens at a place of an open connection.
fn push_sent(said: &mut String, out: &Out) -> Option<()> {
    match out {
        Out::Send {
            place,
            request,
            id,
            ..
        } => write!(said, "send {place} {request} {id}").ok(),
        Out::Write {
            place,
            request,
            id,
            ..
        } => write!(said, "write {place} {request} {id}").ok(),
        Out::Resume { place, octets } => {
            let left = octets.as_slice().len();
            write!(said, "resume {place} {left}").ok()
        }
        Out::Close { place } => write!(said, "close {place}").ok(),
        Out::Reply { request, result } => push_result(said, *request, result),
        _ => said.push_str("other").ok(),
    }
}

/// Says what is put out: of a place its number, and behind it the server's, or the request's and the id.
pub fn say_out(said: &mut String, out: &Out) -> Option<()> {
    go_on(said)?;
    match out {
        Out::Start {
            request,
            server,
            ..
        } => write!(said, "start {request} {server}").ok(),
        Out::OpenDgram { place, server } => write!(said, "open-dgram {place} {server}").ok(),
        Out::OpenStream { place, server } => write!(said, "open-stream {place} {server}").ok(),
        _ => push_sent(said, out),
    }
}
