//! What the client wants done.

use crate::server::address_in;
use crate::trouble::Trouble;
use client_core::{Out, Row};
use client_request::Error;
use dns_base::{Message, Octets};
use std::io;

fn show_reply(rt: &impl Print, request: u64, reply: &Result<Message, Error>) -> io::Result<()> {
    match reply {
        Ok(message) => {
            let [a, b, c, d] = address_in(message);
            println!(rt; "  request {request} has its reply: {a}.{b}.{c}.{d}")
        }
        Err(_) => println!(rt; "  request {request} has an error"),
    }
}

fn show_out(rt: &impl Print, out: &Out) -> io::Result<()> {
    match out {
        Out::Start { request, .. } => println!(rt; "  request {request} goes to the server"),
        Out::OpenDgram { place, .. } => println!(rt; "  open place {place}"),
        Out::Send { place, octets, .. } => {
            let count = octets.as_slice().len();
            println!(rt; "  send {count} octets at place {place}")
        }
        Out::Close { place } => println!(rt; "  close place {place}"),
        Out::Reply { request, result } => show_reply(rt, *request, result),
        _ => println!(rt; "  something by stream"),
    }
}

/// Prints a row: its moment, and a line for each out.
pub(crate) fn show(rt: &impl Print, row: &Row) -> Result<(), Trouble> {
    let moment = row.event.moment.0;
    println!(rt; "at {moment}")?;
    for out in row.outs.as_slice() {
        show_out(rt, out)?;
    }
    Ok(())
}

/// Prints how long an answer is, or why there is none.
pub(crate) fn show_end(
    rt: &impl Print,
    request: u64,
    reply: &Result<Message, Error>,
) -> Result<(), Trouble> {
    match reply {
        Ok(message) => {
            let count = message.as_slice().len();
            println!(rt; "request {request}: {count} octets")?;
        }
        Err(error) => println!(rt; "request {request}: {error}")?,
    }
    Ok(())
}

fn octets_in(out: &Out) -> Option<&Octets> {
    match out {
        Out::Send { octets, .. } => Some(octets),
        _ => None,
    }
}

/// The octets that a row sends, if it sends any.
pub(crate) fn sent(row: &Row) -> Option<&Octets> {
    for out in row.outs.as_slice() {
        if let Some(octets) = octets_in(out) {
            return Some(octets);
        }
    }
    None
}
