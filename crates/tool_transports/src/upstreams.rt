//! A server of a client, by each of its transports.
//!
//! `upstream TRANSPORT; WORDS; BASE; CALL, ..` asks server 0 by `udp`, `tcp`, or `both` what a message asks, and then tells it what happens, by
//! events as in a trace; `cancel` gives the request up, and `result` says what stands for its result.

use crate::lent::Lent;
use crate::reading::{request_of, what_of, word_list};
use crate::saying::{say, say_given, say_outcome, say_rows_out};
use client_core::{Handed, Upstream};
use client_multi::{dgram_stream, multi_stream};
use client_request::{Cx, GetResponse, ListWords, Poll, RequestMessage, SendRequest, Signal};
use std::alloc::Global;

fn upstream(alloc: Global, word: &str) -> Option<Upstream<RequestMessage>> {
    match word {
        "udp" => {
            let server = client_dgram::Connection::new(alloc, 0).ok()?;
            Some(Upstream::Dgram(server))
        }
        "tcp" => {
            let server = multi_stream::Connection::new(alloc, 0).ok()?;
            Some(Upstream::Stream(server))
        }
        "both" => {
            let server = dgram_stream::Connection::new(alloc, 0).ok()?;
            Some(Upstream::DgramStream(server))
        }
        _ => None,
    }
}

/// Tells a server one thing, with what stands for the result of its request while that was not given up.
fn call(
    alloc: Global,
    server: &mut Upstream<RequestMessage>,
    cx: &mut Cx<'_, ListWords>,
    response: &mut Option<Handed>,
    words: &str,
    said: &mut String,
) -> Option<()> {
    match words {
        "cancel" => {
            let given_up = response.take()?;
            say_outcome(said, server.cancel(cx, given_up))
        }
        "result" => match response {
            Some(response) => match response.get_response(cx.board) {
                Poll::Pending => say(said, "pending"),
                Poll::Ready(given) => say_given(said, &given),
            },
            None => say(said, "none"),
        },
        _ => {
            let what = what_of(alloc, words)?;
            say_outcome(said, server.step(cx, Signal::Told(&what)))
        }
    }
}

pub fn show(alloc: Global, line: &str, said: &mut String) -> Option<()> {
    let (word, rest) = line.split_once(';')?;
    let (words, rest) = rest.split_once(';')?;
    let (base, calls) = rest.split_once(';')?;
    let mut server = upstream(alloc, word)?;
    let mut lent = Lent::new(alloc, word_list(alloc, words)?, 0);
    let mut cx = lent.cx();
    let request = request_of(alloc, base.trim())?;
    let mut response = Some(server.send_request(&mut cx, request).ok()?);
    for words in calls.split(',') {
        call(
            alloc,
            &mut server,
            &mut cx,
            &mut response,
            words.trim(),
            said,
        )?;
    }
    say_rows_out(said, lent.outs.as_slice())
}
