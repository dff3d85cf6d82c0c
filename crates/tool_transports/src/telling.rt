//! What transports are told, and what is shown of it: `TRANSPORT; WORDS; WHAT, ..`.
//!
//! A transport is begun by its words, and draws the numbers between the semicolons, and zeros behind them. What happens stands
//! between commas: an event as in a trace, without its moment; `ask BASE` asks what a message asks, and `fill COUNT BASE` so many
//! times, each of which is written at place 0; `ask-past ID BASE` asks it of the server of an identifier, past a choice;
//! `cancel NUMBER` gives a request up, by how many were asked before; `later MICROSECONDS`; `result NUMBER` says what stands for
//! its next result, `octets` which octets were to be written last, and `due` when the next timer is due.
//!
//! What was said, put out and given is shown in this order. Where a colon stands, what comes before it happened already,
//! and only what that says by itself is shown of it. Where bars stand, what happens between two of them is shown between two bars.

use crate::lent::{Lent, Response};
use crate::making::made;
use crate::reading::{first_word, number, request_of, what_of, word_list};
use crate::saying::{say, say_octets, say_outcome, say_outs, say_part, say_replies, say_value};
use crate::transport::Transport;
use client_request::{
    Compose, Error, GetResponse, GetResponseMulti, Moment, Out, Part, Poll, RequestMessage, Signal,
    What,
};
use dns_base::Message;
use std::alloc::Global;

/// How many octets a stream carries at most for a message.
const LONGEST: u64 = 65537;

/// Lets a transport hear a signal, and tells whether another whole frame stands.
fn step(transport: &mut Transport, lent: &mut Lent, signal: Signal<'_>) -> Result<bool, Error> {
    let mut cx = lent.cx();
    let heard = transport.hear(&mut cx, signal);
    let (ticket, place, more) = (cx.ticket, cx.place, cx.more);
    lent.ticket = ticket;
    lent.place = place;
    match heard {
        Ok(()) => Ok(more),
        Err(error) => Err(error),
    }
}

/// Takes the frames that still stand at a place.
fn take_more(transport: &mut Transport, lent: &mut Lent, place: u64) -> Result<(), Error> {
    for _ in 0..u64::MAX {
        if !step(transport, lent, Signal::More { place })? {
            return Ok(());
        }
    }
    Ok(())
}

/// Tells what happened.
pub fn hear(transport: &mut Transport, lent: &mut Lent, what: &What) -> Result<(), Error> {
    let more = step(transport, lent, Signal::Told(what))?;
    match what {
        What::Bytes { place, .. } if more => take_more(transport, lent, *place),
        _ => Ok(()),
    }
}

/// It is that moment, in microseconds: the timers that are due fire.
pub fn go_to(transport: &mut Transport, lent: &mut Lent, now: u64) -> Result<(), Error> {
    lent.now = now;
    for _ in 0..u64::MAX {
        let Some(timer) = lent.timers.fire(Moment(now)) else {
            return Ok(());
        };
        let _ = step(transport, lent, Signal::Due(timer))?;
    }
    Ok(())
}

/// Asks a request, of the server of an identifier where there is one: past a choice, which can't give it up.
pub fn ask(
    transport: &mut Transport,
    lent: &mut Lent,
    past: Option<u64>,
    request: RequestMessage,
) -> Result<(), Error> {
    let mut cx = lent.cx();
    let sent = match past {
        Some(id) => transport.send_past(&mut cx, id, request),
        None => transport.send(&mut cx, request),
    };
    let (ticket, place) = (cx.ticket, cx.place);
    lent.ticket = ticket;
    lent.place = place;
    match sent {
        Ok(response) if past.is_none() => {
            lent.keep(response.ticket(), Some(Response::Single(response)))
        }
        Ok(response) => lent.keep(response.ticket(), None),
        Err(error) => Err(error),
    }
}

/// Asks a request so many times, which is written at place 0 each time.
fn fill(
    alloc: Global,
    transport: &mut Transport,
    lent: &mut Lent,
    words: &str,
) -> Option<Result<(), Error>> {
    let (count, digits) = first_word(words);
    let request = request_of(alloc, digits)?;
    let written = What::Wrote {
        place: 0,
        count: LONGEST,
    };
    for _ in 0..number(count)? {
        let copy = request.try_clone(alloc).ok()?;
        let asked = ask(transport, lent, None, copy);
        if asked.is_err() {
            return Some(asked);
        }
        hear(transport, lent, &written).ok()?;
    }
    Some(Ok(()))
}

/// Gives up the request before which so many were asked, if it was not before.
pub fn cancel(transport: &mut Transport, lent: &mut Lent, number: u64) -> Result<(), Error> {
    let Some(slot) = lent.responses.get_mut(number as usize) else {
        return Ok(());
    };
    let Some(response) = slot.take() else {
        return Ok(());
    };
    let mut cx = lent.cx();
    let given_up = transport.cancel(&mut cx, response);
    let (ticket, place) = (cx.ticket, cx.place);
    lent.ticket = ticket;
    lent.place = place;
    given_up
}

/// The result of a request that has but one.
fn single_part(polled: Poll<Result<Message, Error>>) -> Poll<Part> {
    match polled {
        Poll::Pending => Poll::Pending,
        Poll::Ready(Ok(message)) => Poll::Ready(Ok(Some(message))),
        Poll::Ready(Err(error)) => Poll::Ready(Err(error)),
    }
}

/// Says what stands for the next result of the request before which so many were asked.
fn say_result(lent: &mut Lent, number: u64, said: &mut String) -> Option<()> {
    let Some(Some(response)) = lent.responses.get_mut(number as usize) else {
        return say(said, if lent.says_ids { "pending" } else { "none" });
    };
    let polled = match response {
        Response::Single(response) => single_part(response.get_response(&mut lent.board)),
        Response::Transfer(response) => response.get_response(&mut lent.board),
    };
    match polled {
        Poll::Pending => say(said, "pending"),
        Poll::Ready(part) => say_part(said, &part, lent.says_ids),
    }
}

/// Says the octets that were to be written last.
fn say_written(lent: &Lent, said: &mut String) -> Option<()> {
    match lent.outs.as_slice().last() {
        Some(Out::Write { octets, .. }) | Some(Out::Resume { octets, .. }) => {
            say_octets(said, octets.as_slice())
        }
        _ => say(said, "none"),
    }
}

/// What a call answers that is told one thing; none where it is no call of a transport.
fn told(
    alloc: Global,
    transport: &mut Transport,
    lent: &mut Lent,
    words: &str,
) -> Option<Result<(), Error>> {
    let (word, rest) = first_word(words);
    match word {
        "ask" => Some(ask(transport, lent, None, request_of(alloc, rest)?)),
        "ask-past" => {
            let (id, digits) = first_word(rest);
            let id = Some(number(id)?);
            Some(ask(transport, lent, id, request_of(alloc, digits)?))
        }
        "fill" => fill(alloc, transport, lent, rest),
        "cancel" => Some(cancel(transport, lent, number(rest)?)),
        "later" => {
            let now = lent.now.saturating_add(number(rest)?);
            Some(go_to(transport, lent, now))
        }
        _ => Some(hear(transport, lent, &what_of(alloc, words)?)),
    }
}

/// Tells one thing, and says what that answers by itself.
fn tell(
    alloc: Global,
    transport: &mut Transport,
    lent: &mut Lent,
    words: &str,
    said: &mut String,
) -> Option<()> {
    let (word, rest) = first_word(words);
    match word {
        "result" => say_result(lent, number(rest)?, said),
        "due" => match lent.timers.next_due() {
            Some((due, _)) => say_value(said, &due),
            None => say(said, "none"),
        },
        "octets" => say_written(lent, said),
        _ if transport.tell_own(alloc, lent, words, said)? => Some(()),
        _ => say_outcome(said, told(alloc, transport, lent, words)?),
    }
}

fn tell_all(
    alloc: Global,
    transport: &mut Transport,
    lent: &mut Lent,
    all: &str,
    said: &mut String,
) -> Option<()> {
    for words in all.split(',') {
        tell(alloc, transport, lent, words.trim(), said)?;
    }
    Some(())
}

/// Tells what stands between two bars, and says what comes of it.
fn show_part(
    alloc: Global,
    transport: &mut Transport,
    lent: &mut Lent,
    all: &str,
    said: &mut String,
) -> Option<()> {
    let length = said.len();
    tell_all(alloc, transport, lent, all, said)?;
    say_outs(lent, said)?;
    say_replies(lent, said)?;
    lent.forget(alloc);
    if lent.says_ids && said.len() == length {
        said.push_str("-").ok()?;
    }
    Some(())
}

/// Tells what stands before a colon and behind it, and says what comes of it.
pub fn show_told(
    alloc: Global,
    transport: &mut Transport,
    lent: &mut Lent,
    all: &str,
    said: &mut String,
) -> Option<()> {
    let (before, behind) = all.split_once(':').unwrap_or(("", all));
    if !before.is_empty() {
        tell_all(alloc, transport, lent, before, said)?;
        lent.forget(alloc);
        if lent.says_ids && !said.is_empty() {
            said.push_str(": ").ok()?;
        }
    }
    let mut is_behind = false;
    for part in behind.split('|') {
        if is_behind {
            said.push_str(" | ").ok()?;
        }
        show_part(alloc, transport, lent, part, said)?;
        is_behind = true;
    }
    Some(())
}

/// Says what a transport does, by the word that leads the line.
pub fn show(alloc: Global, word: &str, line: &str, said: &mut String) -> Option<()> {
    let (begun, rest) = line.split_once(';')?;
    let (words, all) = rest.split_once(';')?;
    let mut transport = made(alloc, word, begun)?;
    let mut lent = Lent::new(alloc, word_list(alloc, words)?, 0);
    show_told(alloc, &mut transport, &mut lent, all, said)
}
