//! A board of results: `board CALL, ..`.
//!
//! Calls are `put-end TICKET` and `put TICKET ERROR`, an error by the words of a trace, `clear`, `count`, `first`, which takes the part that
//! was put first and says its ticket, and `response` and `part`, which say what stands for the request with ticket 1 that has
//! one result, or several.

use crate::reading::{error_of, first_word, number};
use crate::saying::{say, say_name, say_value};
use client_request::{Board, Error, Part, Poll, take_part, take_response};
use dns_base::Message;
use std::alloc::Global;

fn say_response(said: &mut String, polled: &Poll<Result<Message, Error>>) -> Option<()> {
    match polled {
        Poll::Ready(Err(error)) => say_name(said, error),
        Poll::Ready(Ok(_)) => say(said, "message"),
        Poll::Pending => say(said, "pending"),
    }
}

fn say_part(said: &mut String, polled: &Poll<Part>) -> Option<()> {
    match polled {
        Poll::Ready(Err(error)) => say_name(said, error),
        Poll::Ready(Ok(Some(_))) => say(said, "message"),
        Poll::Ready(Ok(None)) => say(said, "end"),
        Poll::Pending => say(said, "pending"),
    }
}

fn tell_board(alloc: Global, board: &mut Board, words: &str, said: &mut String) -> Option<()> {
    let (word, rest) = first_word(words);
    match word {
        "put" => {
            let (ticket, error) = first_word(rest);
            let error = error_of(alloc, error)?;
            board.put(number(ticket)?, Err(error)).ok()
        }
        "put-end" => board.put(number(rest)?, Ok(None)).ok(),
        "clear" => Some(board.clear()),
        "count" => say_value(said, &board.len()),
        "first" => match board.take_first() {
            Some(posted) => say_value(said, &posted.ticket),
            None => say(said, "none"),
        },
        _ => None,
    }
}

pub fn show(alloc: Global, calls: &str, said: &mut String) -> Option<()> {
    let mut board = Board::new(alloc);
    let mut is_done = false;
    for words in calls.split(',') {
        match words.trim() {
            "response" => say_response(said, &take_response(&mut board, 1, &mut is_done))?,
            "part" => say_part(said, &take_part(&mut board, 1, &mut is_done))?,
            words => tell_board(alloc, &mut board, words, said)?,
        }
    }
    Some(())
}
