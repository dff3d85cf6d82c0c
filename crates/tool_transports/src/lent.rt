//! What is lent to a transport, and what stands there for its requests.

use client_request::{Board, Cx, Error, ListWords, Moment, Outs, Pending, Timers, WordList};
use client_stream::RequestMulti;
use std::alloc::Global;

/// What stands for the results of a request.
#[derive(Drop)]
pub enum Response {
    Single(Pending),
    Transfer(RequestMulti),
}

pub struct Lent {
    pub outs: Outs,
    pub board: Board,
    pub timers: Timers,
    pub words: ListWords,
    /// The time, in microseconds.
    pub now: u64,
    /// The next free ticket and place.
    pub ticket: u64,
    pub place: u64,
    /// Whether messages are said by their ids, as those that come by streams.
    pub says_ids: bool,
    /// The tickets of the requests that were asked, in order, and what stands for the results of those that may be given up.
    pub tickets: Vec<u64>,
    pub responses: Vec<Option<Response>>,
}

impl Drop for Lent {
    fn drop(self) {
        let Lent {
            outs: _,
            board: _,
            timers: _,
            words: _,
            now: _,
            ticket: _,
            place: _,
            says_ids: _,
            tickets: _,
            responses: _,
        } = self;
    }
}

impl Lent {
    /// What is lent to a transport whose next free place has a number. Behind the words come zeros.
    pub fn new(alloc: Global, words: WordList, place: u64) -> Lent {
        Lent {
            outs: Outs::new(alloc),
            board: Board::new(alloc),
            timers: Timers::new(alloc),
            words: ListWords::new(words),
            now: 0,
            ticket: 0,
            place,
            says_ids: false,
            tickets: Vec::new(alloc),
            responses: Vec::new(alloc),
        }
    }

    /// Forgets what was put out and given by now.
    pub fn forget(&mut self, alloc: Global) {
        self.outs = Outs::new(alloc);
        self.board = Board::new(alloc);
    }

    /// What a call is given. Its outs name a request by how many were asked before.
    pub fn cx(&mut self) -> Cx<'_, ListWords> {
        let (now, ticket, place) = (self.now, self.ticket, self.place);
        let request = self.tickets.len() as u64;
        Cx {
            now: Moment(now),
            words: &mut self.words,
            outs: &mut self.outs,
            board: &mut self.board,
            timers: &mut self.timers,
            ticket,
            place,
            request,
            more: false,
        }
    }

    /// Counts a request that was asked under a ticket, and keeps what stands for its result.
    pub fn keep(&mut self, ticket: u64, response: Option<Response>) -> Result<(), Error> {
        if self.tickets.push(ticket).is_err() || self.responses.push(response).is_err() {
            return Err(Error::NoMemory);
        }
        Ok(())
    }

    /// How many requests were asked before the one with a ticket, or how many in all where none has it.
    pub fn number_of(&self, ticket: u64) -> usize {
        match self.tickets.iter().position(|own| *own == ticket) {
            Some(number) => number,
            None => self.tickets.len(),
        }
    }
}
