//! Results by ticket.

ghost use Rattle.std.specs.Prelude.{◌≡◌, ◌==◌, ◌<◌, [], length, position, OnOk, OnErr, IfSome};
ghost use Rattle.client_request.specs.Board.{part_of, without_part, posted, posted_stale, TakesFirst};

use crate::error::Error;
use dns_base::{Message, NoMemory};
use std::alloc::Global;
use std::collections::VecDeque;
use std::marker::Model;

/// What a request may get: a message, the end of a transfer (`None`), or an error.
pub type Part = Result<Option<Message>, Error>;

/// A part that stands for a ticket.
#[derive(Drop)]
pub struct Posted {
    /// The ticket of the response that it is for.
    pub ticket: u64,
    /// The result, or a part of it.
    pub part: Part,
    /// Whether it is an expired message, which stands in for an error (RFC 8767).
    pub is_stale: bool,
}

/// The parts that were put and not taken, in the order in which they were put.
pub struct Board {
    posted: VecDeque<Posted>,
}

impl Drop for Board {
    fn drop(self) {
        let Board { posted: _ } = self;
    }
}

impl Model for Board {
    ghost use Rattle.std.specs.Prelude.{List};
    ghost use Rattle.client_request.specs.declared.board.Posted.{Posted};

    ghost Value = { List Posted };

    ghost view = { λ b. b.posted.items };
}

fn place_of(posted: &VecDeque<Posted>, ticket: u64) -> Option<usize>
    ensures value { result ≡ position (λ p. p.ticket == ticket) posted.now.items }
    ensures within { IfSome result (λ i. i < length posted.now.items) }
{
    posted.iter().position(|p| p.ticket == ticket)
}

impl Board {
    /// A board on which no part stands. It takes no memory.
    pub fn new(alloc: Global) -> Board
        ensures { result ≡ [] }
    {
        Board {
            posted: VecDeque::new(alloc),
        }
    }

    /// Puts a part for a ticket behind all others. After want of memory nothing was put.
    pub fn put(&mut self, ticket: u64, part: Part) -> Result<(), NoMemory>
        ensures ok { OnOk result (self.new ≡ posted ticket part self.old) }
        ensures err { OnErr result (self.new ≡ self.old) }
    {
        self.posted.push_back(Posted {
            ticket,
            part,
            is_stale: false,
        })?;
        Ok(())
    }

    /// Puts an expired message for a ticket behind all parts: it stands in for an error. After want of memory nothing was
    /// put.
    pub fn put_stale(&mut self, ticket: u64, message: Message) -> Result<(), NoMemory>
        ensures ok { OnOk result (self.new ≡ posted_stale ticket message self.old) }
        ensures err { OnErr result (self.new ≡ self.old) }
    {
        self.posted.push_back(Posted {
            ticket,
            part: Ok(Some(message)),
            is_stale: true,
        })?;
        Ok(())
    }

    /// Lets go what stands, and keeps the memory for what is put next.
    pub fn clear(&mut self)
        ensures { self.new ≡ [] }
    {
        if !self.posted.is_empty() {
            self.posted.clear();
        }
    }

    /// Takes the part that was put first, of all that stand.
    pub fn take_first(&mut self) -> Option<Posted>
        ensures { TakesFirst result self.old self.new }
    {
        self.posted.pop_front()
    }

    /// Takes the oldest part of a ticket.
    pub fn take(&mut self, ticket: u64) -> Option<Part>
        ensures value { result ≡ part_of ticket self.old }
        ensures rest { self.new ≡ without_part ticket self.old }
    {
        let i = place_of(&self.posted, ticket)?;
        match self.posted.remove(i) {
            Some(posted) => {
                let Posted { part, .. } = posted;
                Some(part)
            }
            None => None,
        }
    }

    /// How many parts stand.
    pub fn len(&self) -> usize
        ensures { result ≡ length self.now }
    {
        self.posted.len()
    }
}
