//! What stands for the result of a request of one message.

ghost use Rattle.std.specs.Prelude.{◌≡◌, false};

use crate::board::Board;
use crate::error::Error;
use crate::response::{GetResponse, Poll, take_response};
use dns_base::Message;
use std::fmt;
use std::marker::Model;

/// What stands for the result of a request: its ticket, and whether the result was given.
#[derive(Drop)]
pub struct Pending {
    ticket: u64,
    given: bool,
}

impl Model for Pending {
    ghost use Rattle.client_request.specs.Response.{Asked};

    ghost Value = { Asked };

    ghost view = { λ r. record { ticket = r.ticket; given = r.given } };
}

impl Pending {
    /// What stands for the result that will be put on the board under a ticket.
    pub fn new(ticket: u64) -> Pending
        ensures { result ≡ record { ticket = ticket; given = false } }
    {
        Pending {
            ticket,
            given: false,
        }
    }
}

impl fmt::Debug for Pending {
    fn fmt<W: fmt::Write>(&self, f: &mut fmt::Formatter<W>) -> fmt::Result {
        f.write_str("Request { fut: _ }")
    }
}

impl GetResponse for Pending {
    ghost ticket_of = { λ r. r.ticket };

    ghost has_given = { λ r. r.given };

    fn get_response(&mut self, board: &mut Board) -> Poll<Result<Message, Error>> {
        take_response(board, self.ticket, &mut self.given)
    }

    fn ticket(&self) -> u64 {
        self.ticket
    }
}
