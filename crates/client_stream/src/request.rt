//! What a connection keeps of a request, and what stands for its result.

ghost use Rattle.std.specs.Prelude.{◌≡◌};
ghost use Rattle.client_stream.specs.Plain.{begun};

use client_request::{Board, GetResponseMulti, Part, Poll, take_part};
use client_transfer::XfrState;
use std::fmt;
use std::marker::Model;

/// A request that one message answers, or a transfer, which several messages may answer.
#[derive(Drop)]
pub enum AnyRequest<Req, ReqMulti> {
    Single(Req),
    Transfer(ReqMulti),
}

/// A request that was not written yet, with the number that outs for it name.
#[derive(Drop)]
pub struct QueuedRequest<Req, ReqMulti> {
    pub number: u64,
    pub request: AnyRequest<Req, ReqMulti>,
}

/// Who holds an id.
#[derive(Drop)]
pub enum Holder<Req, ReqMulti> {
    /// A request that was written and waits for its answer.
    Waits {
        ticket: u64,
        request: Req,
    },
    /// A transfer that was written and waits for its next message.
    Transfers {
        ticket: u64,
        request: ReqMulti,
        state: XfrState,
    },
    /// A request that was given up: its id stays held until a frame with it comes.
    GivenUp,
}

/// What stands for the results of a transfer by stream.
#[derive(Drop)]
pub struct RequestMulti {
    ticket: u64,
    ended: bool,
}

impl Model for RequestMulti {
    ghost use Rattle.client_stream.specs.Plain.{Begun};

    ghost Value = { Begun };

    ghost view = { λ r. record { ticket = r.ticket; ended = r.ended } };
}

impl RequestMulti {
    /// What stands for the results under a ticket, of which the end was not given yet.
    pub(crate) fn of(ticket: u64) -> RequestMulti
        ensures { result ≡ begun ticket }
    {
        RequestMulti {
            ticket,
            ended: false,
        }
    }
}

impl fmt::Debug for RequestMulti {
    fn fmt<W: fmt::Write>(&self, f: &mut fmt::Formatter<W>) -> fmt::Result {
        f.write_str("Request { fut: _ }")
    }
}

impl GetResponseMulti for RequestMulti {
    ghost use Rattle.client_request.specs.Response.{part_response_of, board_after, ended_after};

    ghost ticket_of = { λ r. r.ticket };

    ghost has_ended = { λ r. r.ended };

    fn get_response(&mut self, board: &mut Board) -> Poll<Part> {
        take_part(board, self.ticket, &mut self.ended)
    }

    fn ticket(&self) -> u64 {
        self.ticket
    }
}
