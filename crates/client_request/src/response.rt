//! What stands for results to come.

ghost use Rattle.std.specs.Prelude.{◌≡◌, ℕ, Bool};
ghost use Rattle.client_request.specs.Response.{response_of, board_after, is_ready, part_response_of, is_end, ended_after};

use crate::board::{Board, Part};
use crate::error::Error;
use dns_base::Message;

/// Whether a result has come.
#[derive(Debug, Drop)]
pub enum Poll<T> {
    /// It has come: this is it.
    Ready(T),
    /// It has not come yet.
    Pending,
}

/// What stands for the result of one request.
pub trait GetResponse: Drop {
    ghost ticket_of: { Self → ℕ };

    ghost has_given: { Self → Bool };

    /// The result, where it stands on the board, which then has it no more. Once it was given the
    /// answer is `AlreadyDone`.
    fn get_response(&mut self, board: &mut Board) -> Poll<Result<Message, Error>>
        ensures value { result ≡ response_of (has_given self.old) (ticket_of self.old) board.old }
        ensures taken { board.new ≡ board_after (has_given self.old) (ticket_of self.old) board.old }
        ensures given { has_given self.new ≡ is_ready result }
        ensures ticket { ticket_of self.new ≡ ticket_of self.old };

    /// The number under which its result is put on the board.
    fn ticket(&self) -> u64
        ensures { result ≡ ticket_of self.now };
}

/// The result of the request with a ticket, of which `given` says whether it was given before.
pub fn take_response(
    board: &mut Board,
    ticket: u64,
    given: &mut bool,
) -> Poll<Result<Message, Error>>
    ensures value { result ≡ response_of given.old ticket board.old }
    ensures taken { board.new ≡ board_after given.old ticket board.old }
    ensures given { given.new ≡ is_ready result }
{
    if *given {
        return Poll::Ready(Err(Error::AlreadyDone));
    }
    match board.take(ticket) {
        None => Poll::Pending,
        Some(part) => {
            *given = true;
            match part {
                Ok(Some(message)) => Poll::Ready(Ok(message)),
                Ok(None) => Poll::Ready(Err(Error::ConnectionClosed)),
                Err(error) => Poll::Ready(Err(error)),
            }
        }
    }
}

/// What stands for the results of one request: messages one after another, and then an end. The end is
/// None, or any error but `WrongReplyForQuery`, after which more messages may come.
pub trait GetResponseMulti: Drop {
    /// The number under which its results are put on the board.
    ghost ticket_of: { Self → ℕ };

    /// Whether the end was given.
    ghost has_ended: { Self → Bool };

    /// The oldest result that stands for it on the board, which then has it no more. Once the end was given
    /// the answer is `ConnectionClosed`.
    fn get_response(&mut self, board: &mut Board) -> Poll<Part>
        ensures value { result ≡ part_response_of (has_ended self.old) (ticket_of self.old) board.old }
        ensures taken { board.new ≡ board_after (has_ended self.old) (ticket_of self.old) board.old }
        ensures ended { has_ended self.new ≡ ended_after (has_ended self.old) result }
        ensures ticket { ticket_of self.new ≡ ticket_of self.old };

    /// The number under which its results are put on the board.
    fn ticket(&self) -> u64
        ensures { result ≡ ticket_of self.now };
}

/// Whether nothing comes after a result.
fn is_end(part: &Part) -> bool
    ensures { result ≡ is_end part.now }
{
    match part {
        Ok(None) => true,
        Ok(Some(_)) => false,
        Err(Error::WrongReplyForQuery) => false,
        Err(_) => true,
    }
}

/// The next result of the request with a ticket, of which `ended` says whether the end was given before.
pub fn take_part(board: &mut Board, ticket: u64, ended: &mut bool) -> Poll<Part>
    ensures value { result ≡ part_response_of ended.old ticket board.old }
    ensures taken { board.new ≡ board_after ended.old ticket board.old }
    ensures ended { ended.new ≡ ended_after ended.old result }
{
    if *ended {
        return Poll::Ready(Err(Error::ConnectionClosed));
    }
    match board.take(ticket) {
        None => Poll::Pending,
        Some(part) => {
            *ended = is_end(&part);
            Poll::Ready(part)
        }
    }
}
