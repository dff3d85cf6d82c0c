//! The reply to a request.

ghost use Rattle.std.specs.Prelude.{◌≡◌};
ghost use Rattle.client_loop.specs.Replies.{reply_in, reply_of};

use client_request::{Error, Out, Row};
use dns_base::Message;
use std::collections::VecDeque;

/// The reply that an out is to the request of a number, if it is one.
fn reply_of(number: u64, out: Out) -> Option<Result<Message, Error>>
    ensures { result ≡ reply_of number out }
{
    match out {
        Out::Reply { request, result } => {
            if request == number {
                Some(result)
            } else {
                None
            }
        }
        _ => None,
    }
}

/// The first reply to the request of a number in a row.
pub(crate) fn reply_in(number: u64, row: Row) -> Option<Result<Message, Error>>
    ensures { result ≡ reply_in number row.outs }
{
    let Row { event: _, outs } = row;
    let mut left = VecDeque::from(outs.into_vec());
    while let Some(out) = left.pop_front() {
        if let Some(reply) = reply_of(number, out) {
            return Some(reply);
        }
    }
    None
}
