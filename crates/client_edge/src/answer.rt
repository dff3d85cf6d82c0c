//! What the system gives, as an answer of a socket.

ghost use Rattle.std.specs.Prelude.{◌≡◌, ◌≤◌, length, IfOk};
ghost use Rattle.client_edge.specs.Answer.{IsAnswerOf, first_of};
ghost use Rattle.socket_places.specs.Told.{IsWithin};

use crate::fault::{fault_of, is_for_later};
use dns_base::{NoMemory, Octets};
use socket_places::Answer;
use std::alloc::Global;
use std::io;

/// The answer that a count of octets is, of which there were so many: a call that would have waited is for later.
pub fn count_of(most: usize, given: io::Result<usize>) -> Answer<usize>
    requires { IfOk given (λ count. count ≤ most) }
    ensures count { IsAnswerOf given result }
    ensures within { IsWithin most result }
{
    match given {
        Ok(count) => Answer::Done(count),
        Err(error) if is_for_later(error.kind()) => Answer::Later,
        Err(error) => Answer::Failed(fault_of(error.kind())),
    }
}

/// The octets with which a buffer was filled.
pub fn octets_of(
    alloc: Global,
    buf: &[u8],
    filled: Answer<usize>,
) -> Result<Answer<Octets>, NoMemory>
    requires { IsWithin (length buf.now) filled }
    ensures { IfOk result (λ octets. octets ≡ first_of buf.now filled) }
{
    match filled {
        Answer::Done(count) => Ok(Answer::Done(Octets::from_slice(alloc, &buf[..count])?)),
        Answer::Failed(fault) => Ok(Answer::Failed(fault)),
        Answer::Later => Ok(Answer::Later),
    }
}
