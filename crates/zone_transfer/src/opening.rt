//! The opening of the stream.

ghost use Rattle.std.specs.Prelude.{◌≡◌, ◌+◌, ℕ, List, length, Option, Ok, Err, IfOk, IfErr};
ghost use Rattle.client_request.specs.Words.{IsGivenOn};
ghost use Rattle.client_request.specs.declared.event.What.{What};
ghost use Rattle.zone_transfer.specs.Turning as plain;
ghost use Rattle.zone_transfer.specs.Turning.{between};

use crate::fault::FetchFault;
use client_core::{Clock, Edge};
use client_request::{Fault, Moment, Out, What};

/// The one place of a transfer.
pub(crate) const PLACE: u64 = 0;

/// The longest time that the edge is told to wait for the opening, in microseconds. The system ends an opening by itself.
const LONGEST: u128 = 1_000_000;

/// How the opening ends by what the edge gave, if it does.
fn opening_of(polled: Option<What>) -> Option<Result<(), Fault>>
    ensures { result ≡ plain.opening_of polled }
{
    match polled {
        Some(What::Opened { place }) => { if place == PLACE { Some(Ok(())) } else { None } }
        Some(What::OpenFailed { place, fault }) => {
            if place == PLACE {
                Some(Err(fault))
            } else {
                None
            }
        }
        _ => None,
    }
}

/// Opens the place as a stream to server 0, in as many turns as are left at most: the moment, and how many turns are left.
pub(crate) fn open<E: Edge, C: Clock>(
    edge: &mut E,
    clock: &mut C,
    most: u64,
) -> Result<(Moment, u64), FetchFault>
    ensures opened { IfOk result (λ x. between E.deeds E.polls C.given (edge.old, clock.old) (edge.new, clock.new) (plain.IsOpened most x.0.0 x.1)) }
    ensures cause { IfErr result (λ fault. between E.deeds E.polls C.given (edge.old, clock.old) (edge.new, clock.new) (plain.IsClosed most fault)) }
{
    edge.act(&Out::OpenStream {
        place: PLACE,
        server: 0,
    })?;
    let mut left = most;
    while left > 0 {
        edge.wait(LONGEST);
        let polled = edge.poll()?;
        left -= 1;
        match opening_of(polled) {
            Some(Ok(())) => return Ok((clock.now(), left)),
            Some(Err(fault)) => return Err(FetchFault::Connect(fault)),
            None => {}
        }
    }
    Err(FetchFault::NoReply)
}
