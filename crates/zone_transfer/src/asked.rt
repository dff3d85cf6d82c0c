//! A transfer that was asked for, and the turns until its end.

ghost use Rattle.std.specs.Prelude.{◌≡◌, true, false, Some, Ok, IfOk, IfErr, OnOk};
ghost use Rattle.stream_turns.specs.Turns.{client_with, with_board};
ghost use Rattle.zone_transfer.specs.Fetching.{EndsFrom, IsCutFrom, IsUnasked, TakesParts};
ghost use Rattle.zone_transfer.specs.Reading.{TakesPart};
ghost use Rattle.zone_transfer.specs.Turning.{Asks, between};

use crate::fault::{FetchFault, fault_of};
use crate::opening::{PLACE, open};
use crate::progress::Progress;
use crate::reading::Reading;
use client_core::{Clock, Edge};
use client_request::{Part, Poll, RequestMessageMulti, Words};
use client_stream::RequestMulti;
use std::alloc::Global;
use stream_turns::{Transfer, act_all, turn};

/// How many turns a transfer is given, those of the opening among them.
pub const MOST_TURNS: u64 = 1_000_000;

/// A transfer that was asked for, and how many turns are left.
#[derive(Drop)]
pub(crate) struct Asked {
    pub(crate) alloc: Global,
    pub(crate) transfer: Transfer,
    pub(crate) response: RequestMulti,
    pub(crate) left: u64,
}

/// What a result of the stream does: whether it is the end.
fn take_part(alloc: Global, reading: &mut Reading, part: Part) -> Result<bool, FetchFault>
    ensures taken { TakesPart reading.old.most reading.old.state part result reading.new.state }
    ensures most { OnOk result (reading.new.most ≡ reading.old.most) }
{
    match part {
        Ok(None) => Ok(true),
        Ok(Some(message)) => {
            reading.take(alloc, &message)?;
            Ok(false)
        }
        Err(error) => Err(fault_of(error)),
    }
}

impl Asked {
    /// Opens the place and asks there for a transfer.
    pub(crate) fn begin<E: Edge, C: Clock, W: Words>(
        alloc: Global,
        edge: &mut E,
        clock: &mut C,
        words: &mut W,
        request: RequestMessageMulti,
    ) -> Result<Asked, FetchFault>
        ensures asked { IfOk result (λ a. between E.deeds E.polls C.given (edge.old, clock.old) (edge.new, clock.new) (Asks request (W.stream words.old) (client_with (W.stream words.new) a.transfer) a.left)) }
        ensures lasts { IfOk result (λ a. a.transfer.failed ≡ false) }
        ensures ticket { IfOk result (λ a. a.response.ticket ≡ 0) }
        ensures open { IfOk result (λ a. a.response.ended ≡ false) }
        ensures cause { IfErr result (λ fault. between E.deeds E.polls C.given (edge.old, clock.old) (edge.new, clock.new) (λ old new. IsUnasked request (W.stream words.old) old new fault)) }
    {
        let (opened, left) = open(edge, clock, MOST_TURNS)?;
        let mut transfer = Transfer::new(alloc, PLACE, opened)?;
        match transfer.begin(words, request) {
            Ok((response, outs)) => {
                act_all(edge, outs.as_slice())?;
                Ok(Asked {
                    alloc,
                    transfer,
                    response,
                    left,
                })
            }
            Err(error) => Err(fault_of(error)),
        }
    }

    /// Takes the results that stand: whether the transfer has ended.
    fn take_parts(&mut self, reading: &mut Reading) -> Result<bool, FetchFault>
        requires ticket { self.old.response.ticket ≡ 0 }
        requires open { self.old.response.ended ≡ false }
        ensures parts { TakesParts reading.old.most reading.old.state self.old.transfer.layer.board result self.new.transfer.layer.board reading.new.state }
        ensures most { OnOk result (reading.new.most ≡ reading.old.most) }
        ensures rest { self.new.transfer ≡ with_board self.new.transfer.layer.board self.old.transfer }
        ensures left { self.new.left ≡ self.old.left }
        ensures ticket { self.new.response.ticket ≡ 0 }
        ensures open { result ≡ Ok false → self.new.response.ended ≡ false }
    {
        while let Poll::Ready(part) = self.transfer.next_part(&mut self.response) {
            if take_part(self.alloc, reading, part)? {
                return Ok(true);
            }
        }
        Ok(false)
    }

    /// Turns until the transfer has ended, as often as turns are left at most, and tells after each how far it is.
    pub(crate) fn read_all<E: Edge, C: Clock, W: Words, P: Progress>(
        &mut self,
        reading: &mut Reading,
        edge: &mut E,
        clock: &mut C,
        words: &mut W,
        progress: &mut P,
    ) -> Result<(), FetchFault>
        requires ticket { self.old.response.ticket ≡ 0 }
        requires open { self.old.response.ended ≡ false }
        requires lasts { self.old.transfer.failed ≡ false }
        ensures ended { OnOk result (between E.deeds E.polls C.given (edge.old, clock.old) (edge.new, clock.new) (EndsFrom reading.old.state (W.stream words.old) self.old reading.new.state)) }
        ensures most { OnOk result (reading.new.most ≡ reading.old.most) }
        ensures cause { IfErr result (λ fault. between E.deeds E.polls C.given (edge.old, clock.old) (edge.new, clock.new) (IsCutFrom reading.old (W.stream words.old) self.old fault)) }
    {
        'turns: loop {
            match self.take_parts(reading) {
                Ok(ended) => {
                    if ended {
                        return Ok(());
                    }
                }
                Err(fault) => return Err(fault),
            }
            if self.left == 0 {
                return Err(FetchFault::NoReply);
            }
            self.left -= 1;
            match turn(&mut self.transfer, edge, clock, words) {
                Ok(row) => progress.tell(row.event.moment, reading.updates(), reading.size()),
                Err(error) => return Err(fault_of(error)),
            }
        }
    }
}
