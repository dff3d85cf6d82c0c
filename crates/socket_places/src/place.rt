//! A place: a socket, and what it has not taken yet.

ghost use Rattle.std.specs.Prelude.{◌≡◌, ℕ, ◌<◌, [], length, List, Option, IfOk, IfSome, IsSome, IsTrue, ◌↔◌, true, Some, slice_get};
ghost use Rattle.socket_places.specs.Places.{HandsFirst, IsLook, IsPut, Opens, Reads, after_reading, reads, still_waiting, told_of};
ghost use Rattle.socket_places.specs.Table.{asked_of};
ghost use Rattle.socket_places.specs.declared.socket.Deal.{Deal};
ghost use Rattle.socket_places.specs.declared.socket.Stage.{Stage};

use crate::network::Asked;
use crate::socket::{Answer, Socket, Stage};
use client_request::What;
use dns_values::{NoMemory, Octets};
use std::alloc::Global;
use std::collections::VecDeque;
use std::marker::Model;

/// A socket at a place.
pub struct Place<K: Socket + Drop> {
    socket: K,
    descriptor: i32,
    stage: Stage,
    /// What the socket did not take, in order.
    waiting: VecDeque<Octets>,
}

impl<K: Socket + Drop> Drop for Place<K> {
    fn drop(self) {
        let Place {
            socket: _,
            descriptor: _,
            stage: _,
            waiting: _,
        } = self;
    }
}

impl<K: Socket + Drop> Model for Place<K> {
    ghost use Rattle.socket_places.specs.Places.{Place};

    ghost Value = { Place };

    ghost view = { λ p. record { stage = p.stage; descriptor = p.descriptor; waiting = p.waiting.items; deals = K.deals p.socket } };
}

/// What is told of octets that a socket was handed.
fn told_of_put(stage: Stage, number: u64, octets: &[u8], answer: &Answer<usize>) -> Option<What>
    ensures { result ≡ told_of number stage (Deal.Put octets.now answer.now) }
{
    match (stage, answer) {
        (_, Answer::Later) => None,
        (Stage::Dgram, Answer::Done(count)) if *count < octets.len() => {
            Some(What::ShortSend { place: number })
        }
        (Stage::Dgram, Answer::Done(_)) => None,
        (Stage::Dgram, Answer::Failed(fault)) => Some(What::SendFailed {
            place: number,
            fault: *fault,
        }),
        (_, Answer::Done(count)) => Some(What::Wrote {
            place: number,
            count: *count as u64,
        }),
        (_, Answer::Failed(fault)) => Some(What::WriteFailed {
            place: number,
            fault: *fault,
        }),
    }
}

impl<K: Socket + Drop> Place<K> {
    /// A place whose socket is as far as that.
    pub fn new(alloc: Global, socket: K, stage: Stage) -> Place<K>
        ensures stage { result.stage ≡ stage }
        ensures descriptor { IfSome (K.number socket) (λ n. result.descriptor ≡ n) }
        ensures waiting { result.waiting ≡ [] }
        ensures deals { result.deals ≡ K.deals socket }
    {
        Place {
            descriptor: socket.descriptor(),
            socket,
            stage,
            waiting: VecDeque::new(alloc),
        }
    }

    /// What a wait is to look for here.
    pub fn asked(&self) -> Asked
        ensures { result ≡ asked_of self.now }
    {
        let waits = !self.waiting.is_empty();
        Asked {
            descriptor: self.descriptor,
            reads: matches!(self.stage, Stage::Dgram | Stage::Open),
            writes: waits || self.stage == Stage::Opening,
        }
    }

    /// Hands octets to the socket, or lets them wait behind those that do: what is told of it.
    pub fn put(&mut self, number: u64, octets: &Octets) -> Result<Option<What>, NoMemory>
        ensures { IfOk result (IsPut number octets.now self.old self.new) }
    {
        if !self.waiting.is_empty() {
            self.waiting.push_back(octets.try_clone()?)?;
            return Ok(None);
        }
        let answer = self.socket.put(octets.as_slice())?;
        if let Answer::Later = &answer {
            self.waiting.push_back(octets.try_clone()?)?;
        }
        Ok(told_of_put(self.stage, number, octets.as_slice(), &answer))
    }

    /// What happened here, if anything did.
    pub fn look(
        &mut self,
        number: u64,
        alloc: Global,
        buf: &mut [u8],
    ) -> Result<Option<What>, NoMemory>
        ensures { IfOk result (IsLook number self.old self.new) }
    {
        match self.stage {
            Stage::Opening => self.open(number),
            _ if !self.waiting.is_empty() => self.go_on(number),
            Stage::Ended => Ok(None),
            Stage::Dgram | Stage::Open => self.read(number, alloc, buf),
        }
    }

    /// Whether a stream is connected by now, or can't be.
    fn open(&mut self, number: u64) -> Result<Option<What>, NoMemory>
        requires { self.old.stage ≡ Stage.Opening }
        ensures { IfOk result (Opens number self.old self.new) }
    {
        match self.socket.opened()? {
            Answer::Done(()) => {
                self.stage = Stage::Open;
                Ok(Some(What::Opened { place: number }))
            }
            Answer::Failed(fault) => {
                self.stage = Stage::Ended;
                Ok(Some(What::OpenFailed {
                    place: number,
                    fault,
                }))
            }
            Answer::Later => Ok(None),
        }
    }

    /// Hands over what waits first.
    fn go_on(&mut self, number: u64) -> Result<Option<What>, NoMemory>
        requires { 0 < length self.old.waiting }
        ensures { IfOk result (HandsFirst number self.old self.new) }
    {
        let Some(octets) = first(&self.waiting) else {
            return Ok(None);
        };
        let answer = self.socket.put(octets)?;
        let told = told_of_put(self.stage, number, octets, &answer);
        settle(&mut self.waiting, &answer);
        Ok(told)
    }

    /// What came. After an end, a fault or want of memory, which leaves a gap, nothing more is read of a stream.
    fn read(&mut self, number: u64, alloc: Global, buf: &mut [u8]) -> Result<Option<What>, NoMemory>
        requires { reads self.old.stage ≡ true }
        ensures { IfOk result (Reads number self.old self.new) }
    {
        let stage = self.stage;
        if stage == Stage::Open {
            self.stage = Stage::Ended;
        }
        let answer = self.socket.take(alloc, buf)?;
        if stage == Stage::Open && goes_on(&answer) {
            self.stage = Stage::Open;
        }
        Ok(told_of_take(stage, number, answer))
    }
}

/// What waits first.
fn first(waiting: &VecDeque<Octets>) -> Option<&[u8]>
    ensures some { 0 < length waiting.now.items → IsSome result }
    ensures first { IfSome result (λ octets. slice_get waiting.now.items 0 ≡ Some octets.now) }
{
    let octets = waiting.front()?;
    Some(octets.as_slice())
}

/// What a socket took, or failed to take, waits no longer.
fn settle(waiting: &mut VecDeque<Octets>, answer: &Answer<usize>)
    ensures { waiting.new.items ≡ still_waiting answer.now waiting.old.items }
{
    match answer {
        Answer::Later => {}
        Answer::Done(_) | Answer::Failed(_) => drop(waiting.pop_front()),
    }
}

/// Whether a stream that was read is at no end.
fn goes_on(answer: &Answer<Octets>) -> bool
    ensures { IsTrue result ↔ (after_reading answer.now ≡ Stage.Open) }
{
    match answer {
        Answer::Done(octets) => !octets.as_slice().is_empty(),
        Answer::Failed(_) => false,
        Answer::Later => true,
    }
}

/// What is told of octets for which a socket was asked.
fn told_of_take(stage: Stage, place: u64, answer: Answer<Octets>) -> Option<What>
    ensures { result ≡ told_of place stage (Deal.Took answer) }
{
    match (stage, answer) {
        (_, Answer::Later) => None,
        (Stage::Dgram, Answer::Done(octets)) => Some(What::Datagram { place, octets }),
        (Stage::Dgram, Answer::Failed(fault)) => Some(What::RecvFailed { place, fault }),
        (_, Answer::Done(octets)) if octets.as_slice().is_empty() => Some(What::Ended { place }),
        (_, Answer::Done(octets)) => Some(What::Bytes { place, octets }),
        (_, Answer::Failed(fault)) => Some(What::ReadFailed { place, fault }),
    }
}
