//! A socket for datagrams that receives, and sends, many one behind another.

ghost use Rattle.std.specs.Prelude.{◌≡◌, [], None, false, length, IfOk, OnOk};
ghost use Rattle.socket_places.specs.Told.{IsWithin};
ghost use Rattle.listener_peers.specs.Batches.{Ends, Fills, GivesNext, PutsAnother, Receives, ReceivesOne, SendsAll, TakesIf, at_once, is_letter, taken};

use crate::listener::{DgramListener, Letter};
use client_request::Fault;
use dns_values::{NoMemory, Octets, SocketAddr};
use socket_places::Answer;
use std::alloc::Global;
use std::collections::VecDeque;
use std::marker::Model;

/// The most datagrams that are received, or sent, one behind another. Whoever asks a listener asks more often before a wait.
const AT_ONCE: usize = 32;

/// A datagram that is not sent yet.
#[derive(Debug, Drop)]
pub struct Outgoing {
    /// Where it goes.
    pub to: SocketAddr,
    /// What it holds.
    pub octets: Octets,
}

/// A socket for datagrams that receives up to 32 one behind another, and then gives them one by one. Until it has said that there are
/// no more for now, what it is handed stands here, up to 32 datagrams, to be sent one behind another too.
///
/// The system is called as often, but so much of one kind of work at a time takes less time. Nothing stands here once it has said that
/// there are no more, so whoever asks until then may sleep. What the socket refuses later is lost, as any datagram may be.
pub struct BatchDgrams<D: DgramListener + Drop> {
    socket: D,
    came: VecDeque<Letter>,
    fault: Option<Fault>,
    gives: bool,
    unsent: VecDeque<Outgoing>,
}

impl<D: DgramListener + Drop> Drop for BatchDgrams<D> {
    fn drop(self) {
        let BatchDgrams {
            socket: _,
            came: _,
            fault: _,
            gives: _,
            unsent: _,
        } = self;
    }
}

impl<D: DgramListener + Drop> Model for BatchDgrams<D> {
    ghost use Rattle.listener_peers.specs.Batches.{Batch};

    ghost Value = { Batch };

    ghost view = { λ b. record { posts = D.posts b.socket; came = b.came.items; fault = b.fault; gives = b.gives; unsent = b.unsent.items } };
}

/// Sends these, in order.
fn send_all<D: DgramListener>(
    socket: &mut D,
    unsent: &mut VecDeque<Outgoing>,
) -> Result<(), NoMemory>
    ensures sent { OnOk result (SendsAll unsent.old.items (D.posts socket.old) (D.posts socket.new)) }
    ensures none_left { OnOk result (unsent.new.items ≡ []) }
{
    while let Some(next) = unsent.pop_front() {
        socket.send(next.to, &next.octets)?;
    }
    Ok(())
}

impl<D: DgramListener + Drop> BatchDgrams<D> {
    /// Over a socket that does not wait.
    pub fn new(alloc: Global, socket: D) -> BatchDgrams<D>
        ensures { result ≡ record { posts = D.posts socket; came = []; fault = None; gives = false; unsent = [] } }
    {
        BatchDgrams {
            socket,
            came: VecDeque::new(alloc),
            fault: None,
            gives: false,
            unsent: VecDeque::new(alloc),
        }
    }

    /// The socket.
    pub fn get_ref(&self) -> &D
        ensures { D.posts result.now ≡ self.now.posts }
    {
        &self.socket
    }

    /// Keeps what the socket gave: whether that was a datagram.
    fn take_in(&mut self, answer: Answer<Letter>) -> Result<bool, NoMemory>
        ensures kept { OnOk result (self.new ≡ taken answer self.old) }
        ensures more { IfOk result (λ more. more ≡ is_letter answer) }
    {
        match answer {
            Answer::Done(letter) => {
                self.came.push_back(letter)?;
                Ok(true)
            }
            Answer::Failed(fault) => {
                self.fault = Some(fault);
                Ok(false)
            }
            Answer::Later => Ok(false),
        }
    }

    /// Receives a datagram: whether one came.
    fn receive_one(&mut self, alloc: Global, buf: &mut [u8]) -> Result<bool, NoMemory>
        ensures { IfOk result (ReceivesOne self.old self.new) }
    {
        let answer = self.socket.receive(alloc, buf)?;
        self.take_in(answer)
    }

    /// Receives what came, as much as is received one behind another.
    fn receive_all(&mut self, alloc: Global, buf: &mut [u8]) -> Result<(), NoMemory>
        ensures { OnOk result (Receives at_once self.old self.new) }
    {
        for _ in 0..AT_ONCE {
            if !self.receive_one(alloc, buf)? {
                return Ok(());
            }
        }
        Ok(())
    }

    /// Receives what came, where whoever asks was told that there are no more.
    fn fill(&mut self, alloc: Global, buf: &mut [u8]) -> Result<(), NoMemory>
        ensures { OnOk result (Fills self.old.gives self.old self.new) }
    {
        if self.gives {
            return Ok(());
        }
        self.gives = true;
        self.receive_all(alloc, buf)
    }

    /// There are no more for now: what stands here is sent.
    fn end(&mut self) -> Result<Answer<Letter>, NoMemory>
        ensures { IfOk result (Ends self.old self.new) }
    {
        send_all(&mut self.socket, &mut self.unsent)?;
        self.gives = false;
        match self.fault.take() {
            Some(fault) => Ok(Answer::Failed(fault)),
            None => Ok(Answer::Later),
        }
    }

    /// Puts a datagram behind those that are not sent yet, and sends all where they are many.
    fn put(&mut self, to: SocketAddr, octets: &Octets) -> Result<(), NoMemory>
        ensures { OnOk result (PutsAnother to octets.now self.old self.new) }
    {
        let octets = octets.try_clone()?;
        self.unsent.push_back(Outgoing { to, octets })?;
        if self.unsent.len() >= AT_ONCE {
            send_all(&mut self.socket, &mut self.unsent)?;
        }
        Ok(())
    }
}

impl<D: DgramListener + Drop> DgramListener for BatchDgrams<D> {
    ghost posts = { λ _. None };

    ghost number = { λ _. None };

    fn descriptor(&self) -> i32 {
        self.socket.descriptor()
    }

    fn receive(&mut self, alloc: Global, buf: &mut [u8]) -> Result<Answer<Letter>, NoMemory>
        ensures given { IfOk result (GivesNext self.old self.new) }
    {
        self.fill(alloc, buf)?;
        match self.came.pop_front() {
            Some(letter) => Ok(Answer::Done(letter)),
            None => self.end(),
        }
    }

    fn send(&mut self, to: SocketAddr, octets: &Octets) -> Result<Answer<usize>, NoMemory>
        ensures within { IfOk result (IsWithin (length octets.now)) }
        ensures taken { IfOk result (TakesIf self.old.gives to octets.now self.old self.new) }
    {
        if !self.gives {
            return self.socket.send(to, octets);
        }
        self.put(to, octets)?;
        Ok(Answer::Done(octets.as_slice().len()))
    }
}
