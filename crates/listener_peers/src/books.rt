//! The books of a server's listeners.

ghost use Rattle.std.specs.Prelude.{◌≡◌, ◌++◌, [], ◌∷◌, IfOk, IfSome, OnOk, option_map, slice_get};
ghost use Rattle.listener_peers.specs.Books.{AcceptsAt, AsksDoor, AsksListener, Answers, AnswersDatagram, AnswersStream, Looks, LooksAt, LooksAtPeer, LooksFirst, ReceivesAt, TellsAccepted, TellsDatagram, again, but_open, is_idle, once_more};
ghost use Rattle.client_request.specs.Peers.{first_stream};
ghost use Rattle.listener_peers.specs.Doors.{IfDone, SendsAt, without_value};
ghost use Rattle.socket_places.specs.Told.{IsFresh};
ghost use Rattle.listener_peers.specs.Waits.{asked_of_books, found_among, found_one, spots_of_books};

use crate::doors::{DgramDoor, StreamDoor, ask_dgrams, ask_streams};
use crate::heard::{Heard, Spot};
use crate::listener::{DgramListener, Letter, Listener};
use crate::peers::Peers;
use crate::senders::{Sender, Senders};
use client_request::FIRST_STREAM;
use dns_values::{NoMemory, Octets, SocketAddr};
use socket_places::{Answer, Asked, Books, Network, Socket};
use std::alloc::Global;
use std::collections::VecDeque;
use std::marker::Model;

/// The most octets of a datagram.
const DATAGRAM: usize = 65_535;

/// The most octets that one call takes from a stream.
const PIECE: usize = 4_096;

/// The listeners of a server, and its peers.
///
/// Each datagram is that of a peer of its own, whose sender is kept until it is answered, or until 20,000 have come since. Each stream
/// that is accepted is that of a peer, until it is closed or told to be no more. Octets for a peer that its stream does not take wait;
/// meanwhile nothing is read of it, and where more than 1,048,576 octets wait it is no more. After want of memory what was done last
/// may be lost: the books are not to be used again.
pub struct PeerBooks<D: DgramListener + Drop, L: Listener + Drop> {
    alloc: Global,
    dgrams: Vec<DgramDoor<D>>,
    doors: Vec<StreamDoor<L>>,
    senders: Senders,
    peers: Peers<L::Stream>,
    found: VecDeque<Spot>,
    /// Where sockets put what they give.
    datagram: Vec<u8>,
    piece: Vec<u8>,
}

impl<D: DgramListener + Drop, L: Listener + Drop> Drop for PeerBooks<D, L> {
    fn drop(self) {
        let PeerBooks {
            alloc: _,
            dgrams: _,
            doors: _,
            senders: _,
            peers: _,
            found: _,
            datagram: _,
            piece: _,
        } = self;
    }
}

impl<D: DgramListener + Drop, L: Listener + Drop> Model for PeerBooks<D, L> {
    ghost use Rattle.listener_peers.specs.Books.{Books};

    ghost Value = { Books };

    ghost view = { λ b. record { dgrams = b.dgrams.items; doors = b.doors.items; senders = b.senders; peers = b.peers; found = b.found.items } };
}

/// The same place to look at once more, where something more may be there.
fn once_more(spot: Spot) -> Option<Spot>
    ensures { result ≡ once_more spot }
{
    match spot {
        Spot::Dgrams { at, left } if left > 0 => Some(Spot::Dgrams { at, left: left - 1 }),
        Spot::Streams { at, left } if left > 0 => Some(Spot::Streams { at, left: left - 1 }),
        _ => None,
    }
}

/// Keeps a place, if something was found there.
fn keep_if(is_found: bool, spot: Spot, found: &mut VecDeque<Spot>) -> Result<(), NoMemory>
    ensures { OnOk result (found.new.items ≡ found.old.items ++ found_one is_found spot) }
{
    if is_found {
        found.push_back(spot)?;
    }
    Ok(())
}

/// Keeps those at whose positions a wait found something, the first of which has the position 0.
fn keep_found<N: Network + Drop>(
    places: &Books<N>,
    spots: &[Spot],
    found: &mut VecDeque<Spot>,
) -> Result<(), NoMemory>
    ensures { OnOk result (found.new.items ≡ found.old.items ++ found_among places.now.finds 0 spots.now) }
{
    let mut at = 0usize;
    for spot in spots {
        keep_if(places.has_found(at), *spot, found)?;
        at = at.saturating_add(1);
    }
    Ok(())
}

/// Hands a datagram to the listener at a position, if there is one.
fn send<D: DgramListener + Drop>(
    dgrams: &mut Vec<DgramDoor<D>>,
    at: usize,
    to: SocketAddr,
    octets: &Octets,
) -> Result<(), NoMemory>
    ensures { OnOk result (SendsAt (slice_get dgrams.old.items at) at to octets.now dgrams.old.items dgrams.new.items) }
{
    if let Some(door) = dgrams.get_mut(at) {
        door.send(to, octets)?;
    }
    Ok(())
}

/// Asks the listener at a position for a datagram, if there is one.
fn ask_door<D: DgramListener + Drop>(
    dgrams: &mut Vec<DgramDoor<D>>,
    at: usize,
    alloc: Global,
    buf: &mut [u8],
) -> Result<Option<Answer<Letter>>, NoMemory>
    ensures { IfOk result (λ got. AsksDoor (slice_get dgrams.old.items at) at got dgrams.old.items dgrams.new.items) }
{
    let Some(door) = dgrams.get_mut(at) else {
        return Ok(None);
    };
    let answer = door.receive(alloc, buf)?;
    Ok(Some(answer))
}

/// Keeps the sender of a datagram that was asked for: what is told of it.
fn tell_datagram(
    senders: &mut Senders,
    door: usize,
    answer: Answer<Letter>,
) -> Result<Option<Heard>, NoMemory>
    ensures { IfOk result (TellsDatagram door answer senders.old senders.new) }
{
    match answer {
        Answer::Done(Letter { from, octets }) => {
            let peer = senders.keep(Sender { door, from })?;
            Ok(Some(Heard::Datagram { peer, octets }))
        }
        Answer::Failed(_) | Answer::Later => Ok(None),
    }
}

/// Asks the listener at a position for a stream, if there is one.
fn ask_listener<L: Listener + Drop>(
    doors: &mut Vec<StreamDoor<L>>,
    at: usize,
) -> Result<Option<Answer<L::Stream>>, NoMemory>
    ensures asks { IfOk result (λ got. AsksListener (slice_get doors.old.items at) at (option_map (λ answer. without_value answer) got) doors.old.items doors.new.items) }
    ensures fresh { IfOk result (λ got. IfSome got (IfDone (λ stream. IsFresh (L.Stream.deals stream)))) }
{
    let Some(door) = doors.get_mut(at) else {
        return Ok(None);
    };
    let answer = door.accept()?;
    Ok(Some(answer))
}

/// Takes the peer of a stream in that was asked for: what is told of it.
fn tell_accepted<K: Socket + Drop>(
    peers: &mut Peers<K>,
    alloc: Global,
    answer: Answer<K>,
) -> Result<Option<Heard>, NoMemory>
    requires { IfDone (λ stream. IsFresh (K.deals stream)) answer }
    ensures { IfOk result (TellsAccepted (without_value answer) peers.old peers.new) }
{
    match answer {
        Answer::Done(stream) => {
            let peer = peers.take_in(alloc, stream)?;
            Ok(Some(Heard::Accepted { peer }))
        }
        Answer::Failed(_) | Answer::Later => Ok(None),
    }
}

impl<D: DgramListener + Drop, L: Listener + Drop> PeerBooks<D, L> {
    /// Books without listeners and peers.
    pub fn new(alloc: Global) -> PeerBooks<D, L>
        ensures { result ≡ record { dgrams = []; doors = []; senders = record { next = 0; kept = [] }; peers = record { next = first_stream; open_ones = [] }; found = [] } }
    {
        PeerBooks {
            alloc,
            dgrams: Vec::new(alloc),
            doors: Vec::new(alloc),
            senders: Senders::new(alloc, 0),
            peers: Peers::new(alloc, FIRST_STREAM),
            found: VecDeque::new(alloc),
            datagram: Vec::new(alloc),
            piece: Vec::new(alloc),
        }
    }

    /// One listener more for datagrams.
    pub fn listen_dgrams(&mut self, door: DgramDoor<D>) -> Result<(), NoMemory>
        ensures { OnOk result (self.new ≡ record self.old { dgrams = self.old.dgrams ++ door ∷ [] }) }
    {
        self.datagram.resize(DATAGRAM, 0)?;
        self.dgrams.push(door)?;
        Ok(())
    }

    /// One listener more for streams.
    pub fn listen_streams(&mut self, door: StreamDoor<L>) -> Result<(), NoMemory>
        ensures { OnOk result (self.new ≡ record self.old { doors = self.old.doors ++ door ∷ [] }) }
    {
        self.piece.resize(PIECE, 0)?;
        self.doors.push(door)?;
        Ok(())
    }

    /// Sends octets to a peer: as a datagram, which is its only one, or behind what went by its stream. A peer that is not there gets
    /// none.
    pub fn answer(&mut self, number: u64, octets: &Octets) -> Result<(), NoMemory>
        ensures { OnOk result (Answers number octets.now self.old self.new) }
    {
        if number < FIRST_STREAM {
            self.answer_datagram(number, octets)
        } else {
            self.answer_stream(number, octets)
        }
    }

    /// Closes the stream of a peer.
    pub fn close(&mut self, number: u64)
        ensures { self.new ≡ but_open number self.old }
    {
        self.peers.close(number);
    }

    /// Whether nothing is known of which nobody was told.
    pub fn is_idle(&self) -> bool
        ensures { result ≡ is_idle self.now }
    {
        self.found.is_empty()
    }

    /// What is at the first place at which something was found that was not looked at. A listener that gave something is looked at
    /// again behind all others, so that none waits for another that always has something.
    pub fn look(&mut self) -> Result<Option<Heard>, NoMemory>
        ensures { IfOk result (Looks self.old.found self.old self.new) }
    {
        match self.found.pop_front() {
            Some(first) => self.look_first(first),
            None => Ok(None),
        }
    }

    /// What a wait is to look for, behind what stands there, and where it finds something.
    pub fn ask(&self, asked: &mut Vec<Asked>, spots: &mut Vec<Spot>) -> Result<(), NoMemory>
        ensures asked { OnOk result (asked.new.items ≡ asked.old.items ++ asked_of_books self.now) }
        ensures spots { OnOk result (spots.new.items ≡ spots.old.items ++ spots_of_books self.now) }
    {
        ask_dgrams(&self.dgrams, asked, spots)?;
        ask_streams(&self.doors, asked, spots)?;
        self.peers.ask(asked, spots)
    }

    /// Keeps where a wait of the books of places found something, of what these books asked for before all others.
    pub fn find<N: Network + Drop>(
        &mut self,
        places: &Books<N>,
        spots: &[Spot],
    ) -> Result<(), NoMemory>
        ensures { OnOk result (self.new ≡ record self.old { found = self.old.found ++ found_among places.now.finds 0 spots.now }) }
    {
        keep_found(places, spots, &mut self.found)
    }

    /// What is at the place that was found first.
    fn look_first(&mut self, first: Spot) -> Result<Option<Heard>, NoMemory>
        ensures { IfOk result (LooksFirst first self.old.found self.old self.new) }
    {
        let heard = self.look_at(first)?;
        self.look_again(first, &heard)?;
        Ok(heard)
    }

    /// Lets a place be looked at again, where it gave something and may give more.
    fn look_again(&mut self, spot: Spot, heard: &Option<Heard>) -> Result<(), NoMemory>
        ensures { OnOk result (self.new ≡ record self.old { found = self.old.found ++ again spot heard.now }) }
    {
        if heard.is_none() {
            return Ok(());
        }
        if let Some(spot) = once_more(spot) {
            self.found.push_back(spot)?;
        }
        Ok(())
    }

    /// What is at a place.
    fn look_at(&mut self, spot: Spot) -> Result<Option<Heard>, NoMemory>
        ensures { IfOk result (LooksAt spot self.old self.new) }
    {
        match spot {
            Spot::Dgrams { at, .. } => self.receive(at),
            Spot::Streams { at, .. } => self.accept(at),
            Spot::Stream { number } => self.look_at_peer(number),
        }
    }

    /// What is at the stream of a peer.
    fn look_at_peer(&mut self, number: u64) -> Result<Option<Heard>, NoMemory>
        ensures { IfOk result (LooksAtPeer number self.old self.new) }
    {
        self.peers.look(number, self.alloc, &mut self.piece)
    }

    /// The next datagram at a listener, if there is one.
    fn receive(&mut self, at: usize) -> Result<Option<Heard>, NoMemory>
        ensures { IfOk result (ReceivesAt at self.old self.new) }
    {
        match ask_door(&mut self.dgrams, at, self.alloc, &mut self.datagram)? {
            Some(answer) => tell_datagram(&mut self.senders, at, answer),
            None => Ok(None),
        }
    }

    /// The next stream at a listener, if there is one.
    fn accept(&mut self, at: usize) -> Result<Option<Heard>, NoMemory>
        ensures { IfOk result (AcceptsAt at self.old self.new) }
    {
        match ask_listener(&mut self.doors, at)? {
            Some(answer) => {
                let heard = tell_accepted(&mut self.peers, self.alloc, answer)?;
                Ok(heard)
            }
            None => Ok(None),
        }
    }

    /// Sends octets to the sender of a datagram.
    fn answer_datagram(&mut self, number: u64, octets: &Octets) -> Result<(), NoMemory>
        ensures { OnOk result (AnswersDatagram number octets.now self.old self.new) }
    {
        match self.senders.take(number) {
            Some(sender) => send(&mut self.dgrams, sender.door, sender.from, octets),
            None => Ok(()),
        }
    }

    /// Puts octets at the stream of a peer.
    fn answer_stream(&mut self, number: u64, octets: &Octets) -> Result<(), NoMemory>
        ensures { OnOk result (AnswersStream number octets.now self.old self.new) }
    {
        if self.peers.put(number, octets)? {
            self.found.push_back(Spot::Stream { number })?;
        }
        Ok(())
    }
}
