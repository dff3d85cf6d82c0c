//! A network in memory.

ghost use Rattle.std.specs.Prelude.{◌≡◌, [], Some, IfOk, OnOk};
ghost use Rattle.socket_places.specs.Told.{fault_of, found_at};

use crate::list_socket::ListSocket;
use crate::network::{Asked, Network, Opening};
use client_request::{Fault, Via};
use dns_values::{NoMemory, Seq, SocketAddr};
use std::alloc::Global;
use std::collections::VecDeque;
use std::marker::Model;

/// A network that opens the sockets of one list, or fails, and finds in its waits what another says, call by call, and that keeps
/// what was asked of it.
///
/// Past their ends it opens nothing, with the fault `Other`, and finds nothing. It doesn't wait.
pub struct ListNetwork {
    alloc: Global,
    sockets: VecDeque<Result<ListSocket, Fault>>,
    rounds: VecDeque<Seq<bool>>,
    openings: Seq<Opening>,
    asks: Seq<Seq<Asked>>,
    found: Seq<bool>,
}

impl Drop for ListNetwork {
    fn drop(self) {
        let ListNetwork {
            alloc: _,
            sockets: _,
            rounds: _,
            openings: _,
            asks: _,
            found: _,
        } = self;
    }
}

impl Model for ListNetwork {
    ghost use Rattle.socket_places.specs.Lists.{NetworkInMemory};

    ghost Value = { NetworkInMemory };

    ghost view = { λ n. record { openings = n.openings; asks = n.asks; found = n.found } };
}

/// Why a socket was not opened.
fn fault_of(opened: &Result<ListSocket, Fault>) -> Option<Fault>
    ensures { result ≡ fault_of opened.now }
{
    match opened {
        Ok(_) => None,
        Err(fault) => Some(*fault),
    }
}

impl ListNetwork {
    /// A network that opens these sockets, and at whose waits something is found at the positions at which these say so.
    pub fn new(
        alloc: Global,
        sockets: Vec<Result<ListSocket, Fault>>,
        rounds: Vec<Seq<bool>>,
    ) -> ListNetwork
        ensures { result ≡ record { openings = []; asks = []; found = [] } }
    {
        ListNetwork {
            alloc,
            sockets: VecDeque::from(sockets),
            rounds: VecDeque::from(rounds),
            openings: Seq::new(alloc),
            asks: Seq::new(alloc),
            found: Seq::new(alloc),
        }
    }

    /// The sockets that were to be opened, in order.
    pub fn openings(&self) -> &[Opening]
        ensures { result.now ≡ self.now.openings }
    {
        self.openings.as_slice()
    }

    /// What its waits looked for, in order.
    pub fn asks(&self) -> &[Seq<Asked>]
        ensures { result.now ≡ self.now.asks }
    {
        self.asks.as_slice()
    }
}

impl Network for ListNetwork {
    type Socket = ListSocket;

    ghost openings = { λ n. Some n.openings };

    ghost asks = { λ n. Some n.asks };

    ghost found = { λ n. n.found };

    fn open(&mut self, via: Via, addr: SocketAddr) -> Result<Result<ListSocket, Fault>, NoMemory> {
        let opened = match self.sockets.pop_front() {
            Some(Ok(socket)) => Ok(socket.fresh()),
            Some(Err(fault)) => Err(fault),
            None => Err(Fault::Other),
        };
        self.openings.push(Opening {
            addr,
            via,
            fault: fault_of(&opened),
        })?;
        Ok(opened)
    }

    fn ready(&mut self, asked: &[Asked], _most: u128) -> Result<(), NoMemory> {
        let asked = Seq::from_vec(Vec::from_slice(self.alloc, asked)?);
        self.asks.push(asked)?;
        self.found = match self.rounds.pop_front() {
            Some(found) => found,
            None => Seq::new(self.alloc),
        };
        Ok(())
    }

    fn is_found(&self, at: usize) -> bool {
        self.found.as_slice().get(at).copied().unwrap_or(false)
    }
}
