//! The edge over sockets.

ghost use Rattle.std.specs.Prelude.{◌≡◌, ◌++◌, [], ◌∷◌, None, OnOk, OnErr, IfOk};
ghost use Rattle.dns_values.specs.Source.{one_more};
ghost use Rattle.client_core.specs.Edge.{after_fault};
ghost use Rattle.socket_places.specs.Books.{Acts, Polls, but_first, told_first};

use crate::network::SystemNetwork;
use client_core::{Edge, is_fault};
use client_request::{Out, What};
use dns_base::NoMemory;
use resolv_conf::ServerConf;
use socket_places::{Books, Network};
use std::alloc::Global;
use std::marker::Model;
use std::net::{Net, TcpListener, TcpStream};

/// An edge over a network: the books of its sockets, how often it was polled, and the faults that it gave as events.
///
/// No call but `wait` sleeps: that one until something happened at any of the places, for the time that it is told, rounded up to
/// whole milliseconds. `poll` gives what an act made happen first; then what happened at the places, each in its turn. A stream
/// opens, and takes what it could not take at once, while the edge is polled. An out for a place that isn't open does nothing.
///
/// After want of memory an act has done nothing that the client is told of, and a poll may have lost what came at one place. Of a
/// stream nothing more is read then.
#[derive(Drop)]
pub struct NetworkEdge<N: Network + Drop> {
    books: Books<N>,
    polls: u64,
    faults: u64,
}

/// An edge over the system's sockets.
pub type SocketEdge<R> = NetworkEdge<SystemNetwork<R>>;

impl<N: Network + Drop> Model for NetworkEdge<N> {
    ghost use Rattle.client_edge.specs.SocketEdge.{Kept};

    ghost Value = { Kept };

    ghost view = { λ e. record { books = e.books; polls = e.polls; faults = e.faults } };
}

impl<N: Network + Drop> NetworkEdge<N> {
    /// An edge over a network that has learned no server and opened no socket.
    pub fn over(network: N, alloc: Global) -> NetworkEdge<N>
        ensures servers { result.books.servers ≡ [] }
        ensures places { result.books.places ≡ [] }
        ensures happened { result.books.happened ≡ [] }
        ensures polls { result.polls ≡ 0 }
        ensures faults { result.faults ≡ 0 }
    {
        NetworkEdge {
            books: Books::new(alloc, network),
            polls: 0,
            faults: 0,
        }
    }
}

impl<R: Net<Listener = TcpListener, Stream = TcpStream> + Copy> NetworkEdge<SystemNetwork<R>> {
    /// An edge over the system's sockets that has learned no server and opened no socket.
    pub fn new(rt: R, alloc: Global) -> NetworkEdge<SystemNetwork<R>>
        ensures polls { result.polls ≡ 0 }
        ensures faults { result.faults ≡ 0 }
    {
        NetworkEdge::over(SystemNetwork::new(rt, alloc), alloc)
    }
}

impl<N: Network + Drop> Edge for NetworkEdge<N> {
    ghost deeds = { λ _. None };

    ghost polls = { λ e. e.polls };

    ghost faults = { λ e. e.faults };

    fn learn_server(&mut self, server: &ServerConf) -> Result<(), NoMemory>
        ensures learns { OnOk result (self.new.books ≡ record self.old.books { servers = self.old.books.servers ++ server.now.addr ∷ [] }) }
        ensures polls { self.new.polls ≡ self.old.polls }
        ensures faults { self.new.faults ≡ self.old.faults }
    {
        self.books.learn(server.addr)
    }

    fn act(&mut self, out: &Out) -> Result<(), NoMemory>
        ensures acts { OnOk result (Acts out.now self.old.books self.new.books) }
        ensures polls { self.new.polls ≡ self.old.polls }
        ensures faults { self.new.faults ≡ self.old.faults }
    {
        self.books.act(out)
    }

    fn poll(&mut self) -> Result<Option<What>, NoMemory>
        ensures told { IfOk result (Polls (told_first self.old.books.happened self.old.books.places) (but_first self.old.books) self.new.books) }
        ensures polls { OnOk result (self.new.polls ≡ one_more self.old.polls) }
        ensures faults { IfOk result (λ what. self.new.faults ≡ after_fault what self.old.faults) }
        ensures err_polls { OnErr result (self.new.polls ≡ self.old.polls) }
        ensures err_faults { OnErr result (self.new.faults ≡ self.old.faults) }
    {
        let what = self.books.poll()?;
        self.polls = self.polls.saturating_add(1);
        if is_fault(&what) {
            self.faults = self.faults.saturating_add(1);
        }
        Ok(what)
    }

    fn wait(&mut self, most: u128) {
        match self.books.wait(most) {
            Ok(()) | Err(_) => {}
        }
    }
}
