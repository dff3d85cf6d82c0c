//! The front of the first thread.

ghost use Rattle.std.specs.Prelude.{None};
ghost use Rattle.front_edge.specs.Fronts.{IsDeafAt, IsDeafBy};

use crate::common::Common;
use crate::listeners::SharedListeners;
use crate::post::Post;
use crate::wakes::WakeDgrams;
use client_edge::SystemNetwork;
use client_request::Fault;
use dns_values::{IpAddr, NoMemory, Seq};
use forward_run::Front;
use front_edge::{ListenerFront, SystemStreams};
use front_peers::{FrontOut, FrontWhat};
use front_shared::is_for_any;
use resolv_conf::ServerConf;
use std::alloc::Global;
use std::net::{Net, TcpListener, TcpStream};
use std::sync::Wait;

/// A front over the system's sockets that takes no datagrams, which workers take, but answers by them too.
#[derive(Drop)]
pub struct SharedFront<'a, T: Wait, R: Net<Listener = TcpListener, Stream = TcpStream> + Copy> {
    over: ListenerFront<SystemNetwork<R>, WakeDgrams, SystemStreams, SharedListeners<'a, T, R>>,
    post: Post<'a, T>,
}

impl<'a, T: Wait, R: Net<Listener = TcpListener, Stream = TcpStream> + Copy> SharedFront<'a, T, R> {
    /// A front over the system's sockets, which will listen at these addresses.
    pub fn new(
        rt: R,
        alloc: Global,
        addresses: Seq<IpAddr>,
        common: &'a Common<'a, T>,
    ) -> SharedFront<'a, T, R> {
        let network = SystemNetwork::new(rt, alloc);
        let opener = SharedListeners::new(rt, alloc, common);
        SharedFront {
            over: ListenerFront::over(network, opener, alloc, addresses),
            post: Post::new(alloc, common),
        }
    }
}

impl<'a, T: Wait, R: Net<Listener = TcpListener, Stream = TcpStream> + Copy> Front
    for SharedFront<'a, T, R> {
    ghost deeds = { λ _. None };

    ghost polls = { λ f. f.over.polls };

    ghost faults = { λ f. f.over.faults };

    ghost gave = { λ f fault. IsDeafBy f.over.deaf fault };

    ghost is_deaf_at = { λ f ip. IsDeafAt f.over.deaf ip };

    fn listen(&mut self, port: u16) -> Result<(), Fault> {
        self.over.listen(port)
    }

    fn deaf_at(&self) -> Option<IpAddr> {
        self.over.deaf_at()
    }

    fn learn_server(&mut self, server: &ServerConf) -> Result<(), NoMemory> {
        self.over.learn_server(server)
    }

    fn act(&mut self, out: &FrontOut) -> Result<(), NoMemory> {
        if !is_for_any(out) {
            return self.over.act(out);
        }
        match out {
            FrontOut::Answer { peer, octets } => self.post.answer(*peer, octets.as_slice()),
            FrontOut::Core { .. } | FrontOut::Drop { .. } => Ok(()),
        }
    }

    fn poll(&mut self) -> Result<Option<FrontWhat>, NoMemory> {
        self.over.poll()
    }

    fn wait(&mut self, most: u128) {
        self.over.wait(most);
    }
}
