//! An edge that runs out of memory.

ghost use Rattle.std.specs.Prelude.{None};

use client_core::{Edge, Out, What};
use dns_base::NoMemory;
use resolv_conf::ServerConf;

/// An edge that learns so many servers, and finds no memory for anything else.
#[derive(Drop)]
pub struct PoorEdge {
    pub servers: u64,
}

impl Edge for PoorEdge {
    ghost deeds = { λ _. None };

    ghost polls = { λ _. 0 };

    ghost faults = { λ _. 0 };

    fn learn_server(&mut self, _server: &ServerConf) -> Result<(), NoMemory> {
        match self.servers.checked_sub(1) {
            Some(left) => {
                self.servers = left;
                Ok(())
            }
            None => Err(NoMemory),
        }
    }

    fn act(&mut self, _out: &Out) -> Result<(), NoMemory> {
        Err(NoMemory)
    }

    fn poll(&mut self) -> Result<Option<What>, NoMemory> {
        Err(NoMemory)
    }
}
