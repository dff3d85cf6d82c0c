//! Sockets in memory.

ghost use Rattle.std.specs.Prelude.{◌≡◌, ◌≤◌, length, IfOk, OnErr};
ghost use Rattle.dns_values.specs.Source.{Rose, one_more};
ghost use Rattle.client_dgram.specs.Sockets.{Receives, after_answer, fault_at, next_connect_fault, next_received, next_send_fault, or_fault, quiet_socket};

use crate::sockets::{Connect, DgramRecv, DgramSend};
use client_request::Fault;
use dns_base::Octets;
use dns_values::copy_front;
use std::alloc::Global;
use std::marker::Model;

/// A socket that gives the datagrams of one list and has the faults of another, call by call. Past
/// their ends it receives no octet and sends all.
#[derive(Drop)]
pub struct ListDgram {
    received: Vec<Result<Octets, Fault>>,
    sends: Vec<Option<Fault>>,
    recv_calls: usize,
    send_calls: usize,
    faults: u64,
}

impl Model for ListDgram {
    ghost use Rattle.client_dgram.specs.Sockets.{Socket};

    ghost Value = { Socket };

    ghost view = { λ s. record {
      received = s.received.items;
      sends = s.sends.items;
      recv_calls = s.recv_calls;
      send_calls = s.send_calls;
      faults = s.faults;
    } };
}

impl ListDgram {
    /// A socket that receives this list call by call, and sends or fails by that one.
    pub fn new(received: Vec<Result<Octets, Fault>>, sends: Vec<Option<Fault>>) -> ListDgram
        ensures { result ≡ record { received = received.items; sends = sends.items; recv_calls = 0; send_calls = 0; faults = 0 } }
    {
        ListDgram {
            received,
            sends,
            recv_calls: 0,
            send_calls: 0,
            faults: 0,
        }
    }
}

impl DgramRecv for ListDgram {
    ghost recv_faults = { λ s. s.faults };

    fn recv(&mut self, buf: &mut [u8]) -> Result<usize, Fault>
        ensures within { IfOk result (λ n. n ≤ length buf.old) }
        ensures count { self.old.faults ≤ self.new.faults }
        ensures failed { OnErr result (Rose self.old.faults self.new.faults) }
        ensures receives { Receives (next_received self.old) buf.old buf.new result }
        ensures after { self.new ≡ record self.old { recv_calls = one_more self.old.recv_calls; faults = after_answer result self.old.faults } }
    {
        let call = self.recv_calls;
        self.recv_calls = call.saturating_add(1);
        match self.received.get(call) {
            None => Ok(0),
            Some(Ok(octets)) => Ok(copy_front(octets.as_slice(), buf)),
            Some(Err(fault)) => {
                let fault = *fault;
                self.faults = self.faults.saturating_add(1);
                Err(fault)
            }
        }
    }
}

impl DgramSend for ListDgram {
    ghost send_faults = { λ s. s.faults };

    fn send(&mut self, buf: &[u8]) -> Result<usize, Fault>
        ensures within { IfOk result (λ n. n ≤ length buf.now) }
        ensures count { self.old.faults ≤ self.new.faults }
        ensures failed { OnErr result (Rose self.old.faults self.new.faults) }
        ensures sends { result ≡ or_fault (length buf.now) (next_send_fault self.old) }
        ensures after { self.new ≡ record self.old { send_calls = one_more self.old.send_calls; faults = after_answer result self.old.faults } }
    {
        let call = self.send_calls;
        self.send_calls = call.saturating_add(1);
        match fault_at(&self.sends, call) {
            None => Ok(buf.len()),
            Some(fault) => {
                self.faults = self.faults.saturating_add(1);
                Err(fault)
            }
        }
    }
}

/// The fault of a call, counted from 0; none past the list's end.
fn fault_at(faults: &[Option<Fault>], call: usize) -> Option<Fault>
    ensures { result ≡ fault_at faults.now call }
{
    faults.get(call).copied().unwrap_or(None)
}

/// Connects to sockets that receive nothing and send all, but for the faults of a list, call by call.
#[derive(Drop)]
pub struct ListConnect {
    alloc: Global,
    connects: Vec<Option<Fault>>,
    calls: usize,
    faults: u64,
}

impl Model for ListConnect {
    ghost use Rattle.client_dgram.specs.Sockets.{Connecting};

    ghost Value = { Connecting };

    ghost view = { λ c. record { connects = c.connects.items; calls = c.calls; faults = c.faults } };
}

impl ListConnect {
    /// A connector that fails where the list has a fault, call by call, and else connects.
    pub fn new(alloc: Global, faults: Vec<Option<Fault>>) -> ListConnect
        ensures { result ≡ record { connects = faults.items; calls = 0; faults = 0 } }
    {
        ListConnect {
            alloc,
            connects: faults,
            calls: 0,
            faults: 0,
        }
    }
}

impl Connect for ListConnect {
    type Connection = ListDgram;

    ghost connect_faults = { λ c. c.faults };

    fn connect(&mut self) -> Result<ListDgram, Fault>
        ensures count { self.old.faults ≤ self.new.faults }
        ensures failed { OnErr result (Rose self.old.faults self.new.faults) }
        ensures connects { result ≡ or_fault quiet_socket (next_connect_fault self.old) }
        ensures after { self.new ≡ record self.old { calls = one_more self.old.calls; faults = after_answer result self.old.faults } }
    {
        let call = self.calls;
        self.calls = call.saturating_add(1);
        match fault_at(&self.connects, call) {
            None => Ok(ListDgram::new(Vec::new(self.alloc), Vec::new(self.alloc))),
            Some(fault) => {
                self.faults = self.faults.saturating_add(1);
                Err(fault)
            }
        }
    }
}
