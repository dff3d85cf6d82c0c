//! Sockets and a connector in memory, by their lists.
//!
//! `connector FAULT` connects twice, the first time with a fault, and says what the second connection receives and sends of four octets.
//! `socket CALL, ..` receives six octets and is then reset, and sends once and is then broken: `recv` and `send`, of four
//! octets each.

use crate::reading::fault_of;
use crate::saying::{say_name, say_octets, say_value};
use client_dgram::{Connect, DgramRecv, DgramSend, ListConnect, ListDgram};
use client_request::Fault;
use dns_base::Octets;
use std::alloc::Global;

/// Receives four octets at most, and says how many came, and the four with them.
fn recv(socket: &mut ListDgram, said: &mut String) -> Option<()> {
    let mut buffer = [9u8; 4];
    match socket.recv(&mut buffer) {
        Ok(count) => {
            say_value(said, &count)?;
            say_octets(said, &buffer)
        }
        Err(fault) => say_name(said, &fault),
    }
}

fn send(socket: &mut ListDgram, said: &mut String) -> Option<()> {
    match socket.send(&[9; 4]) {
        Ok(count) => say_value(said, &count),
        Err(fault) => say_name(said, &fault),
    }
}

fn connected(connector: &mut ListConnect, said: &mut String) -> Option<()> {
    match connector.connect() {
        Ok(mut socket) => {
            recv(&mut socket, said)?;
            send(&mut socket, said)
        }
        Err(fault) => say_name(said, &fault),
    }
}

pub fn show_connector(alloc: Global, word: &str, said: &mut String) -> Option<()> {
    let faults = vec![in alloc; Some(fault_of(alloc, word)?)].ok()?;
    let mut connector = ListConnect::new(alloc, faults);
    connected(&mut connector, said)?;
    connected(&mut connector, said)
}

fn socket(alloc: Global) -> Option<ListDgram> {
    let six = Octets::from_slice(alloc, &[1, 2, 3, 4, 5, 6]).ok()?;
    let received = vec![in alloc; Ok(six), Err(Fault::Reset)].ok()?;
    let sends = vec![in alloc; None, Some(Fault::Broken)].ok()?;
    Some(ListDgram::new(received, sends))
}

pub fn show(alloc: Global, calls: &str, said: &mut String) -> Option<()> {
    let mut socket = socket(alloc)?;
    for word in calls.split(", ") {
        match word {
            "recv" => recv(&mut socket, said)?,
            "send" => send(&mut socket, said)?,
            _ => return None,
        }
    }
    Some(())
}
