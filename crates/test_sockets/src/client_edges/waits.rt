//! How long an edge over sockets waits.

use crate::client_edges::addresses::{is_datagram, is_opened, next, polled, sends};
use crate::client_edges::peers::{Pair, paired, server_by_four};
use client_core::{Clock, Edge, Moment};
use client_edge::RealClock;
use std::alloc::Global;
use std::io;
use std::net::UdpSocket;

/// Longer than a test may last, in microseconds.
const LONG: u128 = 3_600_000_000;

/// Whether what an act made happen ends a wait.
fn an_act_ends_it(pair: &mut Pair) -> bool {
    pair.edge.wait(LONG);
    is_opened(&polled(&mut pair.edge), 0)
}

fn gives(peer: &UdpSocket) -> io::Result<usize> {
    let mut buf = [0u8; 9];
    let (_, from) = peer.recv_from(&mut buf)?;
    peer.send_to(&[4, 5], from)
}

/// Whether a datagram ends a wait, and another wait ends at once then.
fn a_datagram_ends_it(alloc: Global, pair: &mut Pair) -> bool {
    if !sends(&mut pair.edge, alloc, 0, &[1]) || gives(&pair.peer).is_err() {
        return false;
    }
    pair.edge.wait(LONG);
    pair.edge.wait(LONG);
    is_datagram(&polled(&mut pair.edge), &[4, 5])
}

/// Whether silence lasts as long as it may, where no time is left at once.
fn silence_lasts(rt: HostRuntime, pair: &mut Pair) -> bool {
    let mut clock = RealClock::new(rt);
    pair.edge.wait(20_001);
    let Moment(waited) = clock.now();
    waited >= 20_001 && polled(&mut pair.edge).is_none()
}

fn no_time_ends_at_once(pair: &mut Pair) -> bool {
    pair.edge.wait(0);
    polled(&mut pair.edge).is_none()
}

/// Whether waits end so, one behind the other.
fn waits_end(rt: HostRuntime, pair: &mut Pair) -> bool {
    an_act_ends_it(pair)
        && silence_lasts(rt, pair)
        && no_time_ends_at_once(pair)
        && a_datagram_ends_it(rt.alloc(), pair)
}

#[test]
fn a_wait_ends_by_what_happens_or_in_time(rt: HostRuntime) {
    let pair = server_by_four(rt).and_then(|server| paired(rt, server));
    assert!(rt; pair.is_some_and(|mut pair| waits_end(rt, &mut pair)));
}
