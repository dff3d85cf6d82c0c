//! A question to a server on this host.

use crate::queries::asking::is_answered;
use crate::queries::servers::truncated;
use std::net::{TcpListener, UdpSocket};
use std::test::Fail;
use std::thread;

#[test]
fn a_stream_answers_what_was_truncated(rt: HostRuntime) -> Result<(), Fail> {
    let listener = TcpListener::bind(&rt, "127.0.0.1:0")?;
    let addr = listener.local_addr()?;
    let peer = UdpSocket::bind(&rt, addr)?;
    let alloc = rt.alloc();
    let server = thread::spawn(&rt, move || truncated(alloc, &peer, &listener))?;
    assert!(rt; is_answered(rt, "nameserver 127.0.0.1\n", addr.port())?);
    assert!(rt; server.join(&rt));
    Ok(())
}
