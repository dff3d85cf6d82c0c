//! DNS clients on this host.

use crate::front_edges::serving::{listening, serve};
use std::io::{Read, Write};
use std::net::{TcpListener, TcpStream, UdpSocket};
use std::test::Fail;

/// A query of opcode NOTIFY, which needs no server, under the id 0x0001, and its answer: NOTIMP.
const QUERY: [u8; 12] = [0, 1, 0x20, 0, 0, 0, 0, 0, 0, 0, 0, 0];

const ANSWER: [u8; 12] = [0, 1, 0xa0, 4, 0, 0, 0, 0, 0, 0, 0, 0];

/// A port of this host at which nobody listens.
fn free_port(rt: HostRuntime) -> Result<u16, Fail> {
    let listener = TcpListener::bind(&rt, "127.0.0.1:0")?;
    Ok(listener.local_addr()?.port())
}

#[test]
fn clients_are_answered_by_datagram_and_stream(rt: HostRuntime) -> Result<(), Fail> {
    let port = free_port(rt)?;
    let Some(mut front) = listening(rt, port)? else {
        return Ok(());
    };
    let client = UdpSocket::bind(&rt, "127.0.0.1:0")?;
    client.send_to(&QUERY, ("127.0.0.1", port))?;
    let mut stream = TcpStream::connect(&rt, ("127.0.0.1", port))?;
    stream.write_all(&[0, 12])?;
    stream.write_all(&QUERY)?;
    assert!(rt; serve(rt, &mut front, 2)?);
    let mut datagram = [0u8; 12];
    let count = client.recv(&mut datagram)?;
    assert!(rt; count == 12 && datagram == ANSWER);
    let mut frame = [0u8; 14];
    stream.read_exact(&mut frame)?;
    assert!(rt; frame[..2] == [0u8, 12][..] && frame[2..] == ANSWER[..]);
    Ok(())
}
