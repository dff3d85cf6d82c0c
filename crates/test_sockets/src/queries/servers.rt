//! A server for one question.

use std::alloc::{AllocError, Global};
use std::io::{self, Read, Write};
use std::net::{TcpListener, TcpStream, UdpSocket};

/// The question for the address of example.com, and an answer to it.
const QUESTION: [u8; 17] = [
    7, 101, 120, 97, 109, 112, 108, 101, 3, 99, 111, 109, 0, 0, 1, 0, 1,
];

const RECORD: [u8; 16] = [0xc0, 12, 0, 1, 0, 1, 0, 0, 0, 100, 0, 4, 192, 0, 2, 1];

/// The flags of an answer, and of one that is truncated.
const WHOLE: u8 = 0x81;

const TRUNCATED: u8 = 0x83;

/// The octets of an answer under an id: 45.
fn answer(alloc: Global, id: [u8; 2], flags: u8) -> Result<Vec<u8>, AllocError> {
    let mut octets = Vec::from_slice(alloc, &id)?;
    octets.extend_from_slice(&[flags, 0x80, 0, 1, 0, 1, 0, 0, 0, 0])?;
    octets.extend_from_slice(&QUESTION)?;
    octets.extend_from_slice(&RECORD)?;
    Ok(octets)
}

/// Takes one question by datagram and answers it.
fn answer_datagram(alloc: Global, peer: &UdpSocket, flags: u8) -> io::Result<()> {
    let mut buf = [0u8; 512];
    let (_, from) = peer.recv_from(&mut buf)?;
    let octets = answer(alloc, [buf[0], buf[1]], flags)?;
    peer.send_to(&octets, from)?;
    Ok(())
}

/// Takes one question of 46 octets by stream, and gives the answer's frame.
fn answer_stream(alloc: Global, mut stream: TcpStream) -> io::Result<()> {
    let mut buf = [0u8; 46];
    stream.read_exact(&mut buf)?;
    let octets = answer(alloc, [buf[2], buf[3]], WHOLE)?;
    stream.write_all(&[0, 45])?;
    stream.write_all(&octets)
}

/// Answers one question by a datagram that is truncated, and then by a stream.
pub fn truncated(alloc: Global, peer: &UdpSocket, listener: &TcpListener) -> bool {
    if answer_datagram(alloc, peer, TRUNCATED).is_err() {
        return false;
    }
    match listener.accept() {
        Ok((stream, _)) => answer_stream(alloc, stream).is_ok(),
        Err(_) => false,
    }
}
