//! A test of the program's query over the system's sockets: a server on this host that truncates by datagram and answers by stream.

mod asking;
mod loopback;
mod servers;
