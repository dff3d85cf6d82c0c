//! A test of a forwarder's front over the system's sockets: DNS clients on this host ask by a datagram and by a stream.

mod loopback;
mod serving;
