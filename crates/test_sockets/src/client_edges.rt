//! Tests of a client's edge over the sockets, the clock, the random words and the files of this host.

mod addresses;
mod datagrams;
mod peers;
mod streams;
mod system;
mod waits;
