//! The numbers of peers that ask a server.

/// The first number of a peer by stream, 2^62. Those of peers by datagram are below it.
pub const FIRST_STREAM: u64 = 4_611_686_018_427_387_904;
