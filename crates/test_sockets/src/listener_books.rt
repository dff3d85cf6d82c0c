//! Tests of the books of a server's listeners over listeners and sockets in memory.

mod batch;
mod peers;
mod scenes;
