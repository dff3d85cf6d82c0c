//! Tests of the books of an edge over sockets in memory.

mod books;
mod parts;
mod scenes;
