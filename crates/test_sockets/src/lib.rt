//! Tests of edges and of the books below them: over sockets in memory, and over the sockets, the clock, the random words and the files of
//! this host; and of want of memory below them.
#![tactic(auto)]

#[cfg(test)]
mod client_edges;
#[cfg(test)]
mod dgram_memory;
#[cfg(test)]
mod edge_books;
#[cfg(test)]
mod front_edges;
#[cfg(test)]
mod listener_books;
#[cfg(test)]
mod queries;
