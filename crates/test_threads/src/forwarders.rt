//! Tests of a forwarder over the project's client, and of the program by one thread and by several, in memory.

mod forwarder;
mod meeting;
mod messages;
mod options;
mod program;
mod workers;
