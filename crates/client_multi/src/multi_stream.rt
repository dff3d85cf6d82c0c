//! Reconnection: requests go to the newest stream that is open and has room, and back off where none
//! can be opened.

mod connection;
mod job;
mod one_stream;
mod retry;
mod steps;
mod tables;

pub use client_request::Pending as Request;
pub use client_settings::multi_stream::Config;
pub use connection::{Connection, Transport};
pub use job::{Job, Stage};
pub use one_stream::{Link, OneStream};
pub use retry::retry_time;
pub use tables::Tables;
