//! Tests of a client that callers share.

mod calls;
mod crossing;
mod recipe;
mod scenes;
mod tests;
