//! How far a transfer is.

use client_request::Moment;

/// What is told how far a transfer is. It has no part in what becomes of it.
pub trait Progress {
    /// Told after a turn: the clock's moment, how many updates came in the messages before, and how much memory they are reckoned to
    /// take, in octets.
    fn tell(&mut self, moment: Moment, updates: usize, octets: u64);

    /// Told behind the last turn of all transfers.
    fn end(&mut self);
}

/// What listens to nothing.
#[derive(Clone, Copy)]
pub struct Silent;

impl Progress for Silent {
    fn tell(&mut self, _moment: Moment, _updates: usize, _octets: u64) {}

    fn end(&mut self) {}
}
