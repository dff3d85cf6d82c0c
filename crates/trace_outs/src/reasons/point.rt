//! A point within a row.

ghost use Rattle.std.specs.Prelude.{◌≡◌};
ghost use Rattle.trace_outs.specs.reasons.Point as plain;

use client_request::Row;
use trace_points::due::Timers;
use trace_points::exchanges::Coming;
use trace_points::questions::{ServerUse, TraceConf};
use trace_tables::frames::{Here, Ledger};

/// What is known at a point within a row, and what was known before the row.
pub struct Point<'a> {
    pub conf: &'a TraceConf,
    /// How each server is used, in order.
    pub servers: &'a [ServerUse],
    pub row: &'a Row,
    /// What was known before the row.
    pub past: &'a Ledger,
    pub past_timers: &'a Timers,
    /// What is known at the point.
    pub here: &'a Ledger,
    pub timers: &'a Timers,
    /// What the row's outs up to the point made of places, the row's event not counted.
    pub made: &'a Here,
    /// All messages that came in the row.
    pub comings: &'a [Coming],
}

impl Drop for Point<'_> {
    fn drop(self) {
        let Point {
            conf: _,
            servers: _,
            row: _,
            past: _,
            past_timers: _,
            here: _,
            timers: _,
            made: _,
            comings: _,
        } = self;
    }
}

impl<'a> Point<'a> {
    /// Whether there is a server.
    pub fn has_server(&self) -> bool
        ensures { result ≡ plain.has_server_seen self.now }
    {
        !self.servers.is_empty()
    }
}
