//! A row that is judged.

use crate::past::Past;
use crate::rules::Rules;
use client_request::Row;
use trace_points::exchanges::Coming;

/// A row that is judged: by what, what was known before it, and which messages came in it.
pub struct Case<'a> {
    pub rules: &'a Rules,
    pub past: &'a Past,
    pub row: &'a Row,
    pub comings: &'a [Coming],
}

impl Drop for Case<'_> {
    fn drop(self) {
        let Case {
            rules: _,
            past: _,
            row: _,
            comings: _,
        } = self;
    }
}

/// A mark that was put last: whose reply is stale, and whether a result of the request failed there.
#[derive(Clone, Copy, Debug, Drop)]
pub struct Mark {
    pub request: u64,
    pub fails: bool,
}
