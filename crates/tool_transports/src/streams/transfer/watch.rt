//! A transfer that is watched.

use crate::reading::message_of;
use client_request::RequestMessageMulti;
use client_transfer::{XfrState, check_stream};
use dns_base::{Message, Rtype};
use std::alloc::Global;
use std::fmt::Write;

/// A transfer that is watched: its request, and where it is.
pub struct Watch {
    request: RequestMessageMulti,
    pub state: XfrState,
}

impl Drop for Watch {
    fn drop(self) {
        let Watch {
            request: _,
            state: _,
        } = self;
    }
}

impl Watch {
    /// The transfer that a query begins.
    pub fn begun(alloc: Global, query: &str) -> Option<Watch> {
        let request = RequestMessageMulti::new(alloc, message_of(alloc, query)?).ok()?;
        let mut watch = Watch {
            request,
            state: XfrState::AxfrInit,
        };
        watch.begin();
        Some(watch)
    }

    /// Begins it anew.
    pub fn begin(&mut self) {
        self.state = match self.request.base().first_question() {
            Some(question) if question.qtype() == Rtype::IXFR => XfrState::IxfrInit,
            _ => XfrState::AxfrInit,
        };
    }

    /// Adds a line: whether the transfer ends with a message, the state that is left, and whether the message belongs to
    /// the transfer.
    pub fn check(&mut self, message: &Message, text: &mut String) -> Option<()> {
        let (ends, state, taken) = check_stream(&self.request, self.state, message);
        self.state = state;
        write!(text, "{ends} {state:?} {taken}\n").ok()
    }
}
