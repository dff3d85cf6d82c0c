//! Whether a message that is put as a reply is right.

ghost use Rattle.std.specs.Prelude.{◌≡◌, ◌&&◌, ◌||◌, not, true, false, IfOk};
ghost use Rattle.trace_replies.specs.messages.Message as plain;

use crate::given::{Earliers, came_for};
use crate::views::{ReplySettings, is_supplied, is_view};
use client_request::What;
use dns_base::{Message, NoMemory};
use std::alloc::Global;
use trace_points::exchanges::Open;
use trace_points::questions::TraceConf;
use trace_tables::Books;
use trace_tables::frames::Ledger;

/// What is told of a reply from elsewhere: of causes of errors, and of deferred messages.
#[derive(Clone, Copy, Debug, Drop)]
pub struct Told {
    /// A result for which an expired message may stand had its cause before the mark. It is asked only of a reply that is
    /// marked as stale.
    pub fails: bool,
    /// The message came for its request in an earlier row. It is asked only of a deferred message.
    pub came_earlier: bool,
    /// Every server is done with the request, and the message was the first that came. It is asked only of a deferred one.
    pub is_last: bool,
}

/// What a message is as a reply.
#[derive(Clone, Copy, Debug, Drop)]
pub struct Judged {
    pub is_right: bool,
    /// It came for its request, and is not marked as stale.
    pub is_fresh: bool,
}

/// What is known where a message is given: `past` before the row, and `sent` what was open then; `here` and `earlier` up to it,
/// with the row's event, `what`.
pub struct Place<'a> {
    pub conf: &'a TraceConf,
    pub settings: &'a ReplySettings,
    pub past: &'a Books,
    pub sent: &'a Open,
    pub here: &'a Ledger,
    pub earlier: &'a Earliers,
    pub what: &'a What,
}

impl Drop for Place<'_> {
    fn drop(self) {
        let Place {
            conf: _,
            settings: _,
            past: _,
            sent: _,
            here: _,
            earlier: _,
            what: _,
        } = self;
    }
}

/// What is judged of a reply that is marked as stale.
fn judge_supplied(told: Told, supplied: bool) -> Judged
    ensures { result ≡ record { is_right = told.fails && supplied; is_fresh = false } }
{
    Judged {
        is_right: told.fails && supplied,
        is_fresh: false,
    }
}

/// What is judged of one that is not.
fn judge_came(told: Told, deferred: bool, came: bool, view: bool) -> Judged
    ensures { result ≡ record { is_right = ((came || (deferred && told.came_earlier)) && (not deferred || told.is_last)) || view; is_fresh = came || (deferred && told.came_earlier) } }
{
    let is_fresh = came || (deferred && told.came_earlier);
    Judged {
        is_right: (is_fresh && (!deferred || told.is_last)) || view,
        is_fresh,
    }
}

impl Place<'_> {
    /// The same of a reply that is marked as stale.
    fn judge_marked(
        &self,
        alloc: Global,
        request: u64,
        message: &Message,
        told: Told,
    ) -> Result<Judged, NoMemory>
        requires { plain.is_marked_seen request self.now.here.now ≡ true }
        ensures { IfOk result (plain.TellsMessage self.now.conf.now self.now.settings.now request message.now self.now.what.now self.now.past.now self.now.sent.now self.now.here.now self.now.earlier.now told) }
    {
        let requests = &self.here.books.requests;
        let supplied = is_supplied(
            alloc,
            self.settings,
            requests,
            self.earlier,
            request,
            message,
        )?;
        Ok(judge_supplied(told, supplied))
    }

    /// The same of one that is not.
    fn judge_unmarked(
        &self,
        alloc: Global,
        request: u64,
        message: &Message,
        told: Told,
    ) -> Result<Judged, NoMemory>
        requires { plain.is_marked_seen request self.now.here.now ≡ false }
        ensures { IfOk result (plain.TellsMessage self.now.conf.now self.now.settings.now request message.now self.now.what.now self.now.past.now self.now.sent.now self.now.here.now self.now.earlier.now told) }
    {
        let deferred = self.settings.trace().is_deferred(message);
        let came = came_for(
            alloc, self.conf, self.past, self.sent, self.here, request, message,
        )?;
        let view = is_view(
            alloc,
            self.settings,
            &self.here.books.requests,
            self.earlier,
            self.what,
            request,
            message,
        )?;
        Ok(judge_came(told, deferred, came, view))
    }

    /// Whether a message is right as the reply to a request, and whether it is fresh.
    pub fn judge(
        &self,
        alloc: Global,
        request: u64,
        message: &Message,
        told: Told,
    ) -> Result<Judged, NoMemory>
        ensures { IfOk result (plain.TellsMessage self.now.conf.now self.now.settings.now request message.now self.now.what.now self.now.past.now self.now.sent.now self.now.here.now self.now.earlier.now told) }
    {
        if self.here.books.requests.is_marked(request) {
            self.judge_marked(alloc, request, message, told)
        } else {
            self.judge_unmarked(alloc, request, message, told)
        }
    }
}
