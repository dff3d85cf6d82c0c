//! The traits of transports.

ghost use Rattle.std.specs.Prelude.{◌≡◌, Bool, true, false, OnOk, OnErr, IfOk, IfErr, IsErrOf};
ghost use Rattle.client_request.specs.View.{Transport};
ghost use Rattle.client_request.specs.Calls.{Holds, AnswersFailed};
ghost use Rattle.client_request.specs.Cx.{view_of, heard};

use crate::cx::{Cx, Signal};
use crate::error::Error;
use crate::response::{GetResponse, GetResponseMulti};
use crate::words::Words;

/// A transport: each call is the step of the plain machine that its ghost members say.
///
/// The three calls answer `NoMemory`, `NumbersUsed` (a number would pass the greatest `u64`) or
/// `Failed` by `Err`; every other error is a request's result on the board. After `NoMemory` or
/// `NumbersUsed` the object is failed: each later call answers `Failed` and changes nothing.
pub trait SendRequest<CR> {
    type Response: GetResponse;

    /// Whether an earlier call gave up: then each call answers `Failed`.
    ghost has_failed: { Self → Bool };

    /// Whether it, or a transport that it holds, gave up: else no call answers `Failed`.
    ghost holds_failed: { Self → Bool };

    /// What each call leaves, and what stands for the result of a request that is taken on.
    ghost transport: { Transport CR Self Self.Response };

    /// Takes a request on. Its result will stand on the board under the response's ticket.
    fn send_request<W: Words>(
        &mut self,
        cx: &mut Cx<'_, W>,
        request: CR,
    ) -> Result<Self::Response, Error>
        ensures holds { Holds W.stream cx.old cx.new result (transport.send request self.old) self.new holds_failed self.old self.new }
        ensures response { IfOk result (λ r. r ≡ transport.response request self.old (view_of W.stream cx.old)) }
        ensures ticket { IfOk result (λ r. Self.Response.ticket_of r ≡ cx.old.ticket) }
        ensures waits { IfOk result (λ r. Self.Response.has_given r ≡ false) }
        ensures err { OnErr result (has_failed self.new ≡ true) }
        ensures failed { has_failed self.old ≡ true → AnswersFailed result (self.old, view_of W.stream cx.old) (self.new, view_of W.stream cx.new) };

    /// Hears what happened.
    fn step<W: Words>(&mut self, cx: &mut Cx<'_, W>, signal: Signal<'_>) -> Result<(), Error>
        ensures holds { Holds W.stream cx.old cx.new result (transport.step (heard signal.entry) self.old) self.new holds_failed self.old self.new }
        ensures err { OnErr result (has_failed self.new ≡ true) }
        ensures failed { has_failed self.old ≡ true → AnswersFailed result (self.old, view_of W.stream cx.old) (self.new, view_of W.stream cx.new) };

    /// Gives a request up, whose result then never comes.
    fn cancel<W: Words>(
        &mut self,
        cx: &mut Cx<'_, W>,
        response: Self::Response,
    ) -> Result<(), Error>
        ensures holds { Holds W.stream cx.old cx.new result (transport.cancel response self.old) self.new holds_failed self.old self.new }
        ensures err { OnErr result (has_failed self.new ≡ true) }
        ensures failed { has_failed self.old ≡ true → AnswersFailed result (self.old, view_of W.stream cx.old) (self.new, view_of W.stream cx.new) };
}

/// A transport of requests that several messages may answer: each call is the step of the plain machine
/// that its ghost members say, and answers `Err` as a transport of requests for one message does.
pub trait SendRequestMulti<CR> {
    type Response: GetResponseMulti;

    /// Whether an earlier call gave up: then each call answers `Failed`.
    ghost has_failed: { Self → Bool };

    /// Whether it, or a transport that it holds, gave up: else no call answers `Failed`.
    ghost holds_failed: { Self → Bool };

    /// What each call leaves, and what stands for the results of a request that is taken on.
    ghost transport: { Transport CR Self Self.Response };

    /// Takes a request on. Its results will stand on the board under the response's ticket.
    fn send_request<W: Words>(
        &mut self,
        cx: &mut Cx<'_, W>,
        request: CR,
    ) -> Result<Self::Response, Error>
        ensures holds { Holds W.stream cx.old cx.new result (transport.send request self.old) self.new holds_failed self.old self.new }
        ensures response { IfOk result (λ r. r ≡ transport.response request self.old (view_of W.stream cx.old)) }
        ensures ticket { IfOk result (λ r. Self.Response.ticket_of r ≡ cx.old.ticket) }
        ensures waits { IfOk result (λ r. Self.Response.has_ended r ≡ false) }
        ensures err { OnErr result (has_failed self.new ≡ true) }
        ensures failed { has_failed self.old ≡ true → AnswersFailed result (self.old, view_of W.stream cx.old) (self.new, view_of W.stream cx.new) };

    /// Hears what happened.
    fn step<W: Words>(&mut self, cx: &mut Cx<'_, W>, signal: Signal<'_>) -> Result<(), Error>
        ensures holds { Holds W.stream cx.old cx.new result (transport.step (heard signal.entry) self.old) self.new holds_failed self.old self.new }
        ensures err { OnErr result (has_failed self.new ≡ true) }
        ensures failed { has_failed self.old ≡ true → AnswersFailed result (self.old, view_of W.stream cx.old) (self.new, view_of W.stream cx.new) };

    /// Gives a request up, of which no more results come.
    fn cancel<W: Words>(
        &mut self,
        cx: &mut Cx<'_, W>,
        response: Self::Response,
    ) -> Result<(), Error>
        ensures holds { Holds W.stream cx.old cx.new result (transport.cancel response self.old) self.new holds_failed self.old self.new }
        ensures err { OnErr result (has_failed self.new ≡ true) }
        ensures failed { has_failed self.old ≡ true → AnswersFailed result (self.old, view_of W.stream cx.old) (self.new, view_of W.stream cx.new) };
}
