//! Expired messages that stand in where servers fail.

ghost use Rattle.std.specs.Prelude.{◌≡◌, ℕ, List, Option, IfOk, OnOk, IfErr, IsErrOf, true};
ghost use Rattle.client_cache.specs.Plain as caching;
ghost use Rattle.client_request.specs.Cx.{view_of, LendsTheSame};
ghost use Rattle.client_request.specs.Response.{IsRefusal};
ghost use Rattle.client_request.specs.declared.error.Error.TheVariants.{Failed, NumbersUsed};
ghost use Rattle.client_request.specs.View.{View};

use client_cache::{Connection, Request};
use client_request::{Cx, Error, RequestMessage, SendRequest, Words};
use dns_base::Message;

/// A transport that may give an expired message where its servers fail (RFC 8767).
pub trait ServesStale: SendRequest<RequestMessage> {
    /// What stands in for the result of a request that waits.
    ghost stale: { Self.Response → Self → View → Option (List ℕ) };

    /// The message that stands in now for the result of a request that waits, if there is one. It is refused as the calls
    /// of a transport are.
    fn stand_in<W: Words>(
        &mut self,
        cx: &mut Cx<'_, W>,
        response: &Self::Response,
    ) -> Result<Option<Message>, Error>
        ensures lends { LendsTheSame cx.old cx.new }
        ensures ok { IfOk result (λ m. m ≡ stale response.now self.old (view_of W.stream cx.old)) }
        ensures same { OnOk result (self.new ≡ self.old) }
        ensures view { view_of W.stream cx.new ≡ view_of W.stream cx.old }
        ensures refused { IfErr result IsRefusal }
        ensures numbers { IsErrOf result NumbersUsed → ⊥ }
        ensures failed_only { IsErrOf result Failed → Self.holds_failed self.old ≡ true };
}

impl<U: SendRequest<RequestMessage>> ServesStale for Connection<RequestMessage, U> {
    ghost stale = { caching.stale U.Response.ticket_of };

    fn stand_in<W: Words>(
        &mut self,
        cx: &mut Cx<'_, W>,
        response: &Request<U::Response>,
    ) -> Result<Option<Message>, Error> {
        self.stale(cx, response)
    }
}
