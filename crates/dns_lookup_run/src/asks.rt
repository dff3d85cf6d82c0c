//! Who asks a client: with words as they come, or recorded.

ghost use Rattle.std.specs.Prelude.{ℕ, List};
ghost use Rattle.client_request.specs.declared.event.Row.{Row};
ghost use Rattle.client_steps.specs.Whole.{Whole};
ghost use Rattle.dns_lookup_run.specs.Making.{AskedIf, StopsIf};

use client_core::{Client, Clock, Edge};
use client_loop::ask;
use client_request::{Error, RequestMessage, Words};
use dns_base::Message;

/// What is answered: a message or an error; none where as many turns passed as there may be.
pub(crate) type Answered = Option<Result<Message, Error>>;

/// Who asks a client.
///
/// `stream` are the words that the client draws from now on, and `made` is what is told of the rows that it puts out.
pub(crate) trait Asks {
    ghost stream: { Self → ℕ → ℕ };

    ghost made: { Self → Whole → List Row → Self → Whole → Type 0 };

    /// Asks a request under this number, which is that of the client's next one, and turns until its reply is there, at most
    /// 1,000,000 times.
    fn ask<E: Edge, C: Clock>(
        &mut self,
        client: &mut Client,
        edge: &mut E,
        clock: &mut C,
        number: u64,
        request: RequestMessage,
    ) -> Result<Answered, Error>
        ensures answered { AskedIf result E.deeds E.waits E.polls C.given stream made (client.old, edge.old, clock.old, self.old) (client.new, edge.new, clock.new, self.new) number request }
        ensures numbers { StopsIf result E.deeds E.waits E.polls C.given stream (client.old, edge.old, clock.old, self.old) (client.new, edge.new, clock.new, self.new) request };
}

impl<W: Words> Asks for W {
    ghost stream = { W.stream };

    ghost made = { λ _ _ _ _ _. Unit {0} };

    fn ask<E: Edge, C: Clock>(
        &mut self,
        client: &mut Client,
        edge: &mut E,
        clock: &mut C,
        number: u64,
        request: RequestMessage,
    ) -> Result<Answered, Error> {
        ask(client, edge, clock, self, number, request)
    }
}
