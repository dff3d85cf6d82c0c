//! What a fallback keeps of each request.

ghost use Rattle.std.specs.Prelude.{◌≡◌};
ghost use Rattle.client_multi.specs.Fallback as plain;

/// A request that waits for its result, which comes from below under the ticket `lower`.
#[derive(Drop)]
pub enum Job<Req, P, Q> {
    /// It was handed to the datagrams. It is kept for the stream, with the number that its outs name.
    Dgram {
        lower: u64,
        number: u64,
        request: Req,
        response: P,
    },
    /// The message of a datagram was truncated, and the stream has it.
    Stream {
        lower: u64,
        response: Q,
    },
}

impl<Req, P, Q> Job<Req, P, Q> {
    /// The ticket under which its result comes from below.
    pub(crate) fn lower(&self) -> u64
        ensures { result ≡ plain.lower_of self.now }
    {
        match self {
            Job::Dgram { lower, .. } | Job::Stream { lower, .. } => *lower,
        }
    }
}
