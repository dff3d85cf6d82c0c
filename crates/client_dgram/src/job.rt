//! What a datagram transport keeps of each request.

/// Where a request is. It waits for a slot, or its try waits for a place to open, or was sent there and
/// waits for an answer until a timer fires.
#[derive(Clone, Copy, Debug, PartialEq, Eq)]
pub enum Stage {
    /// It waits for a slot.
    Queued,
    /// Its try waits for this place to open.
    Opening { place: u64 },
    /// It was sent at this place. `timer` is the number of the read timer that ends the try.
    Sent { place: u64, timer: u64 },
}

/// A request that a transport works on: the number that its outs name, how many tries may still follow
/// the one at work, and where it is.
#[derive(Debug, Drop)]
pub struct Job<Req> {
    /// The number that its outs name.
    pub number: u64,
    /// The request; once it was sent, under the id of the last try.
    pub request: Req,
    /// How many tries may follow the one at work.
    pub left: u8,
    /// Where it is.
    pub stage: Stage,
}
