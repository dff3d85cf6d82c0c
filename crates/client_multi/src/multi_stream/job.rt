//! What reconnection keeps of each request.

/// Where a request is. It waits for a connection to open, backs off until a timer fires, or a connection
/// has it.
#[derive(Debug, Drop)]
pub enum Stage {
    /// It waits for the connection that opens.
    Waiting,
    /// It backs off until this timer fires.
    Resting {
        timer: u64,
    },
    /// The connection at this place has it; `response` stands for its result there.
    Held {
        place: u64,
        response: client_stream::Request,
    },
}

/// A request that waits for its result: the number that its outs name, how often it backed off, the timer
/// that ends its time, and where it is.
#[derive(Debug, Drop)]
pub struct Job<Req> {
    /// The number that its outs name.
    pub number: u64,
    /// The request, as it was asked.
    pub request: Req,
    /// How often it backed off; the count stands still at its last value.
    pub back_offs: u64,
    /// The number of the timer that ends its time.
    pub end: u64,
    /// Where it is.
    pub stage: Stage,
}
