//! Why a script is not told by its text.

/// Why a script is not written.
#[derive(Clone, Copy, Debug, PartialEq, Eq)]
pub enum Untold {
    /// A server is not as a line `nameserver` makes it: its port is not 53, it is asked by streams alone, or what is kept of
    /// it alone has not its default.
    Server,
    /// An option that nothing reads has not its default, or the time for a request is no whole number of seconds.
    Options,
    /// A setting of the cache is outside its limits, or a time among them is no whole number of seconds.
    Settings,
    /// A setting of transports is outside its limits, a time among them is no whole number of thousandths of a second, or
    /// messages of transfers have another time than other frames.
    Transports,
    /// There is not just one lane.
    Lanes,
    /// An event has a fault that the client finds itself.
    Event,
    /// Memory ran out.
    NoMemory,
}
