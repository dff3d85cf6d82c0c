//! What is around a fetch.

/// What a server is asked by.
#[derive(Drop)]
pub struct Means<C, W, P> {
    pub clock: C,
    pub random: W,
    /// What is told how far the transfer is.
    pub progress: P,
}

/// What is around a fetch. No edge was used before.
#[derive(Drop)]
pub struct FetchWorld<O, E, C, W, P, F> {
    /// What opens the file that has the zone as it was printed before.
    pub opener: O,
    /// What is asked.
    pub edge: E,
    /// What is asked for the whole zone where changes were asked for and do not lead on.
    pub later: E,
    pub means: Means<C, W, P>,
    /// What puts the zone in the place of a file.
    pub files: F,
}
