use crate::Status;

/// What a command works on.
#[derive(Drop)]
pub struct World<S, C, P> {
    /// Where the directory is read.
    pub directory: S,
    /// Where a command reads what it reads beside the directory: a capture, an old directory, a feed, a stream or a file.
    pub capture: C,
    /// The station.
    pub station: P,
}

/// How a command ended, and what it worked on, handed back.
#[derive(Drop)]
pub struct Ended<S, P> {
    /// How it ended.
    pub status: Status,
    /// What it worked on.
    pub world: World<S, S, P>,
}

/// How what was done with a station ended, and the station, handed back.
#[derive(Drop)]
pub struct Handed<P> {
    /// How it ended.
    pub status: Status,
    /// The station.
    pub station: P,
}
