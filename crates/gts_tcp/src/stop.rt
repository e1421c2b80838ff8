use std::io;
use std::io::ErrorKind;
use std::sync::atomic::{AtomicU64, Ordering};

/// For how many milliseconds a call on a socket waits at most, before it is looked whether the run is to end.
pub(crate) const LONGEST_WAIT: u32 = 250;

/// Says that a run is to end, to all its lines: what waits for a neighbour there fails then, within a quarter of a second, or once
/// a try to reach the neighbour has come to its end. Nothing is claimed of it.
#[derive(Drop)]
pub struct Stop {
    // 1 once it was set.
    word: AtomicU64,
}

impl Stop {
    /// The run goes on.
    pub fn new() -> Stop {
        Stop {
            word: AtomicU64::new(0),
        }
    }

    /// The run is to end.
    pub fn set(&self) {
        self.word.store(1, Ordering::SeqCst);
    }

    /// Whether the run is to end.
    pub fn is_set(&self) -> bool {
        self.word.load(Ordering::SeqCst) == 1
    }
}

/// How long a line waits for its neighbour.
#[derive(Clone, Copy)]
pub(crate) struct Patience<'a> {
    /// How often the neighbour's port is tried for a piece, or without an end. A service, which has no number, also accepts again
    /// where accepting fails.
    pub(crate) tries: Option<u32>,
    /// Whether the run is to end, where something says so.
    pub(crate) stop: Option<&'a Stop>,
}

/// Fails where the run is to end.
pub(crate) fn goes_on(stop: Option<&Stop>) -> io::Result<()> {
    match stop {
        Some(stop) if stop.is_set() => Err(io::Error::from(ErrorKind::ConnectionAborted)),
        _ => Ok(()),
    }
}

/// Whether a call on a socket has only waited, and is to be made again.
pub(crate) fn has_waited(error: &io::Error) -> bool {
    matches!(error.kind(), ErrorKind::WouldBlock | ErrorKind::Interrupted)
}
