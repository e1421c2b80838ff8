use crate::stop::{LONGEST_WAIT, Stop, goes_on};
use std::thread;
use std::time::{Clock, Duration};

/// How many milliseconds a caller waits before it tries for the second time.
const FIRST_PAUSE: u32 = 10;

/// The longest pause between two tries, in milliseconds.
const LONGEST_PAUSE: u32 = 2_000;

/// The longest pause between two looks for a caller, in milliseconds.
const LONGEST_LOOK: u32 = 50;

/// The pauses between tries, each twice as long as the one before, up to the longest.
#[derive(Clone, Copy, Drop)]
pub(crate) struct Pauses {
    next: u32,
    longest: u32,
}

impl Pauses {
    /// Those of tries to reach a neighbour. None was made yet.
    pub(crate) fn new() -> Pauses {
        Pauses {
            next: FIRST_PAUSE,
            longest: LONGEST_PAUSE,
        }
    }

    /// Those of looks for a caller, which are short.
    pub(crate) fn of_looks() -> Pauses {
        Pauses {
            next: 1,
            longest: LONGEST_LOOK,
        }
    }

    /// The next pause, in milliseconds.
    pub(crate) fn next(&mut self) -> u32 {
        let pause = self.next;
        self.next = pause.saturating_mul(2).min(self.longest);
        pause
    }

    /// Makes the next pause, which ends early where the run is to end.
    pub(crate) fn make<R: Clock>(&mut self, rt: &R, stop: Option<&Stop>) {
        let pause = self.next();
        sleep(rt, pause % LONGEST_WAIT);
        for _ in 0..pause / LONGEST_WAIT {
            if goes_on(stop).is_err() {
                return;
            }
            sleep(rt, LONGEST_WAIT);
        }
    }
}

/// Sleeps for so many milliseconds.
fn sleep<R: Clock>(rt: &R, milliseconds: u32) {
    thread::sleep(rt, Duration::from_millis(u64::from(milliseconds)));
}
