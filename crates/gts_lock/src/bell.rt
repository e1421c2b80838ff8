use std::sync::Wait;
use std::sync::atomic::{AtomicU64, Ordering};
use std::time::Duration;

/// A bell that any thread rings, and at which any thread waits. Once closed it stays closed.
#[derive(Drop)]
pub struct Bell {
    // Twice the count of rings, and one more once the bell is closed.
    word: AtomicU64,
}

/// What was seen at a bell.
#[derive(Clone, Copy, Debug, PartialEq, Eq)]
pub struct Look {
    /// The bell is closed: who finds nothing to do from here on may end.
    pub closing: bool,
    /// How often it was rung. The count wraps at 2^63.
    pub rings: u64,
}

impl Bell {
    /// A bell that wasn't rung yet.
    pub fn new() -> Bell {
        Bell {
            word: AtomicU64::new(0),
        }
    }

    /// Wakes all who wait, since there may be something to do.
    pub fn ring(&self) {
        self.word.fetch_add(2, Ordering::SeqCst);
        self.word.wake_all();
    }

    /// Wakes all who wait, since nobody rings any more.
    pub fn close(&self) {
        self.word.fetch_or(1, Ordering::SeqCst);
        self.word.wake_all();
    }

    /// What there is to see. Look before looking for work, so that a ring in between isn't missed.
    pub fn look(&self) -> Look {
        let word = self.word.load(Ordering::SeqCst);
        Look {
            closing: word % 2 == 1,
            rings: word / 2,
        }
    }

    /// Sleeps until there is something that wasn't seen. It may also return for no reason.
    pub fn wait<R: Wait>(&self, rt: &R, seen: Look) {
        self.word.park(rt, low_bits(seen));
    }

    /// Sleeps until there is something that wasn't seen, and about so many milliseconds at most. It may also return for no
    /// reason.
    pub fn wait_at_most<R: Wait>(&self, rt: &R, seen: Look, milliseconds: u32) {
        let time = Duration::from_millis(u64::from(milliseconds));
        self.word.park_timeout(rt, low_bits(seen), time);
    }
}

/// What the low bits of the bell's word were when this was seen.
fn low_bits(seen: Look) -> u32 {
    let rings = (seen.rings % (1 << 31)) as u32;
    rings * 2 + u32::from(seen.closing)
}
