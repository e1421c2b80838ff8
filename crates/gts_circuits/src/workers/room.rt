use gts_lock::{Bell, Look};
use std::sync::Wait;
use std::sync::atomic::{AtomicU64, Ordering};

// So many frames go out before those are woken who wait, or so much time passes: a try that finds no room looks at all that the engine
// needs.
const FRAMES_A_TRY: u64 = 1_024;

const MILLISECONDS_A_TRY: u32 = 1_000;

// For so long who has tried in vain lets the others come first.
const MILLISECONDS_OF_GIVING_WAY: u32 = 50;

// For so long one that has a reason to try sleeps while another one tries.
const MILLISECONDS_OF_QUEUEING: u32 = 25;

// Behind so many sleeps without a reason there is a try all the same: memory that has come back isn't told of.
const SLEEPS_WITHOUT_A_TRY: u32 = 30;

/// Where receivers sleep that have a message for which there is no room, until draws have gone out, or the engine has stopped. One of them
/// tries at a time, and where it finds room the others follow. Where it finds none, each of the others tries too: it may want less.
/// Nothing is claimed of it.
#[derive(Drop)]
pub struct RoomBell {
    bell: Bell,
    // How many receivers wait for room.
    waiting: AtomicU64,
    // How many frames have gone out.
    sent: AtomicU64,
    // 1 while one of them tries.
    tried: AtomicU64,
}

/// What a receiver has seen before a try. There is a reason for another one once there is something else to see.
#[derive(Clone, Copy, PartialEq, Eq)]
pub struct Seen {
    look: Look,
    sent: u64,
}

/// How a receiver waits for room.
#[derive(Clone, Copy)]
pub enum Waits {
    /// It doesn't.
    No,
    /// It has come, and had seen this before it tried.
    Came(Seen),
    /// It is the one of those who wait that tries, and had seen this before its last try.
    Tries(Seen),
}

impl RoomBell {
    /// Nobody waits yet.
    pub fn new() -> RoomBell {
        RoomBell {
            bell: Bell::new(),
            waiting: AtomicU64::new(0),
            sent: AtomicU64::new(0),
            tried: AtomicU64::new(0),
        }
    }

    /// A receiver that waited so waits no more: its message found room, or none is wanted any more. Where it was the one that tried, the
    /// others may.
    pub fn go(&self, waits: Waits) {
        match waits {
            Waits::No => {}
            Waits::Came(_) => {
                self.waiting.fetch_sub(1, Ordering::SeqCst);
            }
            Waits::Tries(_) => {
                self.waiting.fetch_sub(1, Ordering::SeqCst);
                self.tried.store(0, Ordering::SeqCst);
                self.wake();
            }
        }
    }

    // What there is to see. Look before a message is tried, so that a draw in between isn't missed.
    fn look(&self) -> Seen {
        Seen {
            look: self.bell.look(),
            sent: self.sent.load(Ordering::SeqCst),
        }
    }

    /// A receiver that waits so is to try once more, and answers how it waits from then on. One that didn't wait comes: draws are told to
    /// it. One that did sleeps until it is the one that may try.
    pub fn wait<R: Wait>(&self, rt: &R, waits: Waits) -> Waits {
        match waits {
            Waits::No => {
                self.waiting.fetch_add(1, Ordering::SeqCst);
                Waits::Came(self.look())
            }
            Waits::Came(seen) => {
                self.sleep(rt, seen);
                Waits::Tries(self.look())
            }
            Waits::Tries(seen) => {
                self.give_way(rt, seen);
                self.sleep(rt, seen);
                Waits::Tries(self.look())
            }
        }
    }

    // Sleeps until this receiver is the one that may try. There may be room for its message since it was looked at.
    fn sleep<R: Wait>(&self, rt: &R, seen: Seen) {
        let mut last = seen.look;
        let mut sleeps = 0u32;
        for _ in rt.forever() {
            let has_reason = self.look() != seen || sleeps >= SLEEPS_WITHOUT_A_TRY;
            if has_reason && self.tried.swap(1, Ordering::SeqCst) == 0 {
                return;
            }
            if has_reason {
                self.bell.wait_at_most(rt, last, MILLISECONDS_OF_QUEUEING);
            } else {
                self.bell.wait_at_most(rt, last, MILLISECONDS_A_TRY);
                sleeps = sleeps.saturating_add(1);
            }
            last = self.bell.look();
        }
    }

    // This receiver has tried in vain. So that there aren't too many tries, nobody tries for a while; then the others come first.
    fn give_way<R: Wait>(&self, rt: &R, seen: Seen) {
        self.bell.wait_at_most(rt, seen.look, MILLISECONDS_A_TRY);
        self.tried.store(0, Ordering::SeqCst);
        if self.waiting.load(Ordering::SeqCst) > 1 {
            let last = self.bell.look();
            self.bell.wait_at_most(rt, last, MILLISECONDS_OF_GIVING_WAY);
        }
    }

    /// So many frames have gone out. Those who wait are woken where that makes another so many that there is to be a try.
    pub fn sent(&self, frames: u64) {
        let before = self.sent.fetch_add(frames, Ordering::SeqCst);
        if before / FRAMES_A_TRY != before.wrapping_add(frames) / FRAMES_A_TRY {
            self.wake();
        }
    }

    /// There may be room, or there never will be. Wakes those who wait.
    pub fn wake(&self) {
        if self.waiting.load(Ordering::SeqCst) > 0 {
            self.bell.ring();
        }
    }
}
