ghost use Rattle.std.specs.Prelude.{◌<◌};

use crate::bell::Bell;
use gts_alphabet::MOST_CIRCUITS;
use std::array;
use std::sync::atomic::{AtomicU64, Ordering};

// A bit for each circuit.
const _: () = prove!(MOST_CIRCUITS <= u64::BITS as usize);

/// A bell for each circuit, and which of them are to be rung. Who finds that there is something to do on a circuit marks it, and rings
/// later, where that keeps nobody waiting.
#[derive(Drop)]
pub struct Bells {
    each: [Bell; MOST_CIRCUITS],
    // Bit c is set where circuit c is marked.
    marked: AtomicU64,
}

impl Bells {
    /// Bells that weren't rung yet, of which none is marked.
    pub fn new() -> Bells {
        Bells {
            each: array::from_fn(|_| Bell::new()),
            marked: AtomicU64::new(0),
        }
    }

    /// The bell of circuit `c`.
    pub fn bell(&self, c: u32) -> &Bell
        requires { c < MOST_CIRCUITS }
    {
        &self.each[c as usize]
    }

    /// There may be something to do on circuit `c`: its bell is to be rung. Wakes nobody.
    pub fn mark(&self, c: u32)
        requires { c < MOST_CIRCUITS }
    {
        self.marked.fetch_or(1 << c, Ordering::SeqCst);
    }

    /// Rings the bells that are marked, by whomever they were, and takes the marks away.
    pub fn ring_marked(&self) {
        let marked = self.marked.swap(0, Ordering::SeqCst);
        for (c, bell) in self.each.iter().enumerate() {
            if marked >> c & 1 == 1 {
                bell.ring();
            }
        }
    }

    /// Rings all bells.
    pub fn ring_all(&self) {
        for bell in self.each.iter() {
            bell.ring();
        }
    }

    /// Closes all bells.
    pub fn close(&self) {
        for bell in self.each.iter() {
            bell.close();
        }
    }
}
