ghost use Rattle.std.specs.Prelude.{◌≡◌, ◌*◌, ◌≤◌, ◌<◌, length, true, false, IfOk, slice_set, slice_index_or};

use gts_alphabet::NoMemory;
use std::alloc::Global;
use std::marker::Model;

/// Places that are set or clear, a bit each in words of 64. Contracts see them as a list of what each place is.
#[derive(Drop)]
pub(crate) struct Bits {
    words: Vec<u64>,
}

impl Model for Bits {
    ghost use Rattle.std.specs.Prelude.{List, Bool};
    ghost use Rattle.gts_gap.specs.Bits.{bits_in};

    ghost Value = { List Bool };

    ghost view = { λ b. bits_in b.words.items };
}

impl Bits {
    /// The places of so many words, all of them clear.
    pub(crate) fn new(alloc: Global, words: usize) -> Result<Bits, NoMemory>
        ensures { IfOk result (λ bits. length bits ≡ 64 * words) }
    {
        Ok(Bits {
            words: vec![in alloc; 0; words]?,
        })
    }

    /// Whether a place is set.
    pub(crate) fn test(&self, place: u32) -> bool
        requires { place < length self.now }
        ensures { result ≡ slice_index_or self.now place false }
    {
        (self.words[(place / 64) as usize] >> (place % 64)) % 2 == 1
    }

    /// Sets a place.
    pub(crate) fn set(&mut self, place: u32)
        requires { place < length self.old }
        ensures { self.new ≡ slice_set self.old place true }
    {
        self.words[(place / 64) as usize] |= 1 << (place % 64);
    }

    /// Clears a place.
    pub(crate) fn clear(&mut self, place: u32)
        requires { place < length self.old }
        ensures { self.new ≡ slice_set self.old place false }
    {
        self.words[(place / 64) as usize] &= !(1 << (place % 64));
    }
}
