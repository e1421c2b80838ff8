//! Sets of circuits, a bit for each circuit.

ghost use Rattle.std.specs.Prelude.{◌≡◌, ◌==◌, ◌-◌, ◌<◌, ◌≤◌, ◌^◌, ℕ, bit_or, count_ones, nat_lt};
ghost use Rattle.gts_directory.specs.Cited.{bit_at};

use gts_alphabet::MOST_CIRCUITS;
use std::marker::Model;

// There is a bit for each circuit.
const _: () = prove!(MOST_CIRCUITS <= u64::BITS as usize);

/// A set of circuits: bit 0 is the first circuit, bit 1 the second, and so on.
#[derive(Clone, Copy, Debug, PartialEq, Eq)]
pub struct CircuitSet {
    bits: u64,
}

impl Model for CircuitSet {
    ghost use Rattle.std.specs.Prelude.{ℕ};

    ghost Value = { ℕ };

    ghost view = { λ set. set.bits };

    ghost inverse = { λ bits. record { bits = bits } };
}

impl CircuitSet {
    /// No circuit.
    pub const NONE: CircuitSet = CircuitSet { bits: 0 };

    /// Whether a circuit is in the set.
    pub fn has(self, circuit: usize) -> bool
        requires { circuit < MOST_CIRCUITS }
        ensures { result ≡ (bit_at self circuit == 1) }
    {
        (self.bits >> circuit) % 2 == 1
    }

    /// The set with a circuit more, if it isn't in it yet.
    pub fn with(self, circuit: usize) -> CircuitSet
        requires { circuit < MOST_CIRCUITS }
        ensures { result ≡ bit_or self (2 ^ circuit) }
    {
        CircuitSet {
            bits: self.bits | 1 << circuit,
        }
    }

    /// The circuits that are in one of two sets, or in both.
    pub fn union(self, other: CircuitSet) -> CircuitSet
        ensures { result ≡ bit_or self other }
    {
        CircuitSet {
            bits: self.bits | other.bits,
        }
    }

    /// The circuits of the set that aren't in another one.
    pub fn without(self, other: CircuitSet) -> CircuitSet
        ensures { (k : ℕ) → bit_at result k ≡ bit_at self k - bit_at other k }
    {
        CircuitSet {
            bits: self.bits & !other.bits,
        }
    }

    /// Whether the set has none but the first so many circuits.
    pub fn is_below(self, count: usize) -> bool
        requires { count ≤ MOST_CIRCUITS }
        ensures { result ≡ nat_lt self (2 ^ count) }
    {
        count == MOST_CIRCUITS || self.bits < 1 << count
    }

    /// How many circuits it has.
    pub fn count(self) -> u32
        ensures count { result ≡ count_ones self }
        ensures few { result ≤ MOST_CIRCUITS }
    {
        self.bits.count_ones()
    }
}
