//! The channels on which a station says: one for operators, and one for each circuit.
ghost use Rattle.std.specs.Prelude.{◌≡◌, ◌+◌, ◌<◌, IfSome, IfNone};
ghost use Rattle.gts_alphabet.specs.declared.limits.TheConstants.{CHANNELS, MOST_CIRCUITS};

use std::marker::Model;

/// A channel of a station. Contracts see it as its number.
#[derive(Clone, Copy, Debug, PartialEq, Eq)]
pub struct Channel {
    number: u32,
}

impl Model for Channel {
    ghost use Rattle.std.specs.Prelude.{ℕ, ◌<◌};
    ghost use Rattle.gts_alphabet.specs.declared.limits.TheConstants.{CHANNELS};

    ghost Value = { ℕ };

    ghost view = { λ channel. channel.number };

    ghost inverse = { λ number. record { number = number } };

    ghost invariant = { λ channel. channel.number < CHANNELS };
}

impl Channel {
    /// What operators read: receipts and reports.
    pub const OPERATOR: Channel = Channel { number: 0 };

    /// The frames of circuit `c`, in a replay.
    pub fn of_circuit(c: u32) -> Channel
        requires { c < MOST_CIRCUITS }
        ensures { result ≡ c + 1 }
    {
        Channel { number: c + 1 }
    }

    /// The circuit whose frames go out on it; None for what operators read.
    pub fn circuit(self) -> Option<u32>
        ensures some { IfSome result (λ c. self ≡ c + 1) }
        ensures none { IfNone result (self ≡ 0) }
    {
        self.number.checked_sub(1)
    }

    /// Its number, from 0.
    pub fn number(self) -> u32
        ensures value { result ≡ self }
        ensures bound { result < CHANNELS }
    {
        self.number
    }
}
