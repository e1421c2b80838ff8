//! The files of a station: the two of records, in one of which the journal stands, and the selector, which names that one.
ghost use Rattle.std.specs.Prelude.{◌≡◌, ◌-◌, ◌<◌};

use std::marker::Model;

/// One of the three files of a station.
#[derive(Clone, Copy, Debug, PartialEq, Eq)]
pub struct JournalFile {
    number: u32,
}

impl Model for JournalFile {
    ghost use Rattle.std.specs.Prelude.{ℕ, ◌<◌};

    ghost Value = { ℕ };

    ghost view = { λ file. file.number };

    ghost inverse = { λ number. record { number = number } };

    ghost invariant = { λ file. file.number < 3 };
}

impl JournalFile {
    /// The first file of records.
    pub const FIRST: JournalFile = JournalFile { number: 0 };

    /// The second file of records.
    pub const SECOND: JournalFile = JournalFile { number: 1 };

    /// The selector.
    pub const SELECTOR: JournalFile = JournalFile { number: 2 };

    /// The other file of records.
    pub fn other(self) -> JournalFile
        requires { self < 2 }
        ensures { result ≡ 1 - self }
    {
        JournalFile {
            number: 1 - self.number,
        }
    }

    /// The number of the file, from 0.
    pub fn number(self) -> u32
        ensures value { result ≡ self }
        ensures bound { result < 3 }
    {
        self.number
    }
}
