ghost use Rattle.std.specs.Prelude.{◌≡◌, ◌+◌, ◌≤◌, ◌++◌, [], length};

use std::marker::Model;

/// The most bytes of a short piece.
pub const LONGEST_PIECE: usize = 96;

/// A short text that is made before it is said, or handed on. Contracts see the list of its bytes.
#[derive(Drop)]
pub struct Piece {
    bytes: [u8; LONGEST_PIECE],
    count: usize,
}

impl Model for Piece {
    ghost use Rattle.std.specs.Prelude.{List, ℕ, ◌≤◌, take};
    ghost use Rattle.gts_traits.specs.declared.piece.TheConstants.{LONGEST_PIECE};

    ghost Value = { List ℕ };

    ghost view = { λ p. take p.count p.bytes };

    ghost invariant = { λ p. p.count ≤ LONGEST_PIECE };
}

impl Piece {
    /// A piece without bytes.
    pub fn new() -> Piece
        ensures { result ≡ [] }
    {
        Piece {
            bytes: [0; LONGEST_PIECE],
            count: 0,
        }
    }

    /// Its bytes.
    pub fn bytes(&self) -> &[u8]
        ensures { result.now ≡ self.now }
    {
        &self.bytes[..self.count]
    }

    /// Writes bytes behind those that are there.
    pub fn append(&mut self, bytes: &[u8])
        requires { length self.old + length bytes.now ≤ LONGEST_PIECE }
        ensures { self.new ≡ self.old ++ bytes.now }
    {
        let end = self.count + bytes.len();
        self.bytes[self.count..end].copy_from_slice(bytes);
        self.count = end;
    }
}
