ghost use Rattle.std.specs.Prelude.{[], ◌∷◌};
ghost use Rattle.std.specs.Cmp.Lexicographic.{bytes_decides};
ghost use Rattle.std.proofs.Common.{ap};

use std::hash::{Hash, Hasher};

/// A digest as a key of the index. Its bytes are hashed in one piece.
#[derive(Clone, Copy, PartialEq, Eq)]
pub struct Key {
    pub digest: [u8; 32],
}

impl Hash for Key {
    ghost hash_input = { λ key. key.digest ∷ [] };

    ghost respects_eq = { λ a b same.
        ap (λ digest. digest ∷ []) ((bytes_decides a.digest b.digest).0 same) };

    fn hash<H: Hasher>(&self, state: &mut H) {
        state.write(&self.digest);
    }
}
