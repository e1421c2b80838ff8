//! Laws over the definitions, each the contract of a function with an empty body.

ghost use Rattle.std.specs.Prelude.{◌↔◌, List, ℕ, IsSome, IsTrue};
ghost use Rattle.gts_bbb.specs.Cited.{is_bbb, kind_of};

/// A group has a kind exactly where its letters are those of a group.
pub fn kinds_are_the_groups()
    ensures { (three : List ℕ) → IsSome (kind_of three) ↔ IsTrue (is_bbb three) }
{}
