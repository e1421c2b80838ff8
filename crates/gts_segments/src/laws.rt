//! Laws over the definitions, each the contract of a function with an empty body.

ghost use Rattle.std.specs.Prelude.{◌≡◌, ◌+◌, ◌<◌, ℕ, Bool, List, IsTrue, Some};
ghost use Rattle.gts_segments.specs.Cited.{IsComplete, IsMissing, group_at, is_segment_group, kind_of, passing};

use crate::groups::{GROUPS, LETTERS, PLACES};
use gts_bbb::Bbb;

/// The groups at their places are those of segments, the last ones behind all others, and there are no more.
pub fn groups_stand_at_their_places()
    ensures segments { (place : ℕ) → place < PLACES
        → kind_of (group_at place) ≡ Some (Bbb.Segment place) }
    ensures lasts { (letter : ℕ) → letter < LETTERS
        → kind_of (group_at (PLACES + letter)) ≡ Some (Bbb.LastSegment (65 + letter)) }
    ensures all { (letters : List ℕ) → IsTrue (is_segment_group (Some letters))
        → (place : ℕ) × (place < GROUPS) × (letters ≡ group_at place) }
{}

/// A set that is whole has one number of segments, which are all that is noted of it, and isn't missing.
pub fn a_whole_set_is_whole_in_one_way()
    ensures one { (p : ℕ → Bool) (k l : ℕ) → IsComplete p k → IsComplete p l → k ≡ l }
    ensures all { (p : ℕ → Bool) (k : ℕ) → IsComplete p k → passing p 0 GROUPS ≡ k + 1 }
    ensures there { (p : ℕ → Bool) (k : ℕ) → IsComplete p k → IsMissing p → ⊥ }
{}
