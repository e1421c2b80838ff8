//! Groups by their places, each row the contract of a function with an empty body.

#![tactic(auto, unfolding(crate::specs::Segments::passing, gts_alphabet::specs::Digits::dec, gts_heading::specs::Heading::heading_text))]

ghost use Rattle.std.specs.Prelude.{◌≡◌, false, true, codes};
ghost use Rattle.gts_segments.specs.Cited.{group_at, groups_of, passing};
ghost use Rattle.gts_segments.specs.Worked.{two_noted, whole_heading};

/// Segments run from `PAA` to `PAZ`, `PBA` and so on; the last ones are `PZA` to `PZZ`.
pub fn worked_places()
    ensures first { group_at 0 ≡ codes "PAA" }
    ensures second { group_at 1 ≡ codes "PAB" }
    ensures after_z { group_at 26 ≡ codes "PBA" }
    ensures before_the_lasts { group_at 649 ≡ codes "PYZ" }
    ensures first_of_the_lasts { group_at 650 ≡ codes "PZA" }
    ensures last_of_all { group_at 675 ≡ codes "PZZ" }
{}

/// Of a set of two, the first segment and the last are noted.
pub fn worked_notes()
    ensures first { groups_of (two_noted (codes "PZB")) whole_heading 0 ≡ true }
    ensures second { groups_of (two_noted (codes "PZB")) whole_heading 1 ≡ false }
    ensures last { groups_of (two_noted (codes "PZB")) whole_heading 651 ≡ true }
    ensures another_last { groups_of (two_noted (codes "PZC")) whole_heading 651 ≡ false }
    ensures places { passing (groups_of (two_noted (codes "PZB")) whole_heading) 0 3 ≡ 1 }
{}
