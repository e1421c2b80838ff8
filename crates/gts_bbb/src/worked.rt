//! Groups read letter for letter, each the contract of a function with an empty body.

ghost use Rattle.std.specs.Prelude.{◌≡◌, Some, None, codes};
ghost use Rattle.gts_bbb.specs.Bbb.{kind_of};

use crate::Bbb;

/// The kinds of groups by their letters.
pub fn worked_groups()
    ensures first { kind_of (codes "PAA") ≡ Some (Bbb.Segment 0) }
    ensures second { kind_of (codes "PAB") ≡ Some (Bbb.Segment 1) }
    ensures after_z { kind_of (codes "PBA") ≡ Some (Bbb.Segment 26) }
    ensures last_a { kind_of (codes "PZA") ≡ Some (Bbb.LastSegment 65) }
    ensures last_b { kind_of (codes "PZB") ≡ Some (Bbb.LastSegment 66) }
    ensures delayed { kind_of (codes "RRA") ≡ Some (Bbb.Delayed 65) }
    ensures correction { kind_of (codes "CCA") ≡ Some (Bbb.Correction 65) }
    ensures amendment { kind_of (codes "AAB") ≡ Some (Bbb.Amendment 66) }
    ensures digit { kind_of (codes "RR1") ≡ None }
    ensures unknown { kind_of (codes "COR") ≡ None }
{}
