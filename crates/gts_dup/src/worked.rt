//! Rows computed on literal pairs, each the contract of a function with an empty body.

ghost use Rattle.std.specs.Prelude.{◌≡◌, true, false, [], ◌∷◌, Some, None};
ghost use Rattle.gts_dup.specs.Window.{latest_below, is_noted, recent_pairs};
ghost use Rattle.gts_dup.specs.Worked.{sevens, eights, three_noted, with_a_gap};

/// Of three pairs two have the first digest: the later one is found, unless its position is too high.
pub fn worked_latest()
    ensures later { latest_below sevens 10 three_noted ≡ Some 1 }
    ensures earlier { latest_below sevens 1 three_noted ≡ Some 0 }
    ensures too_high { latest_below sevens 0 three_noted ≡ None }
    ensures other { latest_below eights 10 three_noted ≡ Some 2 }
    ensures unknown { latest_below (9 ∷ []) 10 three_noted ≡ None }
    ensures noted { is_noted three_noted sevens 1 ≡ true }
    ensures not_noted { is_noted three_noted sevens 2 ≡ false }
{}

/// A window of two keeps the pairs of the last two positions, however many these are.
pub fn worked_window()
    ensures kept { recent_pairs 2 3 three_noted ≡ (sevens, 1) ∷ (eights, 2) ∷ [] }
    ensures gone { latest_below sevens 1 (recent_pairs 2 3 three_noted) ≡ None }
    ensures gap { recent_pairs 2 6 with_a_gap ≡ (eights, 5) ∷ [] }
    ensures wider { recent_pairs 6 6 with_a_gap ≡ with_a_gap }
{}
