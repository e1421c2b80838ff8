//! Rows computed on literal numbers, each the contract of a function with an empty body.

ghost use Rattle.std.specs.Prelude.{◌≡◌, true, false, [], ◌∷◌, Some, None};
ghost use Rattle.gts_prioq.specs.Cited.{at_level, count_of, goes_before, next_of, spare, without};
ghost use Rattle.gts_prioq.specs.Worked.{worked_level, four_waiting};

/// Of four positions those of level 1 go first, in their order, and then those of level 3.
pub fn worked_order()
    ensures first { next_of worked_level (0 ∷ 1 ∷ 2 ∷ 3 ∷ []) ≡ Some 1 }
    ensures second { next_of worked_level (0 ∷ 2 ∷ 3 ∷ []) ≡ Some 3 }
    ensures third { next_of worked_level (0 ∷ 2 ∷ []) ≡ Some 0 }
    ensures none { next_of worked_level [] ≡ None }
    ensures before { goes_before worked_level 3 0 ≡ true }
    ensures not_before_itself { goes_before worked_level 1 1 ≡ false }
    ensures left { without 1 (0 ∷ 1 ∷ 2 ∷ []) ≡ 0 ∷ 2 ∷ [] }
{}

/// The same positions by their levels, which are counted from 1.
pub fn worked_waiting()
    ensures first { at_level four_waiting 1 ≡ 1 ∷ 3 ∷ [] }
    ensures second { at_level four_waiting 2 ≡ [] }
    ensures third { at_level four_waiting 3 ≡ 0 ∷ 2 ∷ [] }
    ensures no_level { at_level four_waiting 0 ≡ [] }
    ensures past_the_last { at_level four_waiting 5 ≡ [] }
    ensures room { spare four_waiting 2 ≡ 7 }
    ensures count { count_of four_waiting ≡ 4 }
{}
