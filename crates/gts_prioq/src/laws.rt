//! Laws over the definitions, each the contract of a function with an empty body.
ghost use Rattle.std.specs.Prelude.{◌≡◌, ℕ, List, [], ◌∷◌, ◌++◌, Some, length};
ghost use Rattle.gts_prioq.specs.Cited.{AllBelow, AreWaiting, Ascends, GoesNext, NothingWaits, PutsAt, TakesNext, Waiting, at_level, count_of, next_of, without};

/// What goes next, of positions that wait each on its level, is the one before which no other goes.
pub fn what_goes_next_is_first()
    ensures next { (level : ℕ → ℕ) (positions : List ℕ) (w : Waiting) (position : ℕ)
        → Ascends positions → AreWaiting level positions w → GoesNext w position
        → next_of level positions ≡ Some position }
    ensures nothing { (level : ℕ → ℕ) (positions : List ℕ) (w : Waiting)
        → AreWaiting level positions w → NothingWaits w → positions ≡ [] }
{}

/// Which positions wait after one was put or taken, and how many.
pub fn what_waits_follows()
    ensures put { (level : ℕ → ℕ) (positions : List ℕ) (old new : Waiting) (position : ℕ)
        → AreWaiting level positions old → PutsAt old new (level position) position
        → AreWaiting level (positions ++ position ∷ []) new }
    ensures taken { (level : ℕ → ℕ) (positions : List ℕ) (old new : Waiting) (position : ℕ)
        → Ascends positions → AreWaiting level positions old → TakesNext old new position
        → AreWaiting level (without position positions) new }
    ensures count { (level : ℕ → ℕ) (positions : List ℕ) (w : Waiting)
        → AreWaiting level positions w → count_of w ≡ length positions }
{}

/// Positions that wait in order go on so, and the next one to be put is above those of each level.
pub fn what_waits_stays_in_order()
    ensures put { (positions : List ℕ) (position : ℕ) → Ascends positions
        → AllBelow position positions → Ascends (positions ++ position ∷ []) }
    ensures taken { (positions : List ℕ) (position : ℕ)
        → Ascends positions → Ascends (without position positions) }
    ensures above { (level : ℕ → ℕ) (positions : List ℕ) (w : Waiting) (position l : ℕ)
        → AllBelow position positions → AreWaiting level positions w
        → AllBelow position (at_level w l) }
{}
