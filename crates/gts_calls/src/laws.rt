//! Laws of what a desk has seen, each the contract of a function with an empty body.
ghost use Rattle.std.specs.Prelude.{◌≡◌, List, ◌+◌, ◌∷◌, ◌++◌};
ghost use Rattle.gts_calls.specs.Cited.{AddsAny, AddsEntries, Entry, GoesOn, IsSpent, PassesBetween, Seen, frames, own, own_frames, state_at, under};

/// What a turn adds are entries of the desk's own, and it counts as one.
pub fn each_turn_adds_own_entries()
    ensures adds { (old new : Seen) (more : List Entry)
        → AddsEntries old more new → own new ≡ own old ++ more }
    ensures any { (old new : Seen) (more : List Entry)
        → AddsAny old more new → own new ≡ own old ++ more }
    ensures counts { (old new : Seen) (more : List Entry)
        → AddsEntries old more new → new.turns ≡ old.turns + 1 }
{}

/// The frames of a desk's own draws get those of the entries that it adds, from the state before these on, whatever entries of
/// others came in between.
pub fn own_frames_are_those_of_own_entries()
    ensures { (old new : Seen) (more : List Entry) → (adds : AddsEntries old more new)
        → own_frames new ≡ own_frames old ++ frames old.directory
        (state_at old (old.history ++ adds.others)) old.name (under old.name more) }
{}

/// A desk that found no turn adds nothing.
pub fn a_desk_that_is_spent_adds_nothing()
    ensures own { (old new : Seen) → IsSpent old new → own new ≡ own old }
    ensures frames { (old new : Seen) → IsSpent old new → own_frames new ≡ own_frames old }
{}

/// With each call the history goes on, and so it does over many calls.
pub fn a_desk_goes_on_with_each_call()
    ensures stays { (d : Seen) → GoesOn d d }
    ensures adds { (old new : Seen) (more : List Entry)
        → AddsEntries old more new → GoesOn old new }
    ensures any { (old new : Seen) (more : List Entry) → AddsAny old more new → GoesOn old new }
    ensures spent { (old new : Seen) → IsSpent old new → GoesOn old new }
    ensures chains { (a b c : Seen) → GoesOn a b → GoesOn b c → GoesOn a c }
{}

/// A turn that adds several entries leaves the same as two, of which the first adds those in front.
pub fn a_turn_is_like_two()
    ensures { (old new : Seen) (front back : List Entry) (entry : Entry)
        → AddsAny old (front ++ entry ∷ back) new → PassesBetween old front (entry ∷ back) new }
{}
