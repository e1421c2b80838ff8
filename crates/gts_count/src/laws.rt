//! Laws of what is counted, each the contract of a function with an empty body.
ghost use Rattle.std.specs.Prelude.{◌≡◌, ℕ, ◌≤◌, List};
ghost use Rattle.gts_count.specs.Cited.{Accepted, Directory, HasWindow, Heard, Kind, State, after, arrived, counted_in, counted_with, empty, heard_of, outcome};

/// An accepted message joins the bulletins that are counted, of which those stay that are then among the last positions. Where
/// each recent position has its bulletin, it has so again.
pub fn an_accepted_message_joins_the_window()
    ensures empty { (d : Directory) → HasWindow d (empty d) }
    ensures joins { (d : Directory) (s : State) (c : ℕ) (kind : Kind) (m : List ℕ) (p n : ℕ)
        → outcome d s (Heard c kind m) ≡ Accepted p n → counted_in d (after d s (Heard c kind m))
        ≡ counted_with d s (arrived p (heard_of c m)) }
    ensures goes_on { (d : Directory) (s : State) (c : ℕ) (kind : Kind) (m : List ℕ) (p n : ℕ)
        → 1 ≤ d.window → HasWindow d s → outcome d s (Heard c kind m) ≡ Accepted p n
        → HasWindow d (after d s (Heard c kind m)) }
{}
