//! What a need comes to under a directory that takes over from its own: laws, the contracts of functions with an empty body.

ghost use Rattle.std.specs.Prelude.{◌≡◌, ◌<◌, [], ℕ, List, length, slice_get, Some, IsTrue};
ghost use Rattle.gts_recovery.specs.Cited.{AreRows, Bulletin, Circuit, Directory, Entry, IsHeld, IsOrdered, Knows, Need, State, TakesOver, after_all, begun, drawn, draws, due, goes_over, is_sound, need, on_circuit, restarted, waiting};

/// Under a directory that takes over from its own, a sound need goes on: it begins a state that a history can have, so that its
/// need there is sound; the state is the same where the journal was opened again before; and as many draws are due.
pub fn a_need_goes_on_under_a_new_directory()
    ensures held { (new old : Directory) (n : Need) → TakesOver new old → IsTrue (is_sound old n)
        → IsHeld new (goes_over new old n) }
    ensures sound { (new old : Directory) (n : Need) → TakesOver new old → IsTrue (is_sound old n)
        → IsTrue (is_sound new (need new (goes_over new old n))) }
    ensures restarted { (new old : Directory) (s : State)
        → goes_over new old (need old (restarted old s)) ≡ goes_over new old (need old s) }
    ensures due { (new old : Directory) (s : State) → TakesOver new old → IsOrdered old s
        → due (goes_over new old (need old s)) ≡ due s }
{}

/// What stays of each circuit of the old directory under one that takes over: what waits, waits, in its order, by whatever rules
/// it came there; as many were drawn; where numbers have the same digits, each draw that was known keeps its index and its
/// position, and else none is known; and nothing is owed until the journal is opened.
pub fn what_a_circuit_had_goes_on()
    ensures waiting { (new old : Directory) (n : Need) (c : ℕ) → TakesOver new old
        → IsTrue (is_sound old n) → c < length old.circuits
        → waiting (on_circuit (goes_over new old n) c) ≡ waiting (on_circuit (begun n) c) }
    ensures draws { (new old : Directory) (n : Need) (c : ℕ) → TakesOver new old
        → IsTrue (is_sound old n) → c < length old.circuits
        → draws (on_circuit (goes_over new old n) c) ≡ draws (on_circuit (begun n) c) }
    ensures same_digits { (new old : Directory) (n : Need) (c : ℕ) (row next : Circuit)
        → AreRows old new c row next → next.digits ≡ row.digits → IsTrue (is_sound old n)
        → drawn (on_circuit (goes_over new old n) c) ≡ drawn (on_circuit (begun n) c) }
    ensures other_digits { (new old : Directory) (n : Need) (c : ℕ) (row next : Circuit)
        → AreRows old new c row next → (next.digits ≡ row.digits → ⊥) → IsTrue (is_sound old n)
        → drawn (on_circuit (goes_over new old n) c) ≡ [] }
    ensures unowed { (new old : Directory) (n : Need) (c : ℕ)
        → (on_circuit (goes_over new old n) c).owed ≡ [] }
{}

/// What was known as a duplicate is one under the new directory too, whatever follows, as long as its position is among the last
/// `window` of that one: where that is greater, what is known stays known.
pub fn what_was_known_stays_known()
    ensures { (new old : Directory) (n : Need) (entries : List Entry) (b : Bulletin) (i : ℕ)
        → slice_get n.bulletins i ≡ Some b
        → Knows new (after_all new (goes_over new old n) entries) b }
{}
