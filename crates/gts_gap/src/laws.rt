//! Laws over the definitions, each the contract of a function with an empty body.

ghost use Rattle.std.specs.Prelude.{◌≡◌, ℕ, ◌<◌, ◌≤◌, ◌^◌, ◌%◌, List, [], length, IsTrue, Ok};
ghost use Rattle.gts_gap.specs.Cited.{IsDigits, IsValue, Numbered, are_capitals, ask_text, cycle, digits_of, gaps, items_asked, last_run, request_at, runs_given, text_of, value_of};

/// A later number has one value, which is the one that is computed.
pub fn a_number_has_one_value()
    ensures some { (w top number : ℕ) → IsDigits w → cycle w ≤ top → number < cycle w
        → IsValue w top number (value_of w top number) }
    ensures one { (w top number value other : ℕ) → IsDigits w → cycle w ≤ top
        → IsValue w top number value → IsValue w top number other → value ≡ other }
{}

/// The text that asks for what is missing is the one line of the gaps.
pub fn the_gaps_are_asked_for_in_one_line()
    ensures { (own : List ℕ) (ns : List Numbered) → (gaps ns ≡ [] → ⊥)
        → text_of own (digits_of ns) (runs_given ns) ≡ ask_text own (digits_of ns) (gaps ns) }
{}

/// A request for numbers is read again: its items are the runs, in order.
pub fn what_is_asked_for_is_read()
    ensures { (own : List ℕ) (ns : List Numbered) → length own ≡ 4 → IsTrue (are_capitals own)
        → IsDigits (digits_of ns) → (gaps ns ≡ [] → ⊥)
        → request_at (text_of own (digits_of ns) (runs_given ns)) ≡ Ok (items_asked ns) }
{}
