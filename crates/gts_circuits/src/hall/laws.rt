//! A law over the definitions: the contract of a function with an empty body.
ghost use Rattle.std.specs.Prelude.{ℕ, List, Result};
ghost use Rattle.gts_circuits.specs.Cited.{Beginning, DeskTakes, Entry, Known, Outcome, SwitchFault, TakesTurn};

use gts_traits::Station;

/// The desk of a pass answers for a take what its turn did: others may have come in between, and the entry is its own.
pub fn a_desk_answers_what_its_turn_took<P: Station>()
    ensures { (b : Beginning) (c : ℕ) (out : List ℕ) (result : Result Outcome SwitchFault)
        (p q : Known (List Entry))
        → TakesTurn P.Station b c out result p q → DeskTakes b c out result p q }
{}
