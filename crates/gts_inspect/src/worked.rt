//! Worked rows of the definitions, each the contract of a function with an empty body.

#![tactic(auto, unfolding(gts_alphabet::specs::Digits::dec))]

ghost use Rattle.gts_inspect.specs.Worked as rows;

/// Of a directory as most are nothing is odd, and nothing of the ports of a circuit that is closed.
pub fn nothing_is_odd_of_a_usual_directory()
    ensures { rows.NothingOdd }
{}

/// What is odd of a circuit is told.
pub fn what_is_odd_of_a_circuit_is_told()
    ensures rows { rows.OddRows }
    ensures ports { rows.OddPorts }
{}

/// What is odd of a rule is told.
pub fn what_is_odd_of_a_rule_is_told()
    ensures odd { rows.OddRules }
    ensures usual { rows.NotCovered }
{}

/// A bulletin goes to the circuits of all rules that match it.
pub fn a_bulletin_goes_by_all_rules_that_match()
    ensures { rows.Routes }
{}
