//! Laws over the definitions, each the contract of a function with an empty body.

ghost use Rattle.std.specs.Prelude.{List, [], ◌++◌};
ghost use Rattle.gts_traits.specs.Cited.{Call, IsFront, Outside, SaysFront, SaysOnly};

/// From a moment to the same moment nothing is said; what was said up to a moment and from there on is one text; and so is what
/// was said up to a moment and a front of what was to be said from there on.
pub fn pieces_that_are_said_join()
    ensures nothing { (calls : List Call) → SaysOnly calls calls [] }
    ensures joined { (a b c : List Call) (x y : Outside)
        → SaysOnly a b x → SaysOnly b c y → SaysOnly a c (x ++ y) }
    ensures front { (a b c : List Call) (x y : Outside)
        → SaysOnly a b x → SaysFront b c y → SaysFront a c (x ++ y) }
{}

/// A front of a text is a front of each text that goes on with more.
pub fn a_front_stays_a_front()
    ensures { (a b : List Call) (x more : Outside) → SaysFront a b x → SaysFront a b (x ++ more) }
{}
