//! Laws over all directories, each the contract of a function with an empty body.

ghost use Rattle.std.specs.Prelude.{IsTrue};
ghost use Rattle.gts_migrate.specs.Cited.{Directory, EachGoesOn, Need, is_sound};

/// What a circuit goes on with under its new row: as many draws; what waits, unless it is closed; and the last of the draws that were
/// kept, as many as the row keeps, none where its numbers have other digits. Nothing is owed.
pub fn a_circuit_goes_on()
    ensures { (new old : Directory) (n : Need)
        → IsTrue (is_sound old n) → EachGoesOn new old n }
{}
