ghost use Rattle.std.specs.Prelude.{◌≡◌};

/// How many levels there are (profile). Level 1 goes first.
pub const LEVELS: usize = 4;

/// The limits, each with its number.
pub fn limits_are_these_numbers()
    ensures levels { LEVELS ≡ 4 }
{}
