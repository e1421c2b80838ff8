ghost use Rattle.std.specs.Prelude.{◌≡◌};

/// The most turns that a hall has.
pub const MOST_TURNS: u64 = 1 << 62;

/// The limits, each with its number.
pub fn limits_are_these_numbers()
    ensures turns { MOST_TURNS ≡ 4611686018427387904 }
{}
