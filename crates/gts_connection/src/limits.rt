ghost use Rattle.std.specs.Prelude.{◌≡◌};

/// The most bytes of a capture, its end included (profile).
pub const LONGEST_CAPTURE: u64 = 1 << 40;

/// The limit, with its number.
pub fn limits_are_these_numbers()
    ensures { LONGEST_CAPTURE ≡ 1099511627776 }
{}
