ghost use Rattle.std.specs.Prelude.{◌≡◌};

/// The most bytes of a message, from SOH to ETX inclusive (profile).
pub const LONGEST_MESSAGE: usize = 500_000;

/// The most bytes that may stand in front of a body: SOH, the line end, a number of five digits, and the line end.
const LONGEST_START: usize = 12;

/// The most bytes of a body, from the heading to ETX inclusive: with a number of five digits it still fits a message.
pub const LONGEST_BODY: usize = LONGEST_MESSAGE - LONGEST_START;

/// The bytes of a frame in front of its message: eight digits of its length, and two letters of its type (profile).
pub const FRAME_HEAD: usize = 10;

/// The most bytes of a frame.
pub const LONGEST_FRAME: usize = FRAME_HEAD + LONGEST_MESSAGE;

/// The most circuits that a switch has (profile).
pub const MOST_CIRCUITS: usize = 64;

/// The channels of what the switch says: one for receipts and reports, and one for each circuit.
pub const CHANNELS: usize = MOST_CIRCUITS + 1;

/// The limits, each with its number.
pub fn limits_are_these_numbers()
    ensures message { LONGEST_MESSAGE ≡ 500000 }
    ensures body { LONGEST_BODY ≡ 499988 }
    ensures head { FRAME_HEAD ≡ 10 }
    ensures frame { LONGEST_FRAME ≡ 500010 }
    ensures circuits { MOST_CIRCUITS ≡ 64 }
    ensures channels { CHANNELS ≡ 65 }
{}
