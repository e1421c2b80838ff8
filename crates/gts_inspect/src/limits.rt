ghost use Rattle.std.specs.Prelude.{◌≡◌};

/// The first port that a program may listen on without leave of the system.
pub const FIRST_FREE_PORT: u32 = 1_024;

/// The first of the ports that Linux gives to outgoing connections, where nothing else is set.
pub const FIRST_SYSTEM_PORT: u32 = 32_768;

/// The last of these ports.
pub const LAST_SYSTEM_PORT: u32 = 60_999;

/// The limits, each with its number.
pub fn limits_are_these_numbers()
    ensures free { FIRST_FREE_PORT ≡ 1024 }
    ensures first { FIRST_SYSTEM_PORT ≡ 32768 }
    ensures last { LAST_SYSTEM_PORT ≡ 60999 }
{}
