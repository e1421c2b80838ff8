ghost use Rattle.std.specs.Prelude.{◌≡◌};

/// The bytes of a journal in front of its first gate: the magic and the mark (profile).
pub const HEADER: usize = 40;

/// The bytes of a seal (profile).
pub const SEAL: usize = 32;

/// The bytes of the journal that an accepted bulletin takes beside its body and its seal: sixteen in front of it, and a gate
/// (profile).
pub const BESIDE_BODY: u64 = 17;

/// The bytes of a journal that has a checkpoint alone, beside that and its seal: header, and two gates (profile).
pub const BESIDE_CHECKPOINT: u64 = 42;

/// The sizes, each with its number.
pub fn sizes_are_these_numbers()
    ensures header { HEADER ≡ 40 }
    ensures seal { SEAL ≡ 32 }
    ensures body { BESIDE_BODY ≡ 17 }
    ensures checkpoint { BESIDE_CHECKPOINT ≡ 42 }
{}
