ghost use Rattle.std.specs.Prelude.{◌≡◌, ◌-◌, ◌^◌, ◌++◌, length, flat_map, min};
ghost use Rattle.gts_event.specs.Items.{IsExtentOf, need_of};

use crate::values::{Bulletin, CircuitNeed, Need};

/// How much a need holds, which says how large it is as it is written. No number is above the greatest of its type.
#[derive(Clone, Copy, Debug, PartialEq, Eq)]
pub struct NeedExtent {
    /// How many bulletins.
    pub bulletins: u64,
    /// How many bytes their bodies have together.
    pub bodies: u64,
    /// How many circuits.
    pub circuits: u64,
    /// How many positions wait or are kept on them together.
    pub places: u64,
}

impl NeedExtent {
    /// How much a need holds. Takes no memory.
    pub fn of(need: &Need) -> NeedExtent
        ensures { IsExtentOf result (need_of need.now) }
    {
        NeedExtent {
            bulletins: need.bulletins.len(),
            bodies: count_bodies(need.bulletins.as_slice()),
            circuits: need.circuits.len(),
            places: count_places(need.circuits.as_slice()),
        }
    }
}

/// How many bytes the bodies of bulletins have together, up to the greatest number.
fn count_bodies(bulletins: &[Bulletin]) -> u64
    ensures { result ≡ min (length (flat_map (λ b. b.body) bulletins.now)) (2 ^ 64 - 1) }
{
    let mut bytes: u64 = 0;
    for bulletin in bulletins {
        bytes = bytes.saturating_add(bulletin.body.len());
    }
    bytes
}

/// How many positions wait or are kept on circuits together, up to the greatest number. Takes no memory.
pub fn count_places(circuits: &[CircuitNeed]) -> u64
    ensures { result ≡ min (length (flat_map (λ c. c.waiting ++ c.kept) circuits.now))
        (2 ^ 64 - 1) }
{
    let mut places: u64 = 0;
    for circuit in circuits {
        places = places
            .saturating_add(circuit.waiting.len())
            .saturating_add(circuit.kept.len());
    }
    places
}
