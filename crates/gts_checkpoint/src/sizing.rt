ghost use Rattle.std.specs.Prelude.{◌≡◌, ◌-◌, ◌^◌, length, min};
ghost use Rattle.gts_event.specs.Items as items;
ghost use Rattle.gts_checkpoint.specs.Cited.{IsExtentOf, Need as NeedOf, checkpoint_text};

use crate::heads::{FRONT, HEAD};
use gts_event::{Need, NeedExtent};

/// The size of a checkpoint of a need that holds so much, or the greatest number where it would be more.
pub fn size_of(extent: NeedExtent) -> u64
    ensures { (n : NeedOf) → IsExtentOf extent n
        → result ≡ min (length (checkpoint_text n)) (2 ^ 64 - 1) }
{
    let bulletins = extent
        .bulletins
        .saturating_mul(HEAD as u64)
        .saturating_add(extent.bodies);
    let circuits = extent
        .circuits
        .saturating_mul(HEAD as u64)
        .saturating_add(extent.places.saturating_mul(8));
    bulletins
        .saturating_add(circuits)
        .saturating_add(FRONT as u64)
}

/// The size of a checkpoint of this need, or the greatest number where it would be more.
pub fn size(need: &Need) -> u64
    ensures { result ≡ min (length (checkpoint_text (items.need_of need.now))) (2 ^ 64 - 1) }
{
    size_of(NeedExtent::of(need))
}
