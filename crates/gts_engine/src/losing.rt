ghost use Rattle.std.specs.Prelude.{◌≡◌, ◌<◌, length, None};
ghost use Rattle.gts_engine.specs.Cited.{Answers, IsIdleAnswer, IsSound, Lost};

use crate::parts::EngineParts;
use crate::receipts::say_receipt;
use crate::steps::make_room;
use gts_event::{LONGEST_RECEIPT, Outcome, SwitchFault};
use gts_frame::FrameField;
use gts_traits::Station;

/// Synchronisation was lost on circuit `c`, in this field of a frame: the receipt of that is said behind what was gathered. Takes no
/// memory.
pub fn lose<P: Station>(
    parts: &mut EngineParts<P>,
    c: u32,
    field: FrameField,
) -> Result<Outcome, SwitchFault>
    requires going { parts.old.stopped ≡ None }
    requires sound { IsSound P.Station parts.old }
    requires circuit { c < length parts.old.directory.circuits }
    ensures answered { Answers P.Station (Lost c field) result parts.old parts.new }
    ensures active { IsIdleAnswer result → ⊥ }
{
    make_room(parts, 0, LONGEST_RECEIPT)?;
    let outcome = Outcome::LineLost(field);
    say_receipt(parts, c, &outcome, None)?;
    Ok(outcome)
}
