ghost use Rattle.std.specs.Prelude.{◌≡◌, ℕ, ◌<◌, ◌≤◌, length};
ghost use Rattle.gts_calls.specs.Calls.{HasCallCause, IsAnswered, IsSettling, Standing};
ghost use Rattle.gts_calls.specs.Cited.Below.{Heard, LONGEST_MESSAGE, Lost};
ghost use Rattle.gts_calls.specs.Going.{IsHeard};

use crate::Switch;
use gts_event::{Outcome, SwitchFault};
use gts_frame::{FrameField, Kind};
use std::alloc::Global;

/// What a feed asks of a switch: to hear messages and losses, and to settle what it gathered. Each switch does so; a switch may, too,
/// that makes room for a message by a compaction in front of it.
pub trait Listens {
    /// What a history of it begins with.
    ghost Origin: { Type 0 };

    /// What it stands for.
    ghost meanings: { Standing Origin Self };

    /// How often a call on a file has failed. The count never falls.
    ghost disk_faults: { Self → ℕ };

    /// How often saying has failed. The count never falls.
    ghost say_faults: { Self → ℕ };

    /// A message came whole on circuit `c`, in a frame of this type. What it does may be gathered.
    fn listen(
        &mut self,
        alloc: Global,
        c: u32,
        kind: Kind,
        message: &[u8],
    ) -> Result<Outcome, SwitchFault>
        requires circuit { c < length (meanings.directory self.old).circuits }
        requires short { length message.now ≤ LONGEST_MESSAGE }
        ensures heard { IsHeard meanings (Heard c kind message.now) result self.old self.new }
        ensures cause { HasCallCause result (disk_faults self.old) (disk_faults self.new)
            (say_faults self.old) (say_faults self.new) };

    /// Synchronisation was lost on circuit `c`, in this field of a frame. What it does may be gathered.
    fn note_loss(&mut self, c: u32, field: FrameField) -> Result<Outcome, SwitchFault>
        requires { c < length (meanings.directory self.old).circuits }
        ensures called { IsAnswered meanings (Lost c field) result self.old self.new }
        ensures cause { HasCallCause result (disk_faults self.old) (disk_faults self.new)
            (say_faults self.old) (say_faults self.new) };

    /// Settles what was gathered.
    fn settle_all(&mut self) -> Result<(), SwitchFault>
        ensures settling { IsSettling meanings result self.old self.new }
        ensures cause { HasCallCause result (disk_faults self.old) (disk_faults self.new)
            (say_faults self.old) (say_faults self.new) };
}

impl<W: Switch> Listens for W {
    ghost Origin = { W.Origin };

    ghost meanings = { W.meanings };

    ghost disk_faults = { W.disk_faults };

    ghost say_faults = { W.say_faults };

    fn listen(
        &mut self,
        alloc: Global,
        c: u32,
        kind: Kind,
        message: &[u8],
    ) -> Result<Outcome, SwitchFault> {
        self.hear(alloc, c, kind, message)
    }

    fn note_loss(&mut self, c: u32, field: FrameField) -> Result<Outcome, SwitchFault> {
        self.lost(c, field)
    }

    fn settle_all(&mut self) -> Result<(), SwitchFault> {
        self.settle()
    }
}
