ghost use Rattle.std.specs.Prelude.{◌≡◌};
ghost use Rattle.gts_sender.specs.declared.end.SendEnd.TheVariants as ends;

use gts_event::SwitchFault;

/// Why a sender ended.
#[derive(Clone, Copy, Debug, PartialEq, Eq)]
pub enum SendEnd {
    /// The bell was closed, and then nothing waited.
    Quiet,
    /// The line failed within the frame of this index. It and those of the same turn behind it are among the circuit's last draws, as
    /// many as its row repeats, which are sent once more when the journal is opened again; or the neighbour asks for them again.
    LineFault { index: u64 },
    /// The desk answered with this fault.
    Fault(SwitchFault),
}

impl From<SwitchFault> for SendEnd {
    ghost from_gives = { λ fault made. made ≡ ends.Fault fault };

    fn from(fault: SwitchFault) -> SendEnd {
        SendEnd::Fault(fault)
    }
}
