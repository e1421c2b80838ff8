use gts_traits::Failed;

/// Why a capture was not read on.
#[derive(Clone, Copy, Debug, PartialEq, Eq)]
pub enum CaptureFault {
    /// The first byte that no capture has in its place, counted from 0, or the number of bytes, where they end before
    /// the LF of the end.
    Bad { at: u64 },
    /// The source failed.
    SourceFault,
}

impl From<Failed> for CaptureFault {
    ghost use Rattle.std.specs.Prelude.{◌≡◌};
    ghost use Rattle.gts_replay.specs.declared.capture_fault.CaptureFault.TheVariants.{SourceFault};

    ghost from_gives = { λ _ e. e ≡ SourceFault };

    fn from(_: Failed) -> CaptureFault {
        CaptureFault::SourceFault
    }
}
