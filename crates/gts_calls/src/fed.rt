ghost use Rattle.std.specs.Prelude.{◌≡◌};
ghost use Rattle.gts_calls.specs.Fed.{answer_of, is_all, is_done};

use gts_event::SwitchFault;
use gts_frame::{FrameField, Kind};

/// Why no more bytes were taken.
#[derive(Clone, Copy, Debug, PartialEq, Eq)]
pub enum FeedEnd {
    /// All bytes were taken, and what they end was dealt with.
    All,
    /// Synchronisation was lost in this field of a frame, at the last byte that was taken, and that was entered.
    Lost { field: FrameField },
    /// There was no room, or no memory, for the message that the decoder holds, which came in a frame of this type and ends with
    /// the last byte that was taken.
    Wanting { kind: Kind, fault: SwitchFault },
    /// An event was answered with this fault: the one that the last byte ended; or, where a device failed, earlier ones too.
    Fault(SwitchFault),
}

/// What became of a piece of a connection: how many of its bytes were taken, and why no more.
#[derive(Clone, Copy, Debug, PartialEq, Eq)]
pub struct Fed {
    pub taken: usize,
    pub end: FeedEnd,
}

impl FeedEnd {
    /// Whether all was dealt with, and synchronisation kept.
    pub fn is_all(self) -> bool
        ensures { result ≡ is_all self }
    {
        match self {
            FeedEnd::All => true,
            _ => false,
        }
    }

    /// Whether all was dealt with that the bytes ended.
    pub fn is_done(self) -> bool
        ensures { result ≡ is_done self }
    {
        match self {
            FeedEnd::All => true,
            FeedEnd::Lost { field: _field } => true,
            _ => false,
        }
    }

    /// Whether all was dealt with that the bytes ended, or the fault by which it wasn't.
    pub fn answer(self) -> Result<(), SwitchFault>
        ensures { result ≡ answer_of self }
    {
        match self {
            FeedEnd::All | FeedEnd::Lost { .. } => Ok(()),
            FeedEnd::Wanting { fault, .. } => Err(fault),
            FeedEnd::Fault(fault) => Err(fault),
        }
    }
}
