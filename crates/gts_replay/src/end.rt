ghost use Rattle.std.specs.Prelude.{◌≡◌};
ghost use Rattle.gts_replay.specs.Ending.{end_of};

use crate::CaptureFault;
use crate::fault::StepFault;
use gts_event::SwitchFault;
use gts_record::OpenFault;

/// How a run of a capture ended.
#[derive(Clone, Copy, Debug, PartialEq, Eq)]
pub enum ReplayEnd {
    /// All its steps were done.
    Done,
    /// The bytes are bad, or end too early: the first byte that no capture has in its place, counted from 0, or the number
    /// of bytes. The steps before it were done, and of a feed the bytes before it were heard.
    Capture { at: u64 },
    /// Reading the capture failed; what had been read of it was done.
    SourceFault,
    /// The journal was not opened again.
    Reopen(OpenFault),
    /// The journal was not compacted: it would be full, or the disk failed.
    Compaction(SwitchFault),
    /// An event was answered with this fault.
    Fault(SwitchFault),
    /// There was no memory: before the first step, for a bulletin, or to open or compact the journal.
    NoMemory,
}

/// The end of a run in which a step was not done to its end.
pub(crate) fn end_after(fault: StepFault) -> ReplayEnd
    ensures { result ≡ end_of fault }
{
    match fault {
        StepFault::Capture(CaptureFault::Bad { at }) => ReplayEnd::Capture { at },
        StepFault::Capture(CaptureFault::SourceFault) => ReplayEnd::SourceFault,
        StepFault::Reopen(OpenFault::NoMemory) => ReplayEnd::NoMemory,
        StepFault::Reopen(fault) => ReplayEnd::Reopen(fault),
        StepFault::Compaction(SwitchFault::NoMemory) => ReplayEnd::NoMemory,
        StepFault::Compaction(fault) => ReplayEnd::Compaction(fault),
        StepFault::Switch(SwitchFault::NoMemory) => ReplayEnd::NoMemory,
        StepFault::Switch(fault) => ReplayEnd::Fault(fault),
    }
}
