use crate::CaptureFault;
use gts_event::SwitchFault;
use gts_record::OpenFault;

/// Why a step of a capture was not done to its end.
#[derive(Clone, Copy, Debug, PartialEq, Eq)]
pub(crate) enum StepFault {
    /// The capture is bad there, or its source failed.
    Capture(CaptureFault),
    /// The journal was not opened again.
    Reopen(OpenFault),
    /// The journal was not compacted.
    Compaction(SwitchFault),
    /// An event was answered with this fault.
    Switch(SwitchFault),
}
