//! What a standby station has.
use gts_core::Core;
use gts_journal::Journal;

/// The journal of a standby station, at its end, and a core of what it has come to.
#[derive(Drop)]
pub(crate) struct Standby {
    pub(crate) core: Core,
    pub(crate) journal: Journal,
}
