use crate::workers::room::RoomBell;
use gts_lock::Bells;
use std::sync::atomic::{AtomicU64, Ordering};

/// The bells of a run, which the last of its receivers closes. Nothing is claimed of them.
#[derive(Drop)]
pub struct RunBell {
    bells: Bells,
    room: RoomBell,
    // How many receivers haven't ended.
    receivers: AtomicU64,
}

impl RunBell {
    /// The bells of a run with so many receivers.
    pub fn new(receivers: u64) -> RunBell {
        RunBell {
            bells: Bells::new(),
            room: RoomBell::new(),
            receivers: AtomicU64::new(receivers),
        }
    }

    /// The bells of the circuits, at which senders sleep.
    pub fn bells(&self) -> &Bells {
        &self.bells
    }

    /// The bell for room, at which receivers sleep that wait for draws.
    pub fn room(&self) -> &RoomBell {
        &self.room
    }

    /// A receiver has ended. The last one closes the bells.
    pub fn leave(&self) {
        if self.receivers.fetch_sub(1, Ordering::SeqCst) == 1 {
            self.bells.close();
        }
    }
}
