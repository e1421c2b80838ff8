ghost use Rattle.std.specs.Prelude.{◌≡◌, replicate, IfOk};
ghost use Rattle.gts_frame.specs.Decoder.{fresh};

use crate::decoders::new_decoders;
use gts_alphabet::NoMemory;
use gts_frame::{Decoder, FrameBuf};
use std::alloc::Global;

/// How many bytes of a feed are taken at once.
const PIECE: usize = 4_096;

/// The memory that a run of a capture takes before its first step.
#[derive(Drop)]
pub(crate) struct Room {
    /// A decoder for each circuit.
    pub(crate) decoders: Vec<Decoder>,
    /// The room for the frame that a take gives.
    pub(crate) frame: FrameBuf,
    /// The room for a piece of a feed.
    pub(crate) piece: [u8; PIECE],
}

impl Room {
    /// The room for a capture of so many circuits, each with a new connection.
    pub(crate) fn new(alloc: Global, circuits: u32) -> Result<Room, NoMemory>
        ensures { IfOk result (λ room. room.decoders.items ≡ replicate circuits fresh) }
    {
        Ok(Room {
            decoders: new_decoders(alloc, circuits)?,
            frame: FrameBuf::new(alloc)?,
            piece: [0; PIECE],
        })
    }
}
