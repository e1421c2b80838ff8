ghost use Rattle.std.specs.Prelude.{◌≡◌, ◌+◌, ◌<◌, ◌≤◌, ◌↔◌, IsTrue, length, ◌∷◌, [], ◌++◌, take, IfOk, slice_index_or};
ghost use Rattle.gts_calls.specs.Cited.{Frame as FrameType, HasRoom, LONGEST_FRAME, frames_of, no_frame, no_frames, sizes_of};

use gts_alphabet::{LONGEST_FRAME, NoMemory};
use gts_directory::MOST_REPEAT;
use gts_frame::FrameBuf;
use std::alloc::Global;
use std::marker::Model;

/// How many bytes the frames of one turn may have: two of the longest.
pub const MOST_BYTES: usize = 2 * LONGEST_FRAME;

/// How many frames one turn may give.
pub const MOST_FRAMES: usize = MOST_REPEAT as usize;

/// One frame of several: the index of its draw on its circuit, and how many bytes it has.
#[derive(Clone, Copy)]
pub struct Placed {
    pub index: u64,
    pub size: usize,
}

/// The frames that the takes of one turn gave, one behind another. Its memory is taken once.
#[derive(Drop)]
pub struct Frames {
    bytes: Vec<u8>,
    size: usize,
    placed: Vec<Placed>,
    count: usize,
}

impl Model for Frames {
    ghost use Rattle.std.specs.Prelude.{◌≡◌, ◌≤◌, take, length, vec_len};
    ghost use Rattle.gts_calls.specs.Given.{Laid, sizes_of};
    ghost use Rattle.gts_calls.specs.declared.given.TheConstants.{MOST_BYTES, MOST_FRAMES};

    ghost Value = { Laid };

    ghost view = { λ f. record {
      each = take f.count f.placed.items;
      bytes = take f.size f.bytes.items;
    } };

    ghost invariant = { λ f. (f.count ≤ MOST_FRAMES) × (f.size ≤ MOST_BYTES)
        × (vec_len f.placed ≡ MOST_FRAMES) × (vec_len f.bytes ≡ MOST_BYTES)
        × (sizes_of (take f.count f.placed.items) ≡ length (take f.size f.bytes.items)) };
}

impl Frames {
    /// No frame.
    pub fn new(alloc: Global) -> Result<Frames, NoMemory>
        ensures { IfOk result (λ frames. frames ≡ no_frames) }
    {
        let none = Placed { index: 0, size: 0 };
        Ok(Frames {
            bytes: vec![in alloc; 0u8; MOST_BYTES]?,
            size: 0,
            placed: vec![in alloc; none; MOST_FRAMES]?,
            count: 0,
        })
    }

    /// How many frames there are.
    pub fn count(&self) -> usize
        ensures { result ≡ length self.now.each }
    {
        self.count
    }

    /// Whether there is room for one frame more, however long it is.
    pub fn has_room(&self) -> bool
        ensures { IsTrue result ↔ HasRoom self.now }
    {
        self.count < MOST_FRAMES && LONGEST_FRAME <= MOST_BYTES - self.size
    }

    /// Adds a frame behind those that are there. Its draw has this index.
    pub fn add(&mut self, index: u64, frame: &[u8])
        requires room { HasRoom self.old }
        requires short { length frame.now ≤ LONGEST_FRAME }
        ensures { frames_of self.new ≡ frames_of self.old
            ++ record { index = index; text = frame.now } ∷ [] }
    {
        let next = self.size + frame.len();
        self.bytes[self.size..next].copy_from_slice(frame);
        self.placed[self.count] = Placed {
            index,
            size: frame.len(),
        };
        self.size = next;
        self.count += 1;
    }

    /// The frame of this number, whose bytes begin at this place: the index of its draw, and its bytes.
    pub fn frame(&self, i: usize, at: usize) -> (u64, &[u8])
        requires there { i < length self.now.each }
        requires place { at ≡ sizes_of (take i self.now.each) }
        ensures frame { slice_index_or (frames_of self.now) i no_frame
            ≡ record { index = result.0; text = result.1.now } }
        ensures next { at + length result.1.now ≡ sizes_of (take (i + 1) self.now.each) }
        ensures end { at + length result.1.now ≤ MOST_BYTES }
    {
        let placed = self.placed[i];
        (placed.index, &self.bytes[at..at + placed.size])
    }

    /// Forgets all frames. The room stays.
    pub fn clear(&mut self)
        ensures { self.new ≡ no_frames }
    {
        self.size = 0;
        self.count = 0;
    }
}

/// What a sender has for the frames of a turn: room for the one that is taken, and for all of them.
#[derive(Drop)]
pub struct Given {
    pub one: FrameBuf,
    pub frames: Frames,
}

impl Given {
    /// No frame.
    pub fn new(alloc: Global) -> Result<Given, NoMemory> {
        Ok(Given {
            one: FrameBuf::new(alloc)?,
            frames: Frames::new(alloc)?,
        })
    }
}
