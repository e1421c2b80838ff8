ghost use Rattle.std.specs.Prelude.{◌≡◌, ◌+◌, ◌<◌, ◌≤◌, ◌↔◌, IsTrue, length, ◌∷◌, [], ◌++◌, take, IfOk, slice_index_or};
ghost use Rattle.gts_engine.specs.Cited.{HasRoom, held_pieces, no_sayings, on, sizes_of};

use gts_alphabet::NoMemory;
use gts_calls::MOST_TOGETHER;
use gts_traits::Channel;
use std::alloc::Global;
use std::marker::Model;

/// How many bytes may be held.
pub const MOST_BYTES: usize = 1 << 20;

/// How many sayings may be held: one for each event that is gathered.
pub const MOST_SAYINGS: usize = MOST_TOGETHER;

/// One saying: its channel, and how many bytes it has.
#[derive(Clone, Copy)]
pub struct Saying {
    pub channel: Channel,
    pub size: usize,
}

/// What is to be said once the records that were gathered stand in the journal, in order. Its memory is taken once.
#[derive(Drop)]
pub struct Held {
    bytes: Vec<u8>,
    size: usize,
    sayings: Vec<Saying>,
    count: usize,
}

impl Model for Held {
    ghost use Rattle.std.specs.Prelude.{◌≡◌, ◌≤◌, take, vec_len};
    ghost use Rattle.gts_engine.specs.Sayings.{Sayings, AreSayings};
    ghost use Rattle.gts_engine.specs.declared.held.TheConstants.{MOST_BYTES, MOST_SAYINGS};

    ghost Value = { Sayings };

    ghost view = { λ h. record {
      each = take h.count h.sayings.items;
      bytes = take h.size h.bytes.items;
    } };

    ghost invariant = { λ h. (h.count ≤ MOST_SAYINGS) × (h.size ≤ MOST_BYTES)
        × (vec_len h.sayings ≡ MOST_SAYINGS) × (vec_len h.bytes ≡ MOST_BYTES)
        × AreSayings (take h.count h.sayings.items) (take h.size h.bytes.items) };
}

impl Held {
    /// Nothing is held.
    pub fn new(alloc: Global) -> Result<Held, NoMemory>
        ensures { IfOk result (λ held. held ≡ no_sayings) }
    {
        let none = Saying {
            channel: Channel::OPERATOR,
            size: 0,
        };
        Ok(Held {
            bytes: vec![in alloc; 0u8; MOST_BYTES]?,
            size: 0,
            sayings: vec![in alloc; none; MOST_SAYINGS]?,
            count: 0,
        })
    }

    /// Whether one saying more of so many bytes may be held.
    pub fn has_room(&self, size: usize) -> bool
        ensures { IsTrue result ↔ HasRoom self.now size }
    {
        self.count < MOST_SAYINGS && size <= MOST_BYTES - self.size
    }

    /// How many sayings are held.
    pub fn count(&self) -> usize
        ensures { result ≡ length self.now.each }
    {
        self.count
    }

    /// Holds bytes for a channel behind what is held.
    pub fn hold(&mut self, channel: Channel, bytes: &[u8])
        requires { HasRoom self.old (length bytes.now) }
        ensures { held_pieces self.new ≡ held_pieces self.old ++ on channel bytes.now ∷ [] }
    {
        let next = self.size + bytes.len();
        self.bytes[self.size..next].copy_from_slice(bytes);
        self.sayings[self.count] = Saying {
            channel,
            size: bytes.len(),
        };
        self.size = next;
        self.count += 1;
    }

    /// The saying of this number, whose bytes begin at this place: its channel and its bytes.
    pub fn saying(&self, i: usize, at: usize) -> (Channel, &[u8])
        requires there { i < length self.now.each }
        requires place { at ≡ sizes_of (take i self.now.each) }
        ensures piece { slice_index_or (held_pieces self.now) i [] ≡ on result.0 result.1.now }
        ensures next { at + length result.1.now ≡ sizes_of (take (i + 1) self.now.each) }
        ensures end { at + length result.1.now ≤ MOST_BYTES }
    {
        let saying = self.sayings[i];
        (saying.channel, &self.bytes[at..at + saying.size])
    }

    /// Nothing is held any more.
    pub fn clear(&mut self)
        ensures { self.new ≡ no_sayings }
    {
        self.size = 0;
        self.count = 0;
    }
}
