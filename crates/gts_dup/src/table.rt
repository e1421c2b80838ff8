ghost use Rattle.std.specs.Prelude.{◌≡◌, ◌<◌, ◌≤◌, ◌+◌, ◌++◌, [], ◌∷◌, length, slice_get, IfSome, IfNone, IfOk, OnOk};
ghost use Rattle.gts_dup.specs.Cited.{AllBelow, AllRecent, Forgets, IsGreatestBelow, IsSound, NoneBelow, buffer, digest_of, fields_of, latest_below, recent_pairs, spare};

use crate::key::Key;
use circular_buffer::HeapCircularBuffer;
use gts_alphabet::{EOL, NoMemory};
use gts_heading::Heading;
use sha2::{Digest, Sha256};
use std::alloc::Global;
use std::collections::HashMap;
use std::marker::Model;

/// The digests of the bulletins that are known among the last positions, with these. Bulletins may be missing there. Equal
/// digests alone decide nothing: the caller compares the bytes. Contracts see the pairs in order. A hashed index leads from
/// a digest to its latest position, so that a look-up goes over the pairs only where that position is too high.
#[derive(Drop)]
pub struct DupTable {
    ring: HeapCircularBuffer<([u8; 32], u64)>,
    index: HashMap<Key, u64>,
}

impl Model for DupTable {
    ghost use Rattle.gts_dup.specs.Window.{Window};
    ghost use Rattle.gts_dup.specs.Index.{window_of, IsSound};

    ghost Value = { Window };

    ghost view = { λ t. window_of t.ring t.index };

    ghost invariant = { λ t. IsSound t.ring t.index };
}

impl DupTable {
    /// The digest of what tells a bulletin from others: its heading, CR CR LF, and its text.
    pub fn digest(heading: &Heading, text: &[u8]) -> [u8; 32]
        ensures { result ≡ digest_of (fields_of heading.now) text.now }
    {
        let mut line = [0; 22];
        let length = heading.write(&mut line);
        let mut hasher = Sha256::new();
        hasher.update(&line[..length]);
        hasher.update(EOL.as_slice());
        hasher.update(text);
        hasher.finalize()
    }

    /// A table for the bulletins of the last `window` positions.
    pub fn new(alloc: Global, window: u32) -> Result<DupTable, NoMemory>
        requires { 1 ≤ window }
        ensures noted { IfOk result (λ table. table.noted ≡ []) }
        ensures width { IfOk result (λ table. table.width ≡ window) }
    {
        Ok(DupTable {
            ring: HeapCircularBuffer::with_capacity(alloc, window as usize)?,
            index: HashMap::new(alloc),
        })
    }

    /// Makes room for one more pair. What is noted stays, also where there is no memory.
    pub fn reserve(&mut self) -> Result<(), NoMemory>
        ensures room { OnOk result (1 ≤ self.new.spare) }
        ensures noted { self.new.noted ≡ self.old.noted }
        ensures width { self.new.width ≡ self.old.width }
        ensures spare { self.old.spare ≤ self.new.spare }
    {
        self.index.reserve(1)?;
        Ok(())
    }

    /// Notes a digest and its position. The pair whose position has then left the window goes. It takes no memory.
    pub fn put(&mut self, digest: [u8; 32], position: u64)
        requires room { 1 ≤ self.old.spare }
        requires above { AllBelow position self.old.noted }
        requires recent { AllRecent self.old.width position self.old.noted }
        ensures noted { self.new.noted ≡ recent_pairs self.old.width (position + 1)
            (self.old.noted ++ (digest, position) ∷ []) }
        ensures width { self.new.width ≡ self.old.width }
        ensures spare { self.old.spare ≤ self.new.spare + 1 }
    {
        forget_oldest(&mut self.ring, &mut self.index, position);
        self.ring.push_back((digest, position));
        let _ = self.index.insert(Key { digest }, position);
    }

    /// The greatest position below a limit that is noted with this digest. `None` exactly where there is none.
    pub fn latest(&self, digest: &[u8; 32], below: u64) -> Option<u64>
        ensures value { result ≡ latest_below digest.now below self.now.noted }
        // It is the greatest, since positions ascend.
        ensures none { IfNone result (NoneBelow self.now.noted digest.now below) }
        ensures greatest { IfSome result (IsGreatestBelow self.now.noted digest.now below) }
    {
        let position = *self.index.get(&Key { digest: *digest })?;
        if position < below {
            return Some(position);
        }
        latest_in(&self.ring, digest, below)
    }
}

/// The oldest pair goes, where its position has left the window with this one. The positions of all others are above it.
fn forget_oldest(
    ring: &mut HeapCircularBuffer<([u8; 32], u64)>,
    index: &mut HashMap<Key, u64>,
    position: u64,
)
    requires sound { IsSound ring.old index.old }
    requires above { AllBelow position ring.old.items }
    requires recent { AllRecent ring.old.capacity position ring.old.items }
    ensures left { ring.new ≡ buffer (recent_pairs ring.old.capacity (position + 1) ring.old.items)
        ring.old.capacity }
    ensures sound { IsSound ring.new index.new }
    ensures room { length ring.new.items < ring.new.capacity }
    ensures spare { spare index.old ≤ spare index.new }
{
    let Some(oldest) = ring.front() else {
        return;
    };
    if position.saturating_sub(oldest.1) >= ring.capacity() as u64 {
        take_out_oldest(ring, index);
        ring.pop_front();
    }
}

/// Takes the oldest pair out of the index, where no later one has its digest.
fn take_out_oldest(ring: &HeapCircularBuffer<([u8; 32], u64)>, index: &mut HashMap<Key, u64>)
    ensures forgets { IfSome (slice_get ring.now.items 0) (Forgets index.old index.new) }
    ensures spare { spare index.old ≤ spare index.new }
{
    let Some(oldest) = ring.front() else {
        return;
    };
    let key = Key { digest: oldest.0 };
    let position = oldest.1;
    if index.get(&key).copied() == Some(position) {
        index.remove(&key);
    }
}

/// Goes over all pairs.
fn latest_in(
    ring: &HeapCircularBuffer<([u8; 32], u64)>,
    digest: &[u8; 32],
    below: u64,
) -> Option<u64>
    ensures { result ≡ latest_below digest.now below ring.now.items }
{
    let mut latest = None;
    for pair in ring.iter() {
        if pair.0 == *digest && pair.1 < below {
            latest = Some(pair.1);
        }
    }
    latest
}
