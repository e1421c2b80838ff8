ghost use Rattle.std.specs.Prelude.{◌≡◌, ◌<◌, ◌++◌, [], ◌∷◌, ℕ, List, drop, length, slice_set, IsTrue, OnOk, OnErr, false};
ghost use Rattle.gts_count.specs.Cited.{IsSound, buffer, has_row, joined, kept_with, leaves, ring_at, with_newest, without_oldest};

use crate::Recent;
use crate::rows::{Row, add_row, join, join_draw, leave, leave_draw};
use circular_buffer::HeapCircularBuffer;
use gts_alphabet::NoMemory;
use std::collections::HashMap;

/// What is counted, and its running numbers: the bulletins of the window; of each circuit the keys of the draws that are
/// kept; the numbers of each key; and of each circuit how many bulletins of the window came in.
///
/// Each change looks its key up, a bulletin that is accepted and drawn twice nine times in all, but the table is said once: so
/// the numbers are found by hash, which costs a sixth of a look-up by order, and are put in order where the table is said.
#[derive(Drop)]
pub struct Numbers {
    pub recent: HeapCircularBuffer<Recent>,
    pub drawn: Vec<HeapCircularBuffer<[u8; 11]>>,
    pub rows: HashMap<[u8; 11], Row>,
    pub came: Vec<u64>,
}

impl Numbers {
    /// The oldest bulletin of the window leaves it. Takes no memory.
    fn forget_oldest(&mut self)
        requires { IsSound self.old }
        ensures sound { IsSound self.new }
        ensures recent { self.new.recent
            ≡ buffer (drop 1 self.old.recent.items) self.old.recent.capacity }
        ensures drawn { self.new.drawn ≡ self.old.drawn }
        ensures rows { (key : List ℕ) → has_row self.new.rows key ≡ has_row self.old.rows key }
        ensures circuits { length self.new.came.items ≡ length self.old.came.items }
    {
        let Some(oldest) = self.recent.pop_front() else {
            return;
        };
        leave(&mut self.rows, oldest);
        self.came[oldest.from as usize] -= 1;
    }

    /// A bulletin joins a window that has room. Takes no memory.
    fn push(&mut self, bulletin: Recent)
        requires sound { IsSound self.old }
        requires room { length self.old.recent.items < self.old.recent.capacity }
        requires row { IsTrue (has_row self.old.rows bulletin.key) }
        requires circuit { bulletin.from < length self.old.came.items }
        ensures sound { IsSound self.new }
        ensures recent { self.new.recent
            ≡ buffer (self.old.recent.items ++ bulletin ∷ []) self.old.recent.capacity }
        ensures drawn { self.new.drawn ≡ self.old.drawn }
        ensures rows { (key : List ℕ) → has_row self.new.rows key ≡ has_row self.old.rows key }
        ensures circuits { length self.new.came.items ≡ length self.old.came.items }
    {
        join(&mut self.rows, bulletin);
        self.came[bulletin.from as usize] += 1;
        let _ = self.recent.push_back(bulletin);
    }

    /// Whether the oldest bulletin leaves the window when one of this position joins it. Takes no memory.
    fn is_due(&self, position: u64) -> bool
        ensures { result ≡ leaves self.now.recent.capacity self.now.recent.items position }
    {
        let Some(oldest) = self.recent.front() else {
            return false;
        };
        let far = position.saturating_sub(oldest.position);
        self.recent.capacity() as u64 <= far || self.recent.is_full()
    }

    /// A bulletin was accepted: it joins the window, and the oldest one goes whose position has left it. Takes no memory.
    pub fn note_accepted(&mut self, bulletin: Recent)
        requires sound { IsSound self.old }
        requires row { IsTrue (has_row self.old.rows bulletin.key) }
        requires circuit { bulletin.from < length self.old.came.items }
        ensures sound { IsSound self.new }
        ensures recent { self.new.recent.items
            ≡ joined self.old.recent.capacity self.old.recent.items bulletin }
        ensures window { self.new.recent.capacity ≡ self.old.recent.capacity }
        ensures drawn { self.new.drawn ≡ self.old.drawn }
        ensures rows { (key : List ℕ) → has_row self.new.rows key ≡ has_row self.old.rows key }
        ensures circuits { length self.new.came.items ≡ length self.old.came.items }
    {
        if self.is_due(bulletin.position) {
            self.forget_oldest();
        }
        self.push(bulletin);
    }

    /// The oldest kept draw of a circuit leaves. Takes no memory.
    fn forget_draw(&mut self, c: u32)
        requires sound { IsSound self.old }
        requires circuit { c < length self.old.drawn.items }
        ensures sound { IsSound self.new }
        ensures drawn { self.new.drawn.items ≡ slice_set self.old.drawn.items c
            (without_oldest (ring_at self.old c)) }
        ensures recent { self.new.recent ≡ self.old.recent }
        ensures rows { (key : List ℕ) → has_row self.new.rows key ≡ has_row self.old.rows key }
        ensures came { self.new.came ≡ self.old.came }
    {
        if let Some(oldest) = self.drawn[c as usize].pop_front() {
            leave_draw(&mut self.rows, oldest);
        }
    }

    /// A draw joins those of a circuit that has room. Takes no memory.
    fn push_draw(&mut self, c: u32, key: [u8; 11])
        requires sound { IsSound self.old }
        requires circuit { c < length self.old.drawn.items }
        requires room { let ring = ring_at self.old c in length ring.items < ring.capacity }
        requires row { IsTrue (has_row self.old.rows key) }
        ensures sound { IsSound self.new }
        ensures drawn { self.new.drawn.items ≡ slice_set self.old.drawn.items c
            (with_newest (ring_at self.old c) key) }
        ensures recent { self.new.recent ≡ self.old.recent }
        ensures rows { (key : List ℕ) → has_row self.new.rows key ≡ has_row self.old.rows key }
        ensures came { self.new.came ≡ self.old.came }
    {
        join_draw(&mut self.rows, key);
        let _ = self.drawn[c as usize].push_back(key);
    }

    /// A bulletin was drawn on a circuit: its key joins the kept draws there, and the oldest leaves them where the circuit
    /// keeps no more. Takes no memory.
    pub fn note_drawn(&mut self, c: u32, key: [u8; 11])
        requires sound { IsSound self.old }
        requires circuit { c < length self.old.drawn.items }
        requires row { IsTrue (has_row self.old.rows key) }
        ensures sound { IsSound self.new }
        ensures drawn { self.new.drawn.items ≡ slice_set self.old.drawn.items c
            (kept_with (ring_at self.old c) key) }
        ensures recent { self.new.recent ≡ self.old.recent }
        ensures rows { (key : List ℕ) → has_row self.new.rows key ≡ has_row self.old.rows key }
        ensures came { self.new.came ≡ self.old.came }
    {
        if self.drawn[c as usize].is_full() {
            self.forget_draw(c);
        }
        self.push_draw(c, key);
    }

    /// Makes room for the numbers of a key, so that noting it takes no memory. A refusal changes nothing that is counted.
    pub fn prepare(&mut self, key: [u8; 11]) -> Result<(), NoMemory>
        requires sound { IsSound self.old }
        ensures row { OnOk result (IsTrue (has_row self.new.rows key)) }
        ensures none { OnErr result (has_row self.old.rows key ≡ false) }
        ensures sound { IsSound self.new }
        ensures recent { self.new.recent ≡ self.old.recent }
        ensures drawn { self.new.drawn ≡ self.old.drawn }
        ensures came { self.new.came ≡ self.old.came }
        ensures rows { (k : List ℕ) → IsTrue (has_row self.old.rows k)
            → IsTrue (has_row self.new.rows k) }
    {
        add_row(&mut self.rows, key)
    }
}
