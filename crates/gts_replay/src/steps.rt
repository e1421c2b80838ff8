ghost use Rattle.std.specs.Prelude.{◌≡◌, ◌+◌, ◌-◌, ◌<◌, ◌≤◌, ◌↔◌, ◌++◌, [], ℕ, IsTrue, IfOk, IfErr, IsErr, OnErr, Err, true, false, length, take, drop, min};
ghost use Rattle.gts_replay.specs.Cited.{BeginsWithHead, EndsInFeed, HasCause, HasSourceCause, IsBadAt, IsHeadIn, IsSameCapture, IsStop, LONGEST_CAPTURE, Passed, StopsInFeed, StopsInHead, at_start, bytes_announced, line_of, readable_from};
ghost use Rattle.gts_replay.specs.Heads.{head_of};

use crate::capture_fault::CaptureFault;
use crate::head::Head;
use crate::head_cursor::{Stop, read_head};
use gts_connection::{CaptureKind, LONGEST_CAPTURE};
use gts_traits::{Failed, Source};
use std::marker::Model;

/// The most bytes that one read of the source fetches. A feed's bytes are handed on in pieces of up to as many.
const BUFFER: usize = 65_536;

/// Reads a capture step by step from a source: the head of a step, and behind that of a feed its bytes. It holds what it
/// read ahead, and takes no memory.
#[derive(Drop)]
pub struct Steps {
    circuits: u32,
    kind: CaptureKind,
    buffer: [u8; BUFFER],
    start: usize,
    end: usize,
    at: u64,
    feed: u32,
}

impl Model for Steps {
    ghost use Rattle.std.specs.Prelude.{◌+◌, ◌-◌, ◌≤◌, take, drop};
    ghost use Rattle.gts_connection.specs.declared.limits.TheConstants.{LONGEST_CAPTURE};
    ghost use Rattle.gts_replay.specs.Held.{Held};
    ghost use Rattle.gts_replay.specs.declared.steps.TheConstants.{BUFFER};

    ghost Value = { Held };

    ghost view = { λ s. record {
      circuits = s.circuits;
      kind = s.kind;
      at = s.at;
      feed = s.feed;
      ahead = take (s.end - s.start) (drop s.start s.buffer);
    } };

    ghost invariant = { λ s. (s.start ≤ s.end) × (s.end ≤ BUFFER) × (s.circuits ≤ 100)
        × (s.at + (s.end - s.start) ≤ LONGEST_CAPTURE) };
}

impl Steps {
    /// A reader of a capture of so many circuits and of this kind, before its first byte.
    pub fn new(circuits: u32, kind: CaptureKind) -> Steps
        requires { circuits ≤ 100 }
        ensures { result ≡ at_start circuits kind }
    {
        Steps {
            circuits,
            kind,
            buffer: [0; BUFFER],
            start: 0,
            end: 0,
            at: 0,
            feed: 0,
        }
    }

    /// Reads the head that comes next. It needs that the last feed's bytes were taken through, and is not called after the
    /// end or a fault. `Bad` comes exactly where what is left begins with no head, with the place of the first byte that
    /// no head has there, or of the end of the bytes; the longest capture ends them too. `SourceFault` comes only where the
    /// source's count of faults rose; then what is held is the beginning of a head, and all that stands before it was handed on.
    pub fn next<S: Source>(&mut self, source: &mut S) -> Result<Head, CaptureFault>
        requires taken { self.old.feed ≡ 0 }
        ensures told { S.observed → IfOk result (λ head. self.old.ahead ++ S.left source.old
            ≡ line_of head ++ (self.new.ahead ++ S.left source.new)) }
        ensures valid { IfOk result (λ head.
            IsHeadIn self.old.circuits self.old.kind (head_of head)) }
        ensures feed { IfOk result (λ head. self.new.feed ≡ bytes_announced (head_of head)) }
        ensures at { IfOk result (λ head.
            self.new.at ≡ self.old.at + length (line_of head)) }
        ensures within { IfOk result (λ head. self.new.at ≤ LONGEST_CAPTURE) }
        ensures bad { S.observed → (at : ℕ) → result ≡ Err (CaptureFault.Bad at)
            → IsBadAt self.old
            (readable_from self.old.at (self.old.ahead ++ S.left source.old)) at }
        ensures source_fault { S.observed → result ≡ Err CaptureFault.SourceFault
            → StopsInHead self.old self.new (S.left source.old) (S.left source.new) }
        ensures same { IsSameCapture self.old self.new }
        ensures cause { HasSourceCause result (S.faults source.old) (S.faults source.new) }
    {
        loop {
            match self.held_head() {
                Ok(head) => return Ok(head),
                Err(Stop::Bad { left }) => return Err(self.bad(left)),
                Err(Stop::More) => {}
            }
            if self.fill(source)? == 0 {
                return Err(self.bad(0));
            }
        }
    }

    /// Takes the next bytes of the feed to the front of `into`, and answers how many: 0 exactly at the feed's end or for an
    /// empty `into`. It is not called after the end or a fault. `Bad` comes exactly where the bytes end in the feed, or where
    /// the longest capture does, with their number. `SourceFault` comes only where the source's count of faults rose; then
    /// nothing is held, and all that was read was handed on.
    pub fn bytes<S: Source>(
        &mut self,
        source: &mut S,
        into: &mut [u8],
    ) -> Result<usize, CaptureFault>
        ensures told { S.observed → IfOk result (λ count. self.old.ahead ++ S.left source.old
            ≡ take count into.new ++ (self.new.ahead ++ S.left source.new)) }
        ensures most { IfOk result (λ count. count ≤ min (length into.old) self.old.feed) }
        ensures left { IsErr result → 0 < self.old.feed }
        ensures some { IfOk result (λ count. count ≡ 0 → min (length into.old) self.old.feed ≡ 0) }
        ensures passed { IfOk result (λ count. Passed self.old self.new count) }
        ensures bad { S.observed → (at : ℕ) → result ≡ Err (CaptureFault.Bad at)
            → EndsInFeed self.old
            (readable_from self.old.at (self.old.ahead ++ S.left source.old)) at }
        ensures source_fault { S.observed → result ≡ Err CaptureFault.SourceFault
            → StopsInFeed self.old self.new (S.left source.old) (S.left source.new) }
        ensures same { IsSameCapture self.old self.new }
        ensures cause { HasSourceCause result (S.faults source.old) (S.faults source.new) }
    {
        if self.feed == 0 || into.is_empty() {
            return Ok(0);
        }
        if self.is_empty() && self.fill(source)? == 0 {
            return Err(self.bad(0));
        }
        Ok(self.hand_on(into))
    }

    /// Reads the head at the front of what is held, and passes over it. Nothing changes where none stands there.
    pub(crate) fn held_head(&mut self) -> Result<Head, Stop>
        ensures head { IfOk result (λ head.
            BeginsWithHead self.old.circuits self.old.kind self.old.ahead head self.new.ahead) }
        ensures stop { IfErr result (IsStop self.old.circuits self.old.kind self.old.ahead) }
        ensures unchanged { OnErr result (self.new ≡ self.old) }
        ensures feed { IfOk result (λ head. self.new.feed ≡ bytes_announced (head_of head)) }
        ensures at { IfOk result (λ head.
            self.new.at ≡ self.old.at + length (line_of head)) }
        ensures within { self.new.at + length self.new.ahead ≤ LONGEST_CAPTURE }
        ensures same { IsSameCapture self.old self.new }
    {
        let held = &self.buffer[self.start..self.end];
        let (head, length) = read_head(held, self.circuits, self.kind)?;
        self.start += length;
        self.at += length as u64;
        self.feed = announced(head);
        Ok(head)
    }

    /// The fault at the byte behind which all but so many of the held ones stand.
    fn bad(&self, left: usize) -> CaptureFault
        requires { left ≤ length self.now.ahead }
        ensures { result ≡ CaptureFault.Bad
            (self.now.at + (length self.now.ahead - left)) }
    {
        let good = self.end - self.start - left;
        CaptureFault::Bad {
            at: self.at + good as u64,
        }
    }

    /// Whether nothing is held.
    fn is_empty(&self) -> bool
        ensures { IsTrue result ↔ (self.now.ahead ≡ []) }
    {
        self.start == self.end
    }

    /// Whether something is held of the feed, or nothing is to come of it: then `bytes` reads nothing.
    pub(crate) fn has_bytes(&self) -> bool
        ensures { IsTrue result ↔ (self.now.ahead ≡ [] → self.now.feed ≡ 0) }
    {
        self.feed == 0 || !self.is_empty()
    }

    /// Reads further bytes behind those that are held, and answers how many: 0 only at the source's end, and at that of the
    /// longest capture.
    fn fill<S: Source>(&mut self, source: &mut S) -> Result<usize, Failed>
        requires { length self.old.ahead < BUFFER }
        ensures told { S.observed → IfOk result (λ count.
            self.new.ahead ++ S.left source.new ≡ self.old.ahead ++ S.left source.old) }
        ensures end { S.observed → IfOk result (λ count. count ≡ 0
            → readable_from (self.old.at + length self.old.ahead) (S.left source.old) ≡ []) }
        ensures count { IfOk result (λ count.
            length self.new.ahead ≡ length self.old.ahead + count) }
        ensures others { self.new ≡ record self.old { ahead = self.new.ahead } }
        ensures unchanged { OnErr result (self.new ≡ self.old) }
        ensures untaken { S.observed → OnErr result (S.left source.new ≡ S.left source.old) }
        ensures within { self.new.at + length self.new.ahead ≤ LONGEST_CAPTURE }
        ensures cause { HasCause result (S.faults source.old) (S.faults source.new) }
    {
        move_to_front(&mut self.buffer, self.start, self.end);
        self.end -= self.start;
        self.start = 0;
        let most = room(self.at, self.end);
        if most == 0 {
            return Ok(0);
        }
        let count = source.read(&mut self.buffer[self.end..self.end + most])?;
        self.end += count;
        Ok(count)
    }

    /// Hands on what is held of a feed, as far as there is room, and answers how many bytes these are.
    pub(crate) fn hand_on(&mut self, into: &mut [u8]) -> usize
        ensures taken { self.old.ahead ≡ take result into.new ++ self.new.ahead }
        ensures count { result ≡ min (min (length self.old.ahead) (length into.old)) self.old.feed }
        ensures passed { Passed self.old self.new result }
        ensures same { IsSameCapture self.old self.new }
    {
        let held = &self.buffer[self.start..self.end];
        let count = held.len().min(into.len()).min(self.feed as usize);
        into[..count].copy_from_slice(&held[..count]);
        self.start += count;
        self.at += count as u64;
        self.feed -= count as u32;
        count
    }
}

/// How many bytes more may be held behind so many from a place of a capture on: as many as the buffer and the longest capture
/// have room for.
fn room(at: u64, held: usize) -> usize
    requires buffer { held ≤ BUFFER }
    requires capture { at + held ≤ LONGEST_CAPTURE }
    ensures { result ≡ min (LONGEST_CAPTURE - (at + held)) (BUFFER - held) }
{
    let left = LONGEST_CAPTURE - (at + held as u64);
    left.min((BUFFER - held) as u64) as usize
}

/// Moves the bytes of a range to the front.
fn move_to_front(buffer: &mut [u8], start: usize, end: usize)
    requires order { start ≤ end }
    requires within { end ≤ length buffer.old }
    ensures { take (end - start) buffer.new ≡ take (end - start) (drop start buffer.old) }
{
    buffer.copy_within(start..end, 0);
}

/// How many bytes a head announces.
fn announced(head: Head) -> u32
    ensures { result ≡ bytes_announced (head_of head) }
{
    match head {
        Head::Feed { length, .. } => length,
        _ => 0,
    }
}
