ghost use Rattle.std.specs.Prelude.{◌≡◌, ◌++◌, ◌<◌, ◌≤◌, ◌↔◌, [], IfOk, IsTrue, OnErr, OnOk, false, length, min, take, true};
ghost use Rattle.gts_accum.specs.Cited.{HasCause, IsApart, KeepsFailed, Takes, left_ahead};

use gts_traits::{Failed, Source};
use std::marker::Model;

/// The most bytes of a file that are read at once.
const AT_ONCE: usize = 65_536;

/// A source whose bytes are read ahead, as many at once as it gives. Once it has failed nothing is read ahead any more, so that all
/// was given then that was taken.
#[derive(Drop)]
pub(crate) struct ReadAhead<S: Source> {
    source: S,
    buffer: [u8; AT_ONCE],
    start: usize,
    end: usize,
    failed: bool,
}

impl<S: Source> Model for ReadAhead<S> {
    ghost use Rattle.std.specs.Prelude.{◌≡◌, ◌-◌, ◌≤◌, drop, take, true};
    ghost use Rattle.gts_accum.specs.Ahead.{Ahead};
    ghost use Rattle.gts_accum.specs.declared.read_ahead.TheConstants.{AT_ONCE};

    ghost Value = { Ahead S };

    ghost view = { λ a. record {
      source = a.source;
      held = take (a.end - a.start) (drop a.start a.buffer);
      failed = a.failed;
    } };

    ghost invariant = { λ a. (a.start ≤ a.end) × (a.end ≤ AT_ONCE)
        × (a.failed ≡ true → a.start ≡ a.end) };
}

impl<S: Source> ReadAhead<S> {
    /// A source of which nothing was read.
    pub(crate) fn new(source: S) -> ReadAhead<S>
        ensures { result ≡ record { source = source; held = []; failed = false } }
    {
        ReadAhead {
            source,
            buffer: [0; AT_ONCE],
            start: 0,
            end: 0,
            failed: false,
        }
    }

    /// How many bytes are held.
    pub(crate) fn held(&self) -> usize
        ensures { result ≡ length self.now.held }
    {
        self.buffer[self.start..self.end].len()
    }

    /// The source, with what it has left. Where it has failed nothing of it is held.
    pub(crate) fn into_inner(self) -> S
        ensures source { result ≡ self.source }
        ensures none { self.failed ≡ true → self.held ≡ [] }
    {
        self.source
    }

    /// Gives the next bytes: those that are held; or else the source is read for as many as there is room for.
    pub(crate) fn read(&mut self, into: &mut [u8]) -> Result<usize, Failed>
        ensures bytes { S.observed → Takes result
            (left_ahead S.left self.old) (left_ahead S.left self.new) into.new }
        ensures count { IfOk result (λ count. count ≤ length into.new) }
        ensures apart { 0 < length self.old.held → IsApart result self.old self.new }
        ensures most { 0 < length self.old.held → IfOk result (λ count.
            count ≡ min (length self.old.held) (length into.old)) }
        ensures failed { KeepsFailed result self.old self.new }
        ensures cause { HasCause result (S.faults self.old.source) (S.faults self.new.source) }
    {
        if self.failed {
            return self.source.read(into);
        }
        if self.start == self.end {
            self.fill()?;
        }
        Ok(self.hand_on(into))
    }

    /// Reads the source once.
    fn fill(&mut self) -> Result<(), Failed>
        requires empty { self.old.held ≡ [] }
        requires sound { self.old.failed ≡ false }
        ensures told { S.observed → left_ahead S.left self.new ≡ left_ahead S.left self.old }
        ensures end { S.observed → OnOk result (self.new.held ≡ []
            → left_ahead S.left self.old ≡ []) }
        ensures failed { KeepsFailed result self.old self.new }
        ensures cause { HasCause result (S.faults self.old.source) (S.faults self.new.source) }
    {
        match self.source.read(&mut self.buffer) {
            Ok(count) => {
                self.start = 0;
                self.end = count;
                Ok(())
            }
            Err(Failed) => {
                self.failed = true;
                Err(Failed)
            }
        }
    }

    /// Gives of what is held as much as there is room for.
    fn hand_on(&mut self, into: &mut [u8]) -> usize
        ensures taken { self.old.held ≡ take result into.new ++ self.new.held }
        ensures count { result ≡ min (length self.old.held) (length into.old) }
        ensures source { self.new.source ≡ self.old.source }
        ensures failed { self.new.failed ≡ self.old.failed }
    {
        let held = &self.buffer[self.start..self.end];
        let count = held.len().min(into.len());
        into[..count].copy_from_slice(&held[..count]);
        self.start += count;
        count
    }
}
