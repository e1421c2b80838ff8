//! The bytes of a feed that were read ahead.
ghost use Rattle.std.specs.Prelude.{◌≡◌, ◌⊎◌, ◌≤◌, ◌<◌, ◌^◌, ℕ, List, true, false, length, drop, OnOk, IfErr};
ghost use Rattle.gts_standby.specs.Cited.{AsksFeed, HasRead, IsReadEnd, unread};

use crate::FollowEnd;
use gts_traits::{Failed, Source};
use std::alloc::Global;
use std::marker::Model;

/// How many bytes are read at once.
const PIECE: usize = 65536;

/// Bytes of a feed that were read and not taken yet, and whether the source has no more.
#[derive(Drop)]
pub(crate) struct Ahead {
    bytes: Vec<u8>,
    begin: usize,
    is_all: bool,
}

impl Model for Ahead {
    ghost use Rattle.std.specs.Prelude.{◌≤◌, drop, vec_len};
    ghost use Rattle.gts_standby.specs.Ahead.{InFeed};

    ghost Value = { InFeed };

    ghost view = { λ a. record { bytes = drop a.begin a.bytes.items; is_all = a.is_all } };

    ghost invariant = { λ a. a.begin ≤ vec_len a.bytes };
}

impl Ahead {
    /// Nothing was read yet.
    pub(crate) fn new(alloc: Global) -> Ahead
        ensures { result ≡ unread }
    {
        Ahead {
            bytes: Vec::new(alloc),
            begin: 0,
            is_all: false,
        }
    }

    /// The bytes that were read and not taken yet.
    pub(crate) fn bytes(&self) -> &[u8]
        ensures { result.now ≡ self.now.bytes }
    {
        &self.bytes[self.begin..]
    }

    /// Those from a place on.
    pub(crate) fn bytes_from(&self, at: usize) -> &[u8]
        ensures { result.now ≡ drop at self.now.bytes }
    {
        let bytes = self.bytes();
        &bytes[at.min(bytes.len())..]
    }

    /// How many these are.
    pub(crate) fn len(&self) -> usize
        ensures { result ≡ length self.now.bytes }
    {
        self.bytes.len() - self.begin
    }

    /// Whether the source has no more.
    pub(crate) fn is_all(&self) -> bool
        ensures { result ≡ self.now.is_all }
    {
        self.is_all
    }

    /// Takes so many bytes.
    pub(crate) fn pass(&mut self, count: usize)
        requires { count ≤ length self.old.bytes }
        ensures { self.new ≡ record self.old { bytes = drop count self.old.bytes } }
    {
        self.begin += count;
    }

    /// Moves what is left to the front, where that is less than what was taken: so a byte is moved once.
    fn settle(&mut self)
        ensures { self.new ≡ self.old }
    {
        let left = self.bytes.len() - self.begin;
        if self.begin <= left {
            return;
        }
        self.bytes.copy_within(self.begin.., 0);
        self.bytes.truncate(left);
        self.begin = 0;
    }

    /// Reads one piece more.
    pub(crate) fn read_on<S: Source>(&mut self, source: &mut S) -> Result<(), FollowEnd>
        requires { self.old.is_all ≡ false }
        ensures kept { S.observed → (fed : List ℕ) → HasRead fed self.old (S.left source.old)
            → OnOk result (HasRead fed self.new (S.left source.new)) }
        ensures longer { OnOk result (length self.old.bytes ≤ length self.new.bytes) }
        ensures further { OnOk result ((self.new.is_all ≡ true)
            ⊎ (length self.old.bytes < length self.new.bytes)) }
        ensures kind { IfErr result IsReadEnd }
        ensures cause { AsksFeed S.Source result source.old source.new }
    {
        self.settle();
        let mut piece = [0u8; PIECE];
        let count = match source.read(&mut piece) {
            Ok(count) => count,
            Err(Failed) => return Err(FollowEnd::SourceFault),
        };
        if count == 0 {
            self.is_all = true;
            return Ok(());
        }
        match self.bytes.extend_from_slice(&piece[..count]) {
            Ok(()) => Ok(()),
            Err(_) => Err(FollowEnd::NoMemory),
        }
    }

    /// Reads on until so many bytes are there, or the source has no more.
    pub(crate) fn fill<S: Source>(&mut self, source: &mut S, want: usize) -> Result<(), FollowEnd>
        requires { want ≤ 2 ^ 40 }
        ensures kept { S.observed → (fed : List ℕ) → HasRead fed self.old (S.left source.old)
            → OnOk result (HasRead fed self.new (S.left source.new)) }
        ensures enough { OnOk result
            ((self.new.is_all ≡ true) ⊎ (want ≤ length self.new.bytes)) }
        ensures kind { IfErr result IsReadEnd }
        ensures cause { AsksFeed S.Source result source.old source.new }
    {
        while self.len() < want && !self.is_all {
            self.read_on(source)?;
        }
        Ok(())
    }
}
