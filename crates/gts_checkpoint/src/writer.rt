ghost use Rattle.std.specs.Prelude.{◌≡◌, ◌+◌, ◌-◌, ◌^◌, ◌<◌, ◌≤◌, ℕ, List, [], ◌++◌, length, take, vec_len, IfOk, OnOk};
ghost use Rattle.gts_checkpoint.specs.Cited.{AsksDisk, HasPut, OnlyOn, Seals, Stands, Version as VersionOf, count_of, held, holding, seal};

use gts_record::{Sealer, Version};
use gts_traits::{Failed, JournalFile, Station};
use std::alloc::{AllocError, Global};
use std::marker::Model;
use std::mem::replace;

/// How many bytes are held before they are written.
const PIECE: usize = 1 << 16;

/// A file that is written from a place on, and the seal of what is put. What is put is held until there are enough bytes for a
/// write.
#[derive(Drop)]
pub(crate) struct SealingWriter {
    file: JournalFile,
    place: u64,
    buffer: Vec<u8>,
    filled: usize,
    sealer: Sealer,
}

impl Model for SealingWriter {
    ghost use Rattle.std.specs.Prelude.{◌≡◌, ◌^◌, ◌<◌, ◌≤◌, take, vec_len};
    ghost use Rattle.gts_checkpoint.specs.SealingWriter as writers;
    ghost use Rattle.gts_checkpoint.specs.declared.writer.TheConstants.{PIECE};

    ghost Value = { writers.SealingWriter };

    ghost view = { λ p. record {
      file = p.file;
      place = p.place;
      held = take p.filled p.buffer.items;
      sealer = p.sealer;
    } };

    ghost invariant = { λ p. (p.filled ≤ PIECE) × (vec_len p.buffer ≡ PIECE) };
}

// So many zero bytes.
fn zeros(alloc: Global, size: usize) -> Result<Vec<u8>, AllocError>
    ensures { IfOk result (λ bytes. vec_len bytes ≡ size) }
{
    vec![in alloc; 0u8; size]
}

impl SealingWriter {
    /// A writer at a place of a file, with a seal that was begun. All the memory that it needs is taken here.
    pub(crate) fn new(
        alloc: Global,
        file: JournalFile,
        place: u64,
        sealer: Sealer,
    ) -> Result<SealingWriter, AllocError>
        ensures { IfOk result
            (λ writer. writer ≡ record { file = file; place = place; held = []; sealer = sealer }) }
    {
        let buffer = zeros(alloc, PIECE)?;
        Ok(SealingWriter {
            file,
            place,
            buffer,
            filled: 0,
            sealer,
        })
    }

    // Writes bytes behind those that are written, where none are held.
    fn pass<P: Station>(&mut self, station: &mut P, bytes: &[u8]) -> Result<(), Failed>
        requires none { self.old.held ≡ [] }
        requires room { self.old.place + length bytes.now ≤ 2 ^ 40 }
        requires stands { P.observed → Stands (P.calls station.old) self.old }
        ensures put { OnOk result (HasPut P.observed bytes.now (P.calls station.old) self.old
            (P.calls station.new) self.new) }
        ensures held { self.new.held ≡ [] }
        ensures alone { P.observed → OnlyOn self.old.file (P.calls station.old)
            (P.calls station.new) }
        ensures cause { AsksDisk P.Station result station.old station.new }
    {
        station.write_at(self.file, self.place, bytes)?;
        self.place += bytes.len() as u64;
        self.sealer.add(bytes);
        Ok(())
    }

    /// Writes what is held.
    pub(crate) fn flush<P: Station>(&mut self, station: &mut P) -> Result<(), Failed>
        requires room { count_of self.old ≤ 2 ^ 40 }
        requires stands { P.observed → Stands (P.calls station.old) self.old }
        ensures put { OnOk result (HasPut P.observed [] (P.calls station.old) self.old
            (P.calls station.new) self.new) }
        ensures held { OnOk result (self.new.held ≡ []) }
        ensures alone { P.observed → OnlyOn self.old.file (P.calls station.old)
            (P.calls station.new) }
        ensures cause { AsksDisk P.Station result station.old station.new }
    {
        station.write_at(self.file, self.place, &self.buffer[..self.filled])?;
        self.place += self.filled as u64;
        self.filled = 0;
        Ok(())
    }

    // Holds bytes, for which there is room.
    fn hold(&mut self, bytes: &[u8])
        requires { length self.old.held + length bytes.now ≤ PIECE }
        ensures held { self.new ≡ holding self.old bytes.now self.new.sealer }
        ensures seals { (v : VersionOf) (before text : List ℕ) → Seals self.old.sealer v before text
            → Seals self.new.sealer v before (text ++ bytes.now) }
    {
        let next = self.filled + bytes.len();
        self.buffer[self.filled..next].copy_from_slice(bytes);
        self.filled = next;
        self.sealer.add(bytes);
    }

    /// The seal of what was put.
    pub(crate) fn take_seal(&mut self) -> [u8; 32]
        ensures place { self.new ≡ record self.old { sealer = self.new.sealer } }
        ensures seal { (v : VersionOf) (before text : List ℕ)
            → Seals self.old.sealer v before text → held v result ≡ seal v before text }
    {
        let next = Sealer::new(Version::One, &[0; 32]);
        let sealer = replace(&mut self.sealer, next);
        sealer.seal()
    }

    /// Puts bytes behind those that were put before. A long piece is written without a copy.
    pub(crate) fn put<P: Station>(&mut self, station: &mut P, bytes: &[u8]) -> Result<(), Failed>
        requires room { count_of self.old + length bytes.now ≤ 2 ^ 40 }
        requires stands { P.observed → Stands (P.calls station.old) self.old }
        ensures put { OnOk result (HasPut P.observed bytes.now (P.calls station.old) self.old
            (P.calls station.new) self.new) }
        ensures alone { P.observed → OnlyOn self.old.file (P.calls station.old)
            (P.calls station.new) }
        ensures cause { AsksDisk P.Station result station.old station.new }
    {
        if bytes.len() <= PIECE - self.filled {
            self.hold(bytes);
            return Ok(());
        }
        self.flush(station)?;
        if bytes.len() <= PIECE {
            self.hold(bytes);
            return Ok(());
        }
        self.pass(station, bytes)
    }
}
