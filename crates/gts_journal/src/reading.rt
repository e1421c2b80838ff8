ghost use Rattle.std.specs.Prelude.{◌≡◌, ◌⊎◌, ◌+◌, ◌≤◌, ◌<◌, ◌^◌, true, false, length, if◌then◌else◌, IfOk, IfSome, OnOk, IsErrOf};
ghost use Rattle.gts_journal.specs.Cited.{Gives, GoesOn, HasGoneOn, IsRecord, LooksAt, LooksAtOf, StandsOn, held, next_entry, record_of, sem};

use crate::{AHEAD, Journal, LONGEST, OPEN};
use gts_record::{OpenFault, Record, Version, decode_sealed};
use gts_traits::{Failed, JournalFile, Station};

impl Journal {
    /// The place behind the closed gate; before the end is reached, that of the gate that is read next.
    pub fn used(&self) -> u64
        ensures { result ≡ (if self.now.ended then self.now.gate + 1 else self.now.gate) }
    {
        if self.ended { self.gate + 1 } else { self.gate }
    }

    /// The place behind the gate at which the journal stands, whether or not that is known to be its end.
    pub fn behind_gate(&self) -> u64
        ensures { result ≡ self.now.gate + 1 }
    {
        self.gate + 1
    }

    /// The selected file.
    pub fn file(&self) -> JournalFile
        ensures file { result ≡ self.now.file }
        ensures below { result < 2 }
    {
        self.file
    }

    /// The version of the journal's format.
    pub fn version(&self) -> Version
        ensures { result ≡ self.now.version }
    {
        self.version
    }

    /// The seal of the last record that was read or added, or the one before the first; in version 1 it has no byte that counts.
    pub fn seal(&self) -> [u8; 32]
        ensures { held self.now.version result ≡ self.now.seal }
    {
        self.seal
    }

    // Reads on from the gate.
    fn fill<P: Station>(&mut self, station: &mut P) -> Result<(), Failed>
        ensures place { self.new
            ≡ record self.old { ahead = self.new.ahead; is_all = self.new.is_all } }
        ensures enough { OnOk result
            ((self.new.is_all ≡ true) ⊎ (LONGEST ≤ length self.new.ahead)) }
        ensures stands { P.observed → StandsOn (P.calls station.old) self.old
            → StandsOn (P.calls station.new) self.new }
        ensures looks { LooksAt P.Station result station.old station.new }
    {
        self.begin = 0;
        self.end = 0;
        self.is_all = false;
        let count = station.read(self.file, self.gate, &mut self.buffer)?;
        self.end = count;
        self.is_all = count < AHEAD;
        Ok(())
    }

    // Sees to it that the gate and a record behind it are read ahead, where they are there.
    pub(crate) fn ready<P: Station>(&mut self, station: &mut P) -> Result<(), Failed>
        ensures place { self.new
            ≡ record self.old { ahead = self.new.ahead; is_all = self.new.is_all } }
        ensures enough { OnOk result
            ((self.new.is_all ≡ true) ⊎ (LONGEST ≤ length self.new.ahead)) }
        ensures stands { P.observed → StandsOn (P.calls station.old) self.old
            → StandsOn (P.calls station.new) self.new }
        ensures looks { LooksAt P.Station result station.old station.new }
    {
        if self.is_all || self.end - self.begin >= LONGEST {
            return Ok(());
        }
        self.fill(station)
    }

    /// The record behind the gate, if the gate is open: `None` exactly at a gate that is there and isn't open. Each other
    /// fault than the disk's is the one that stands there, with its place. No memory is taken.
    pub fn next<P: Station>(&mut self, station: &mut P) -> Result<Option<Record<'_>>, OpenFault>
        requires open { self.old.ended ≡ false }
        requires room { self.old.gate < 2 ^ 40 }
        requires stands { P.observed → StandsOn (P.calls station.old) self.old }
        // Once the record is let go, the journal stands behind it.
        ensures* after { sem 𝓛 (GoesOn self.entry
            (λ next. IfOk result (λ found. HasGoneOn self.old found next)
            × (P.observed → StandsOn (P.calls station.new) next))) }
        ensures read { P.observed → Gives result (next_entry (P.calls station.old) self.old) }
        ensures sound { IfOk result (λ found. IfSome found (λ r. IsRecord (record_of r))) }
        ensures looks { LooksAtOf P.Station OpenFault.DiskFault result station.old station.new }
        ensures memory { IsErrOf result OpenFault.NoMemory → ⊥ }
    {
        self.ready(station)?;
        let [mark, rest @ ..] = &self.buffer[self.begin..self.end] else {
            return Err(OpenFault::Damaged {
                file: self.file.number(),
                at: self.gate,
            });
        };
        if *mark != OPEN {
            self.ended = true;
            return Ok(None);
        }
        let Some(found) = decode_sealed(self.version, &self.seal, rest) else {
            return Err(OpenFault::Damaged {
                file: self.file.number(),
                at: self.gate + 1,
            });
        };
        let size = found.1;
        let seal = found.2;
        self.begin += 1 + size;
        self.gate += 1 + size as u64;
        self.seal = seal;
        Ok(Some(found.0))
    }
}
