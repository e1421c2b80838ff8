ghost use Rattle.std.specs.Prelude.{◌≡◌, ◌≢◌, ◌+◌, ◌-◌, ◌≤◌, ◌<◌, ◌^◌, ◌==◌, true, ℕ, List, [], ◌∷◌, ◌++◌, length, IfOk, IsErr, OnOk};
ghost use Rattle.gts_journal.specs.Cited.{AsksDisk, EachSince, Gathers, HasBlock, IsBlock, IsRecord, IsSynced, LeavesAllOrNone, ReachesWithin, Record as RecordOf, STEP, StandsOn, beyond_block, file_of, no_records, record_of, record_size, record_text, said_by, seen};

use crate::opening::zeros;
use crate::{CLOSED, Journal, LARGEST_FILE, OPEN};
use gts_alphabet::NoMemory;
use gts_record::{Record, Version, encode_sealed};
use gts_traits::{Failed, Station, write_synced};
use std::alloc::Global;
use std::cmp::max;
use std::marker::Model;

/// How many bytes of records, with their seals and gates, may be gathered.
pub const MOST_GATHERED: usize = 1 << 20;

/// So many bytes more a file of records is made to have at once, where small batches are appended to it: a sync behind a write that
/// leaves a file's size as it is costs less.
const STEP: usize = 1 << 18;

/// From so many bytes on a file grows in steps: a small journal has the bytes of its records alone.
const FIRST_STEP: u64 = 1 << 16;

/// A batch is small up to so many bytes.
const SMALL: usize = 1 << 16;

/// Records that are to be appended behind one gate: all of them come to stand in the journal, or none.
#[derive(Drop)]
pub struct Batch {
    version: Version,
    seal: [u8; 32],
    buffer: Vec<u8>,
    size: usize,
}

impl Model for Batch {
    ghost use Rattle.std.specs.Prelude.{◌≡◌, ◌<◌, ◌≤◌, take, vec_len};
    ghost use Rattle.gts_record.specs.Format.{held};
    ghost use Rattle.gts_journal.specs.Batch.{Gathered};
    ghost use Rattle.gts_journal.specs.declared.batch.TheConstants.{MOST_GATHERED};

    ghost Value = { Gathered };

    ghost view = { λ b. record {
      version = b.version;
      text = take b.size b.buffer.items;
      seal = held b.version b.seal;
    } };

    ghost invariant = { λ b. (0 < b.size) × (b.size ≤ MOST_GATHERED)
        × (vec_len b.buffer ≡ MOST_GATHERED) };
}

impl Batch {
    /// Whether no record was gathered.
    pub fn is_empty(&self) -> bool
        ensures value { result ≡ (length self.now.text == 1) }
        ensures closed { 0 < length self.now.text }
    {
        self.size == 1
    }

    /// How many bytes the records that were gathered take in the journal.
    pub fn used(&self) -> u64
        ensures value { result ≡ length self.now.text - 1 }
        ensures closed { 0 < length self.now.text }
    {
        self.size as u64 - 1
    }

    /// How many bytes more may be gathered.
    pub fn room(&self) -> usize
        ensures { length self.now.text + result ≡ MOST_GATHERED }
    {
        MOST_GATHERED - self.size
    }

    /// Begins anew, without a record, to be appended at the end of a journal.
    pub fn begin(&mut self, journal: &Journal)
        ensures { self.new ≡ no_records journal.now }
    {
        self.version = journal.version;
        self.seal = journal.seal;
        self.buffer[0] = CLOSED;
        self.size = 1;
    }

    /// Gathers a record behind those that were gathered.
    pub fn add(&mut self, rec: &Record<'_>)
        requires sound { IsRecord (record_of rec.now) }
        requires room { length self.old.text + length (record_text (record_of rec.now)) + 33
            ≤ MOST_GATHERED }
        ensures gathers { (before : List ℕ) (rs : List RecordOf) → Gathers before rs self.old
            → Gathers before (rs ++ record_of rec.now ∷ []) self.new }
        ensures version { self.new.version ≡ self.old.version }
        ensures size { length self.new.text
            ≡ length self.old.text + record_size self.old.version (record_of rec.now) }
    {
        let at = self.size;
        let into = &mut self.buffer[at..];
        let (count, seal) = encode_sealed(self.version, &self.seal, rec, into);
        self.buffer[at - 1] = OPEN;
        self.buffer[at + count] = CLOSED;
        self.size = at + count + 1;
        self.seal = seal;
    }
}

/// How much of the front of a batch's buffer is written for its records, which are so many bytes, at a gate of a file that reaches so far:
/// they alone, or what happens to stand behind them too, which makes the file longer. Nobody reads that.
fn extent(gate: u64, reach: u64, size: usize) -> usize
    requires most { size ≤ MOST_GATHERED }
    requires room { gate + size ≤ 2 ^ 40 }
    ensures whole { size ≤ result }
    ensures step { result ≤ size + STEP }
    ensures most { result ≤ MOST_GATHERED }
    ensures room { gate + result ≤ 2 ^ 40 }
{
    let further = size + STEP;
    let is_far = gate >= FIRST_STEP && gate + further as u64 <= LARGEST_FILE;
    if is_far && size <= SMALL && reach < gate + size as u64 {
        further
    } else {
        size
    }
}

impl Journal {
    /// A batch without a record, which is to be appended at the end of the journal.
    pub fn batch(&self, alloc: Global) -> Result<Batch, NoMemory>
        ensures { IfOk result (λ batch. batch ≡ no_records self.now) }
    {
        let mut buffer = zeros(alloc, MOST_GATHERED)?;
        buffer[0] = CLOSED;
        Ok(Batch {
            version: self.version,
            seal: self.seal,
            buffer,
            size: 1,
        })
    }

    /// Adds the records of a batch at the end of the journal: they and a closed gate are written and synced behind the last gate,
    /// and then that gate is opened and synced. The batch is left without a record. After `Failed` the journal is to be opened
    /// again.
    pub fn append_batch<P: Station>(
        &mut self,
        station: &mut P,
        batch: &mut Batch,
    ) -> Result<(), Failed>
        requires some { IsBlock batch.old.text }
        requires version { batch.old.version ≡ self.old.version }
        requires end { self.old.ended ≡ true }
        requires room { self.old.gate + length batch.old.text ≤ 2 ^ 40 }
        requires stands { P.observed → StandsOn (P.calls station.old) self.old }

        // The records stand there, and behind them a closed gate, behind which anything may stand. Each crash leaves that, since the
        // journal stands there.
        ensures added { P.observed → OnOk result (HasBlock (P.calls station.old) self.old
            batch.old.text (file_of (P.calls station.new) self.new)) }
        ensures stands { P.observed → OnOk result (StandsOn (P.calls station.new) self.new) }
        ensures place { OnOk result
            (self.new ≡ beyond_block self.old batch.old.text batch.old.seal) }
        ensures emptied { OnOk result (batch.new ≡ no_records self.new) }

        // Each other file is as it was; where it failed, each that was synced.
        ensures others { P.observed → (k : ℕ) → k ≢ self.old.file
            → (IsErr result → IsSynced (P.calls station.old) k)
            → seen (P.calls station.new) k ≡ seen (P.calls station.old) k }

        // No longer than it was, or than a step behind the records.
        ensures reach { P.observed → OnOk result (ReachesWithin STEP (P.calls station.old) self.old
            batch.old.text (file_of (P.calls station.new) self.new)) }

        // A crash at any moment of the call leaves the journal as it was, or with all records of the batch; and the other files that
        // were synced as they were.
        ensures moments { P.observed → EachSince (P.calls station.old) (P.calls station.new)
            (LeavesAllOrNone (P.calls station.old) self.old batch.old.text) }
        ensures silent { P.observed → said_by (P.calls station.new) ≡ said_by
            (P.calls station.old) }
        ensures cause { AsksDisk P.Station result station.old station.new }
    {
        let size = batch.size;
        let end = extent(self.gate, self.reach, size);
        let block = &batch.buffer[1..end];
        write_synced(station, self.file, self.gate + 1, block)?;
        write_synced(station, self.file, self.gate, &[OPEN])?;
        self.reach = max(self.reach, self.gate + end as u64);
        self.gate += size as u64 - 1;
        self.seal = batch.seal;
        self.begin = 0;
        self.end = 0;
        self.is_all = false;
        batch.buffer[0] = CLOSED;
        batch.size = 1;
        Ok(())
    }
}
