//! Records of a feed are gathered behind a journal, and brought into it behind one gate.
ghost use Rattle.std.specs.Prelude.{◌≡◌, ◌≢◌, ◌+◌, ◌<◌, ℕ, List, true, length, IfOk, IfErr, OnOk, OnErr};
ghost use Rattle.gts_standby.specs.Cited.{AsksBoth, AsksDisk, AsksFeed, Brings, CanGather, GathersNext, HasDiskCounts, HasRead, IsFedEnd, IsFinished, IsGathered, IsReadEnd, IsReadyEnd, IsSettled, IsWhole, MOST_GATHERED, MayBring, MayHaveBrought, StaysWhole, held, no_records, said_by, tells_next};

use crate::FollowEnd;
use crate::ahead::Ahead;
use crate::fed::{LONGEST, end_at, read_next, tells_next};
use gts_core::Core;
use gts_directory::Directory;
use gts_journal::{Batch, Journal};
use gts_record::decode_sealed;
use gts_recovery::admit;
use gts_traits::{Failed, NoMemory, Source, Station};
use std::alloc::Global;

/// A journal at its end, and records of a feed that are to stand behind it.
#[derive(Drop)]
pub(crate) struct Gathering {
    journal: Journal,
    batch: Batch,
    /// The seal of the last of them; where there is none, that of the journal.
    seal: [u8; 32],
}

impl Gathering {
    /// No record was gathered yet.
    pub(crate) fn begin(alloc: Global, journal: Journal) -> Result<Gathering, NoMemory>
        ensures journal { IfOk result (λ g. g.journal ≡ journal) }
        ensures batch { IfOk result (λ g. g.batch ≡ no_records journal) }
        ensures seal { IfOk result (λ g. held journal.version g.seal ≡ journal.seal) }
    {
        let batch = journal.batch(alloc)?;
        let seal = journal.seal();
        Ok(Gathering {
            journal,
            batch,
            seal,
        })
    }

    /// Gathers the record of a feed that stands next, at a place, and answers its size there. What was read ahead tells it, and
    /// there is room for the longest one. Nothing is read.
    pub(crate) fn gather(
        &mut self,
        alloc: Global,
        directory: &Directory,
        core: &mut Core,
        ahead: &mut Ahead,
        at: u64,
    ) -> Result<usize, FollowEnd>
        requires going { CanGather directory.now core.old self.old }
        requires room { length self.old.batch.text + LONGEST < MOST_GATHERED }
        requires enough { tells_next self.old.journal.version ahead.old ≡ true }
        ensures gathered { GathersNext result directory.now core.old self.old at ahead.old
            core.new self.new ahead.new }
        ensures unchanged { OnErr result (self.new ≡ self.old) }
        ensures kind { IfErr result IsFedEnd }
        ensures unread { IfErr result (λ end. end ≢ FollowEnd.SourceFault) }
        ensures whole { (left : List ℕ) → IsWhole ahead.old left
            → StaysWhole result ahead.new left }
    {
        // A limit is low enough for the places of gates.
        directory.bounds_hold();
        let version = self.journal.version();
        let gate = self.journal.behind_gate() - 1 + self.batch.used();
        match decode_sealed(version, &self.seal, ahead.bytes()) {
            Some(found) => {
                let record = found.0;
                let size = found.1;
                let seal = found.2;
                if !admit(core, alloc, directory, version, gate, &record)? {
                    return Err(FollowEnd::Feed { at });
                }
                self.batch.add(&record);
                self.seal = seal;
                ahead.pass(size);
                Ok(size)
            }
            None => Err(end_at(version, ahead, at)),
        }
    }

    /// Brings the records that were gathered into the journal, behind one gate.
    fn bring<P: Station>(&mut self, station: &mut P, directory: &Directory) -> Result<(), FollowEnd>
        requires { IsGathered P.observed directory.now (P.calls station.old) self.old }
        // All of them stand there.
        ensures brought { OnOk result (Brings P.observed directory.now
            (P.calls station.old) self.old
            (P.calls station.new) self.new) }
        ensures emptied { OnOk result (length self.new.batch.text ≡ 1) }

        // A crash at any moment leaves the journal as it was, or with all of them.
        ensures moments { P.observed → MayBring P.observed directory.now
            (P.calls station.old) self.old
            (P.calls station.new) }
        ensures silent { P.observed → said_by (P.calls station.new) ≡ said_by
            (P.calls station.old) }
        ensures kind { IfErr result (λ end. end ≡ FollowEnd.DiskFault) }
        ensures cause { AsksDisk P.Station result station.old station.new }
    {
        // A limit is low enough for the places of gates.
        directory.bounds_hold();
        if self.batch.is_empty() {
            return Ok(());
        }
        match self.journal.append_batch(station, &mut self.batch) {
            Ok(()) => Ok(()),
            Err(Failed) => Err(FollowEnd::DiskFault),
        }
    }

    /// Reads on in a feed until what was read ahead tells the next record. That may wait for bytes, and perhaps for long: so all
    /// that was taken has to stand in the journal.
    fn read_on<S: Source>(&self, source: &mut S, ahead: &mut Ahead) -> Result<(), FollowEnd>
        requires settled { IsSettled self.now }
        ensures kept { S.observed → (fed : List ℕ) → HasRead fed ahead.old (S.left source.old)
            → OnOk result (HasRead fed ahead.new (S.left source.new)) }
        ensures enough { OnOk result (tells_next self.now.journal.version ahead.new ≡ true) }
        ensures still { tells_next self.now.journal.version ahead.old ≡ true
            → (ahead.new ≡ ahead.old) × (source.new ≡ source.old) }
        ensures kind { IfErr result IsReadEnd }
        ensures cause { AsksFeed S.Source result source.old source.new }
    {
        read_next(source, ahead, self.journal.version())
    }

    /// Sees that another record may be gathered. Where there is no room for the longest one, or what was read ahead is used up, what
    /// was gathered is brought into the journal. Then the feed is read on, where it has to be.
    pub(crate) fn make_ready<P: Station, S: Source>(
        &mut self,
        station: &mut P,
        directory: &Directory,
        source: &mut S,
        ahead: &mut Ahead,
    ) -> Result<(), FollowEnd>
        requires { IsGathered P.observed directory.now (P.calls station.old) self.old }
        ensures brought { OnOk result (MayHaveBrought P.observed directory.now (P.calls station.old)
            self.old (P.calls station.new) self.new) }
        ensures room { OnOk result (length self.new.batch.text + LONGEST < MOST_GATHERED) }
        ensures enough { OnOk result (tells_next self.new.journal.version ahead.new ≡ true) }

        // Nothing is read where the next record is there whole: it is gathered first.
        ensures still { tells_next self.old.journal.version ahead.old ≡ true
            → (ahead.new ≡ ahead.old) × (source.new ≡ source.old) }
        ensures kept { S.observed → (fed : List ℕ) → HasRead fed ahead.old (S.left source.old)
            → OnOk result (HasRead fed ahead.new (S.left source.new)) }
        ensures moments { P.observed → MayBring P.observed directory.now
            (P.calls station.old) self.old
            (P.calls station.new) }
        ensures silent { P.observed → said_by (P.calls station.new) ≡ said_by
            (P.calls station.old) }
        ensures kind { IfErr result IsReadyEnd }
        ensures cause { AsksBoth P.Station S.Source result station.old station.new
            source.old source.new }
    {
        if self.batch.room() > LONGEST && tells_next(self.journal.version(), ahead) {
            return Ok(());
        }
        self.bring(station, directory)?;
        self.read_on(source, ahead)
    }

    /// Ends with a feed, which ends so: what was gathered is brought into the journal.
    pub(crate) fn finish<P: Station>(
        &mut self,
        station: &mut P,
        directory: &Directory,
        end: FollowEnd,
    ) -> FollowEnd
        requires gathered { IsGathered P.observed directory.now (P.calls station.old) self.old }
        requires fed { IsFedEnd end }
        ensures finished { IsFinished result end P.observed directory.now (P.calls station.old)
            self.old (P.calls station.new) self.new }
        ensures moments { P.observed → MayBring P.observed directory.now
            (P.calls station.old) self.old
            (P.calls station.new) }
        ensures silent { P.observed → said_by (P.calls station.new) ≡ said_by
            (P.calls station.old) }
        ensures counts { HasDiskCounts P.Station result station.old station.new }
    {
        match self.bring(station, directory) {
            Ok(()) => end,
            Err(fault) => fault,
        }
    }
}
