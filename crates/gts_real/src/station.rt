ghost use Rattle.std.specs.Prelude.{◌≡◌, ◌+◌, ◌^◌, ◌≤◌, ◌<◌, true, false, [], length, IfOk, OnOk, OnErr, IsErr, IsSome, is_err, is_some};
ghost use Rattle.gts_real.specs.Cited.{FailsWhere, HasCause, faultless};

use crate::cause::{Cause, noted};
use crate::disk::Disk;
use crate::outputs::Outputs;
use gts_traits::{Channel, Failed, JournalFile, Station};
use std::fs::File;
use std::marker::Model;
use std::rt::Files;

/// The station of the program, in the current folder. Journal file k is `journal.k`; one that isn't there has size 0, and
/// is made by its first write or cut. What operators read goes to standard output, and the frames of
/// circuit `c` to the end of `circuit.NN.out`, NN being `c` in two digits. What is done with it is not observed.
///
/// A station that may write takes the lock on the journal by its first call on a file, so two of them exclude one another. One
/// that was opened for reading takes none, and may be used beside one that writes.
#[derive(Drop)]
pub struct FileStation<'a, R: Files<File = File> + Print + AllocGlobal> {
    rt: &'a R,
    disk: Disk,
    outputs: Outputs,
    disk_faults: u64,
    say_faults: u64,
    // Why the last call on a file that failed did, and the last say.
    disk_cause: Option<Cause>,
    say_cause: Option<Cause>,
}

impl<'a, R: Files<File = File> + Print + AllocGlobal> Model for FileStation<'a, R> {
    ghost use Rattle.std.specs.Prelude.{is_some};
    ghost use Rattle.gts_real.specs.Station.{StationOnSystem};

    ghost Value = { StationOnSystem };

    ghost view = { λ s. record {
      is_reader = s.disk.is_reader;
      is_lost = is_some s.disk.lost;
      is_unkept = is_some s.outputs.lost;
      disk_faults = s.disk_faults;
      say_faults = s.say_faults;
      disk_cause = s.disk_cause;
      say_cause = s.say_cause;
    } };
}

impl<'a, R: Files<File = File> + Print + AllocGlobal> FileStation<'a, R> {
    /// A station that may write. Nothing is opened yet, and no memory is taken.
    pub fn new(rt: &'a R) -> FileStation<'a, R>
        ensures { result ≡ faultless false }
    {
        FileStation::with(rt, Disk::new(false))
    }

    /// A station that reads the journal files and brings them to the disk, and changes none: each write and each cut fails.
    /// Nothing is opened yet, and no memory is taken.
    pub fn for_reading(rt: &'a R) -> FileStation<'a, R>
        ensures { result ≡ faultless true }
    {
        FileStation::with(rt, Disk::new(true))
    }

    /// Why the last call on a journal file that failed did. `None` where none has failed.
    pub fn disk_cause(&self) -> Option<Cause>
        ensures { result ≡ self.now.disk_cause }
    {
        self.disk_cause
    }

    /// Why the last say that failed did, or keeping what was said. `None` where none has failed.
    pub fn say_cause(&self) -> Option<Cause>
        ensures { result ≡ self.now.say_cause }
    {
        self.say_cause
    }

    /// A station over these journal files, which has had no fault.
    fn with(rt: &'a R, disk: Disk) -> FileStation<'a, R>
        requires { disk.lost ≡ None }
        ensures { result ≡ faultless disk.is_reader }
    {
        FileStation {
            rt,
            disk,
            outputs: Outputs::new(),
            disk_faults: 0,
            say_faults: 0,
            disk_cause: None,
            say_cause: None,
        }
    }
}

impl<R: Files<File = File> + Print + AllocGlobal> Station for FileStation<'_, R> {
    ghost observed = { ⊥ };

    ghost calls = { λ _. [] };

    ghost disk_faults = { λ s. s.disk_faults };

    ghost say_faults = { λ s. s.say_faults };

    ghost is_kept = { λ _. true };

    ghost possible = { λ s told. absurd told };

    fn size(&mut self, file: JournalFile) -> Result<u64, Failed>
        ensures cause { HasCause result self.old.disk_faults self.new.disk_faults }
        ensures why { OnErr result (IsSome self.new.disk_cause) }
        ensures say { self.new.say_faults ≡ self.old.say_faults }
        ensures reader { self.new.is_reader ≡ self.old.is_reader }
        ensures lost { FailsWhere result self.old.is_lost self.new.is_lost }
        ensures unkept { self.new.is_unkept ≡ self.old.is_unkept }
    {
        noted(
            self.disk.size(self.rt, file),
            &mut self.disk_faults,
            &mut self.disk_cause,
        )
    }

    fn read(&mut self, file: JournalFile, at: u64, into: &mut [u8]) -> Result<usize, Failed>
        ensures within { IfOk result (λ n. n ≤ length into.old) }
        ensures cause { HasCause result self.old.disk_faults self.new.disk_faults }
        ensures why { OnErr result (IsSome self.new.disk_cause) }
        ensures say { self.new.say_faults ≡ self.old.say_faults }
        ensures reader { self.new.is_reader ≡ self.old.is_reader }
        ensures lost { FailsWhere result self.old.is_lost self.new.is_lost }
        ensures unkept { self.new.is_unkept ≡ self.old.is_unkept }
    {
        noted(
            self.disk.read(self.rt, file, at, into),
            &mut self.disk_faults,
            &mut self.disk_cause,
        )
    }

    /// Fails also where the station was opened for reading, or another program has the lock on the journal. Then it changes
    /// nothing.
    fn write_at(&mut self, file: JournalFile, at: u64, bytes: &[u8]) -> Result<(), Failed>
        requires room { at + length bytes.now ≤ 2 ^ 40 }
        ensures cause { HasCause result self.old.disk_faults self.new.disk_faults }
        ensures why { OnErr result (IsSome self.new.disk_cause) }
        ensures say { self.new.say_faults ≡ self.old.say_faults }
        ensures reader { FailsWhere result self.old.is_reader self.new.is_reader }
        ensures lost { FailsWhere result self.old.is_lost self.new.is_lost }
        ensures unkept { self.new.is_unkept ≡ self.old.is_unkept }
    {
        noted(
            self.disk.write_at(self.rt, file, at, bytes),
            &mut self.disk_faults,
            &mut self.disk_cause,
        )
    }

    /// Fails also where the station was opened for reading, or another program has the lock on the journal. Then it changes
    /// nothing.
    fn cut(&mut self, file: JournalFile, size: u64) -> Result<(), Failed>
        ensures cause { HasCause result self.old.disk_faults self.new.disk_faults }
        ensures why { OnErr result (IsSome self.new.disk_cause) }
        ensures say { self.new.say_faults ≡ self.old.say_faults }
        ensures reader { FailsWhere result self.old.is_reader self.new.is_reader }
        ensures lost { FailsWhere result self.old.is_lost self.new.is_lost }
        ensures unkept { self.new.is_unkept ≡ self.old.is_unkept }
    {
        noted(
            self.disk.cut(self.rt, file, size),
            &mut self.disk_faults,
            &mut self.disk_cause,
        )
    }

    /// Brings to the disk what was written or cut since the last sync; the first one all that is there, whoever wrote it. Once
    /// it has failed, every later call on a file fails.
    fn sync(&mut self) -> Result<(), Failed>
        ensures cause { HasCause result self.old.disk_faults self.new.disk_faults }
        ensures why { OnErr result (IsSome self.new.disk_cause) }
        ensures say { self.new.say_faults ≡ self.old.say_faults }
        ensures reader { self.new.is_reader ≡ self.old.is_reader }
        ensures fails { self.old.is_lost ≡ true → IsErr result }
        ensures lost { self.new.is_lost ≡ is_err result }
        ensures unkept { self.new.is_unkept ≡ self.old.is_unkept }
    {
        noted(
            self.disk.sync(self.rt),
            &mut self.disk_faults,
            &mut self.disk_cause,
        )
    }

    fn say(&mut self, channel: Channel, bytes: &[u8]) -> Result<(), Failed>
        ensures cause { HasCause result self.old.say_faults self.new.say_faults }
        ensures why { OnErr result (IsSome self.new.say_cause) }
        ensures disk { self.new.disk_faults ≡ self.old.disk_faults }
        ensures reader { self.new.is_reader ≡ self.old.is_reader }
        ensures lost { self.new.is_lost ≡ self.old.is_lost }
        ensures unkept { self.new.is_unkept ≡ self.old.is_unkept }
    {
        noted(
            self.outputs.write(self.rt, channel, bytes),
            &mut self.say_faults,
            &mut self.say_cause,
        )
    }

    /// Brings to the disk what was said to the circuits' files, and the folder's list of them. Once it has failed, every later
    /// call of it fails.
    fn keep(&mut self) -> Result<(), Failed>
        ensures cause { HasCause result self.old.say_faults self.new.say_faults }
        ensures why { OnErr result (IsSome self.new.say_cause) }
        ensures disk { self.new.disk_faults ≡ self.old.disk_faults }
        ensures reader { self.new.is_reader ≡ self.old.is_reader }
        ensures lost { self.new.is_lost ≡ self.old.is_lost }
        ensures fails { self.old.is_unkept ≡ true → IsErr result }
        ensures unkept { self.new.is_unkept ≡ is_err result }
    {
        noted(
            self.outputs.keep(self.rt),
            &mut self.say_faults,
            &mut self.say_cause,
        )
    }
}
