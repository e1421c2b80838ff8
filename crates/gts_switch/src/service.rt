//! The station of a service. A circuit may wait for its neighbour without an end, and holds the end of the run up then. So where the
//! disk or standard output of a service fails, that is told at once, and the lines of all circuits come to their ends.
ghost use Rattle.std.specs.Prelude.{◌≡◌};

use crate::telling::tell;
use gts_app::Status;
use gts_real::{Cause, FileStation};
use gts_tcp::Stop;
use gts_traits::{Channel, Failed, JournalFile, Station};
use std::fs::File;
use std::rt::Files;

/// Tells why the last call failed.
pub trait Causes {
    /// Of those on a journal file.
    fn disk_cause(&self) -> Option<Cause>;

    /// Of the says.
    fn say_cause(&self) -> Option<Cause>;
}

impl<R: Files<File = File> + Print + AllocGlobal> Causes for FileStation<'_, R> {
    fn disk_cause(&self) -> Option<Cause> {
        FileStation::disk_cause(self)
    }

    fn say_cause(&self) -> Option<Cause> {
        FileStation::say_cause(self)
    }
}

/// A station that does what the one in it does. Where it is a service's, the first call that fails is told, with the lines of such an
/// end.
#[derive(Drop)]
pub struct ServiceStation<'a, R: Eprint, P> {
    pub rt: &'a R,
    pub station: P,
    /// Lets the lines come to their ends.
    pub stop: &'a Stop,
    pub is_service: bool,
    /// The end that was told.
    pub told: Option<Status>,
}

impl<R: Eprint, P: Station + Causes> ServiceStation<'_, R, P> {
    /// Tells that a device of a service failed, unless a failure was told.
    fn tell_failure(&mut self, status: Status, cause: Option<Cause>)
        ensures { self.new.station ≡ self.old.station }
    {
        if self.is_service && self.told.is_none() {
            self.told = Some(status);
            tell(self.rt, status, cause);
            self.stop.set();
        }
    }

    /// Looks whether a call on a journal file failed.
    fn looks_at_disk(&mut self, failed: bool)
        ensures { self.new.station ≡ self.old.station }
    {
        if failed {
            let cause = self.station.disk_cause();
            self.tell_failure(Status::DiskFault, cause);
        }
    }

    /// Looks whether a say failed, or keeping what was said.
    fn looks_at_output(&mut self, failed: bool)
        ensures { self.new.station ≡ self.old.station }
    {
        if failed {
            let cause = self.station.say_cause();
            self.tell_failure(Status::OutputFault, cause);
        }
    }
}

impl<R: Eprint, P: Station + Causes> Station for ServiceStation<'_, R, P> {
    ghost observed = { P.observed };

    ghost calls = { λ s. P.calls s.station };

    ghost disk_faults = { λ s. P.disk_faults s.station };

    ghost say_faults = { λ s. P.say_faults s.station };

    ghost is_kept = { λ s. P.is_kept s.station };

    ghost possible = { λ s told. P.possible s.station told };

    fn size(&mut self, file: JournalFile) -> Result<u64, Failed> {
        let result = self.station.size(file);
        self.looks_at_disk(result.is_err());
        result
    }

    fn read(&mut self, file: JournalFile, at: u64, into: &mut [u8]) -> Result<usize, Failed> {
        let result = self.station.read(file, at, into);
        self.looks_at_disk(result.is_err());
        result
    }

    fn write_at(&mut self, file: JournalFile, at: u64, bytes: &[u8]) -> Result<(), Failed> {
        let result = self.station.write_at(file, at, bytes);
        self.looks_at_disk(result.is_err());
        result
    }

    fn cut(&mut self, file: JournalFile, size: u64) -> Result<(), Failed> {
        let result = self.station.cut(file, size);
        self.looks_at_disk(result.is_err());
        result
    }

    fn sync(&mut self) -> Result<(), Failed> {
        let result = self.station.sync();
        self.looks_at_disk(result.is_err());
        result
    }

    fn say(&mut self, channel: Channel, bytes: &[u8]) -> Result<(), Failed> {
        let result = self.station.say(channel, bytes);
        self.looks_at_output(result.is_err());
        result
    }

    fn keep(&mut self) -> Result<(), Failed> {
        let result = self.station.keep();
        self.looks_at_output(result.is_err());
        result
    }
}
