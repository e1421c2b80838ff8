//! A station that has the bytes of a checkpoint, so that they are read as those of a file.
ghost use Rattle.std.specs.Prelude.{◌≡◌, false, IsErr};
ghost use Rattle.gts_checkpoint.specs.Cited.{HasCause, laid, laid_is_possible};

use gts_traits::{Channel, Failed, JournalFile, Station};

/// How many bytes of a file are in front of its first record: the header and a gate.
const IN_FRONT: u64 = 41;

/// The bytes of a checkpoint that stands in no file of a journal, read as the first record of one. Each call fails but a read
/// behind the first gate.
#[derive(Drop)]
pub(crate) struct CheckpointBytes<'a> {
    bytes: &'a [u8],
    disk_faults: u64,
    say_faults: u64,
}

/// Counts a call that fails.
fn refuse<T>(faults: &mut u64) -> Result<T, Failed>
    ensures failed { IsErr result }
    ensures cause { HasCause result faults.old faults.new }
{
    *faults = faults.saturating_add(1);
    Err(Failed)
}

impl<'a> CheckpointBytes<'a> {
    pub(crate) fn new(bytes: &'a [u8]) -> CheckpointBytes<'a>
        ensures { laid result.bytes.now ≡ laid bytes.now }
    {
        CheckpointBytes {
            bytes,
            disk_faults: 0,
            say_faults: 0,
        }
    }
}

impl Station for CheckpointBytes<'_> {
    ghost observed = { Unit {0} };

    ghost calls = { λ s. laid s.bytes.now };

    ghost disk_faults = { λ s. s.disk_faults };

    ghost say_faults = { λ s. s.say_faults };

    ghost is_kept = { λ _. false };

    ghost possible = { λ s told. laid_is_possible s.bytes.now };

    fn size(&mut self, _file: JournalFile) -> Result<u64, Failed> {
        refuse(&mut self.disk_faults)
    }

    fn read(&mut self, file: JournalFile, at: u64, into: &mut [u8]) -> Result<usize, Failed> {
        if file != JournalFile::FIRST || at < IN_FRONT {
            return refuse(&mut self.disk_faults);
        }
        let start = self.bytes.len().min((at - IN_FRONT) as usize);
        let count = into.len().min(self.bytes.len() - start);
        into[..count].copy_from_slice(&self.bytes[start..start + count]);
        Ok(count)
    }

    fn write_at(&mut self, _file: JournalFile, _at: u64, _bytes: &[u8]) -> Result<(), Failed> {
        refuse(&mut self.disk_faults)
    }

    fn cut(&mut self, _file: JournalFile, _size: u64) -> Result<(), Failed> {
        refuse(&mut self.disk_faults)
    }

    fn sync(&mut self) -> Result<(), Failed> {
        refuse(&mut self.disk_faults)
    }

    fn say(&mut self, _channel: Channel, _bytes: &[u8]) -> Result<(), Failed> {
        refuse(&mut self.say_faults)
    }

    fn keep(&mut self) -> Result<(), Failed> {
        refuse(&mut self.say_faults)
    }
}
