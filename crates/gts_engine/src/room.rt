ghost use Rattle.std.specs.Prelude.{◌≡◌, ◌+◌, ◌^◌, ◌<◌, ◌≤◌};
ghost use Rattle.gts_engine.specs.Cited.{GivesCheckpoint, Holds, IsSizeAt, State, TellsSpare, all_waiting, bytes_wanted as wanted_of, due, seal_size, spare as spare_of, written};

use gts_core::Core;
use gts_directory::Directory;
use gts_event::{MOST_ACCEPTED, Outcome, SwitchFault};
use gts_journal::Version;
use gts_record::BESIDE_CHECKPOINT;

/// A checkpoint and all draws that are due would pass the limit of a journal.
#[derive(Clone, Copy, Debug, PartialEq, Eq)]
pub struct CheckpointFull {
    /// The bytes of the journal beside them.
    pub used: u64,
    /// The bytes that they take, up to the greatest number.
    pub need: u64,
    /// The limit.
    pub limit: u64,
}

/// The bytes of a journal that is a checkpoint of this size alone.
pub fn compacted_size(size: u64) -> u64
    requires { size < 2 ^ 63 }
    ensures { result ≡ 42 + size + seal_size written }
{
    BESIDE_CHECKPOINT + size + Version::written().seal_size() as u64
}

/// Whether a checkpoint of this size leaves room for so many draws, under the limit of a directory.
pub fn check_checkpoint(directory: &Directory, size: u64, draws: u64) -> Result<(), CheckpointFull>
    requires { draws < 2 ^ 32 }
    ensures { (s : State) → due s ≡ draws → IsSizeAt directory.now s size
        → GivesCheckpoint result directory.now s }
{
    let limit = directory.limit();
    let version = Version::written();
    let beside = version.seal_size() as u64 + version.draw_size() * draws;
    let need = size.saturating_add(beside);
    if need.saturating_add(BESIDE_CHECKPOINT) > limit {
        return Err(CheckpointFull {
            used: BESIDE_CHECKPOINT,
            need,
            limit,
        });
    }
    Ok(())
}

/// The bytes that were wanted of a journal that was full. `None` for any other answer.
pub(crate) fn bytes_wanted(answer: Result<Outcome, SwitchFault>) -> Option<u64>
    ensures { result ≡ wanted_of answer }
{
    match answer {
        Err(SwitchFault::Full { need, .. }) => Some(need),
        _ => None,
    }
}

/// The bytes that a compaction is to leave free beside all that is due, where so many draws are due: an eighth of the limit, and
/// none where no draw is due.
fn spare(directory: &Directory, draws: u64) -> u64
    ensures value { result ≡ spare_of directory.now draws }
    ensures bound { result ≤ 2 ^ 60 }
{
    if draws == 0 {
        return 0;
    }
    directory.limit() / 8
}

/// Whether a journal that is a checkpoint of this size alone has room for so many bytes more, with an eighth of the limit to spare
/// where draws are due, and a position is left.
pub(crate) fn has_spare(core: &Core, directory: &Directory, size: u64, bytes: u64) -> bool
    requires { all_waiting core.now.state.circuits < 2 ^ 64 }
    ensures { (s : State) → Holds directory.now core.now s → IsSizeAt directory.now s size
        → TellsSpare result directory.now s bytes }
{
    if core.accepted() == MOST_ACCEPTED {
        return false;
    }
    let spare = spare(directory, core.waiting());
    let beside = BESIDE_CHECKPOINT + Version::written().seal_size() as u64 + spare;
    size.saturating_add(beside).saturating_add(bytes) <= directory.limit()
}
