//! A checkpoint that stands in no file.
ghost use Rattle.std.specs.Prelude.{◌≡◌, IfOk, IfSome, IfNone};
ghost use Rattle.gts_checkpoint.specs.Cited.{IsCheckpoint, Need as NeedOf, need_of, written};

use crate::checkpoint_bytes::CheckpointBytes;
use crate::reading::{FIRST_RECORD, gate_behind, need_at, waiting};
use crate::sound::is_sound;
use gts_alphabet::NoMemory;
use gts_directory::Directory;
use gts_event::Need;
use gts_record::Version;
use gts_traits::JournalFile;
use std::alloc::Global;

/// The need of the one whole checkpoint that these bytes are, without its seal, where it may be the first record of a journal of
/// the version that is written. `None` exactly where they are none, or one that may not stand there.
pub fn decode(alloc: Global, bytes: &[u8], directory: &Directory) -> Result<Option<Need>, NoMemory>
    ensures found { IfOk result (λ found. IfSome found
        (λ n. IsCheckpoint written directory.now bytes.now (need_of n))) }
    ensures none { IfOk result (λ found. IfNone found
        ((n : NeedOf) → IsCheckpoint written directory.now bytes.now n → ⊥)) }
{
    let limit = directory.limit();
    let mut checkpoint_bytes = CheckpointBytes::new(bytes);
    let Ok(found) = need_at(
        alloc,
        &mut checkpoint_bytes,
        JournalFile::FIRST,
        directory.circuits(),
    ) else {
        return Err(NoMemory);
    };
    let Some((need, at)) = found else {
        return Ok(None);
    };
    if at - FIRST_RECORD != bytes.len() as u64 {
        return Ok(None);
    }
    let due = waiting(need.circuits.as_slice());
    let Some(_gate) = gate_behind(Version::written(), at, due, limit) else {
        return Ok(None);
    };
    if !is_sound(alloc, directory, &need)? {
        return Ok(None);
    }
    Ok(Some(need))
}
