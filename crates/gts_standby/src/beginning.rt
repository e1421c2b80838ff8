//! A journal begins with the checkpoint of a feed: one without records, or one that begins anew.
ghost use Rattle.std.specs.Prelude.{◌≡◌, ◌+◌, ◌≤◌, ◌^◌, true, length, IfOk, IfErr, OnOk, IsTrue};
ghost use Rattle.gts_standby.specs.Cited.{AsksBoth, AsksDiskOf, BeginsAny, FitsLimit, IsAddEnd, IsOpened, IsPutEnd, IsWhole, MayBegin, StandsFor, StandsOn, State, StaysWhole, begun, checkpoint_text, compacted_bytes, is_sound, need_of, need_seal, said_by, unowed, written};

use crate::FollowEnd;
use crate::ahead::Ahead;
use crate::scanning::fed_checkpoint;
use gts_checkpoint::{WriteFault, decode, write};
use gts_core::Core;
use gts_directory::Directory;
use gts_event::Need;
use gts_journal::{Journal, Version};
use gts_record::{BESIDE_CHECKPOINT, HEADER, first_seal};
use gts_traits::{Source, Station};
use std::alloc::Global;

/// Writes a checkpoint to the file that isn't selected, and selects that.
fn put<P: Station>(
    alloc: Global,
    station: &mut P,
    directory: &Directory,
    journal: &mut Journal,
    need: &Need,
    size: usize,
) -> Result<(), FollowEnd>
    requires sound { IsTrue (is_sound directory.now (need_of need.now)) }
    requires free { unowed (need_of need.now) ≡ need_of need.now }
    requires fits { FitsLimit written directory.now (need_of need.now) }
    requires size { size ≡ length (checkpoint_text (need_of need.now)) }
    requires stands { P.observed → StandsOn (P.calls station.old) journal.old }
    ensures begun { P.observed → OnOk result ((s : State)
        → StandsFor directory.now s (P.calls station.old) journal.old → StandsFor directory.now
        (begun (need_of need.now)) (P.calls station.new) journal.new) }
    ensures gate { OnOk result
        (journal.new.gate + 1 ≡ compacted_bytes written (need_of need.now)) }
    ensures seal { OnOk result
        (journal.new.seal ≡ need_seal directory.now.mark (need_of need.now)) }
    ensures current { OnOk result (journal.new.version ≡ written) }
    ensures ended { OnOk result (journal.new.ended ≡ true) }

    // A crash at any moment leaves the journal as it was, or as it begins with the checkpoint.
    ensures moments { P.observed → MayBegin directory.now (need_of need.now)
        (P.calls station.old) journal.old (P.calls station.new) }
    ensures silent { P.observed → said_by (P.calls station.new) ≡ said_by (P.calls station.old) }
    ensures kind { IfErr result IsPutEnd }
    ensures cause { AsksDiskOf P.Station FollowEnd.DiskFault result station.old station.new }
{
    // A directory is within its bounds.
    directory.bounds_hold();
    let other = journal.file().other();
    let used = BESIDE_CHECKPOINT + Version::written().seal_size() as u64 + size as u64;
    let seal = match write(alloc, station, other, directory.mark(), need) {
        Ok(seal) => seal,
        Err(WriteFault::NoMemory) => return Err(FollowEnd::NoMemory),
        Err(WriteFault::DiskFault) => return Err(FollowEnd::DiskFault),
    };
    match journal.select(station, other, used, seal) {
        Ok(()) => Ok(()),
        Err(_) => Err(FollowEnd::DiskFault),
    }
}

/// Begins a journal with the checkpoint that stands at the front of a feed's records. Answers a core of it, and the place in the
/// feed behind it and its seal.
pub(crate) fn begin<P: Station, S: Source>(
    alloc: Global,
    station: &mut P,
    directory: &Directory,
    core: &Core,
    journal: &mut Journal,
    source: &mut S,
    ahead: &mut Ahead,
) -> Result<(Core, u64), FollowEnd>
    requires { IsOpened P.observed directory.now (P.calls station.old) core.now journal.old }
    ensures begun { P.observed → S.observed → BeginsAny result P.observed directory.now
        (P.calls station.old) core.now journal.old ahead.old (S.left source.old)
        (P.calls station.new) journal.new ahead.new (S.left source.new) }
    ensures opened { IfOk result (λ found.
        IsOpened P.observed directory.now (P.calls station.new) found.0 journal.new) }
    ensures place { IfOk result (λ found. found.1 ≤ 2 ^ 62) }
    ensures kind { IfErr result IsAddEnd }
    ensures silent { P.observed → said_by (P.calls station.new) ≡ said_by (P.calls station.old) }
    ensures cause { AsksBoth P.Station S.Source result station.old station.new
        source.old source.new }
    ensures whole { S.observed → IsWhole ahead.old (S.left source.old)
        → StaysWhole result ahead.new (S.left source.new) }
{
    let _ = core;
    let version = journal.version();
    let limit = directory.limit();
    let before = first_seal(version, &directory.mark());
    let behind = fed_checkpoint(source, ahead, limit, version, &before)?.0;
    let size = behind - version.seal_size();
    let Some(need) = decode(alloc, &ahead.bytes()[..size], directory)? else {
        return Err(FollowEnd::Feed { at: HEADER as u64 });
    };
    put(alloc, station, directory, journal, &need, size)?;
    ahead.pass(behind);
    let core = Core::of_need(alloc, directory, need)?;
    Ok((core, HEADER as u64 + behind as u64))
}
