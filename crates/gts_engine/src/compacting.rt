ghost use Rattle.std.specs.Prelude.{◌≡◌, ◌≢◌, ◌-◌, ◌^◌, ◌<◌, ◌≤◌, ℕ, min, length, None, false, IfOk, IfErr, OnOk, MatchResult, IsErrOf};
ghost use Rattle.gts_engine.specs.Cited.{EachSince, FitBytes, GivesRoom, HasStationCause, HasWritten, Holds, IsBehind, IsClosedAt, IsSizeAt, IsSound, IsWriteFault, LeavesBoth, Needs, Rewrites, StandsOn, State, WorksBeside, checkpoint_text, compacted_bytes, engine_of, full_compacted, held, need_of, need_seal, no_records, said_by, seen, selecting, stopped_after, written};
ghost use Rattle.gts_engine.specs.Compacting.{IsRoomFault};

use crate::parts::EngineParts;
use crate::room::{check_checkpoint, compacted_size};
use gts_checkpoint::{WriteFault, write};
use gts_core::a_core_has_the_waiting_draws_of_its_state;
use gts_event::{Device, Need, SwitchFault};
use gts_traits::{JournalFile, Station};
use std::alloc::Global;

/// Whether a checkpoint of this size leaves room for all draws that are due.
pub fn check_room<P: Station>(parts: &EngineParts<P>, size: u64) -> Result<(), SwitchFault>
    requires going { parts.now.stopped ≡ None }
    requires sound { IsSound P.Station parts.now }
    requires rests { (engine_of parts.now).gathered ≡ false }
    ensures room { (s : State) → Holds parts.now.directory parts.now.core s
        → IsSizeAt parts.now.directory s size → GivesRoom result parts.now.directory s }
    ensures kind { IfErr result IsRoomFault }
{
    a_core_has_the_waiting_draws_of_its_state();
    match check_checkpoint(&parts.directory, size, parts.core.waiting()) {
        Ok(()) => Ok(()),
        Err(full) => Err(SwitchFault::Full {
            used: full.used,
            need: full.need,
            limit: full.limit,
        }),
    }
}

/// Writes the checkpoint of a need to a file that isn't selected, and answers its seal. A failure of the disk stops the engine.
fn put<P: Station>(
    parts: &mut EngineParts<P>,
    alloc: Global,
    file: JournalFile,
    mark: [u8; 32],
    need: &Need,
) -> Result<[u8; 32], SwitchFault>
    requires fits { FitBytes (need_of need.now) }
    requires room { compacted_bytes written (need_of need.now) ≤ 2 ^ 30 }
    ensures written { P.observed → OnOk result (HasWritten mark (need_of need.now)
        file (P.calls parts.new.station)) }
    ensures seal { IfOk result (λ last. held written last ≡ need_seal mark (need_of need.now)) }
    ensures beside { P.observed
        → WorksBeside file (P.calls parts.old.station) (P.calls parts.new.station) }
    ensures rest { parts.new
        ≡ record parts.old { station = parts.new.station; stopped = parts.new.stopped } }
    ensures stops { parts.new.stopped ≡ stopped_after parts.old.stopped result }
    ensures no_memory { IsErrOf result SwitchFault.NoMemory → parts.new ≡ parts.old }
    ensures fault { IfErr result IsWriteFault }
    ensures cause { HasStationCause P.Station result parts.old.station parts.new.station }
{
    match write(alloc, &mut parts.station, file, mark, need) {
        Ok(seal) => Ok(seal),
        Err(WriteFault::NoMemory) => Err(SwitchFault::NoMemory),
        Err(WriteFault::DiskFault) => {
            parts.stopped = Some(Device::Disk);
            Err(SwitchFault::DiskFault)
        }
    }
}

/// Selects the other file. A failure stops the engine.
fn choose<P: Station>(
    parts: &mut EngineParts<P>,
    file: JournalFile,
    used: u64,
    seal: [u8; 32],
) -> Result<(), SwitchFault>
    requires file { file < 2 }
    requires other { file ≢ parts.old.journal.file }
    requires used { used ≤ 2 ^ 40 }
    requires stands { P.observed → StandsOn (P.calls parts.old.station) parts.old.journal }
    requires whole { P.observed
        → IsClosedAt (P.calls parts.old.station) parts.old.journal file used }
    ensures place { OnOk result (parts.new.journal
        ≡ selecting written file used (held written seal) parts.old.journal) }
    ensures batch { MatchResult result (λ done. parts.new.batch ≡ no_records parts.new.journal)
        (λ fault. parts.new.batch ≡ parts.old.batch) }
    ensures stands { P.observed
        → OnOk result (StandsOn (P.calls parts.new.station) parts.new.journal) }
    ensures files { P.observed → (k : ℕ) → k ≢ 2 → OnOk result
        (seen (P.calls parts.new.station) k ≡ seen (P.calls parts.old.station) k) }
    ensures moments { P.observed → EachSince (P.calls parts.old.station) (P.calls parts.new.station)
        (LeavesBoth (P.calls parts.old.station)) }
    ensures silent { P.observed
        → said_by (P.calls parts.new.station) ≡ said_by (P.calls parts.old.station) }
    ensures rest { IsBehind parts.old parts.new }
    ensures stops { parts.new.stopped ≡ stopped_after parts.old.stopped result }
    ensures fault { IfErr result (λ e. e ≡ SwitchFault.DiskFault) }
    ensures cause { HasStationCause P.Station result parts.old.station parts.new.station }
{
    match parts.journal.select(&mut parts.station, file, used, seal) {
        Ok(()) => {
            parts.batch.begin(&parts.journal);
            Ok(())
        }
        Err(_) => {
            parts.stopped = Some(Device::Disk);
            Err(SwitchFault::DiskFault)
        }
    }
}

/// Writes the checkpoint of a need, for which there is room, to the file that isn't selected, and selects that.
pub fn rewrite<P: Station>(
    parts: &mut EngineParts<P>,
    alloc: Global,
    need: &Need,
    size: u64,
) -> Result<(), SwitchFault>
    requires going { parts.old.stopped ≡ None }
    requires sound { IsSound P.Station parts.old }
    requires rests { (engine_of parts.old).gathered ≡ false }
    requires need { Needs parts.old.core (need_of need.now) }
    requires size { size ≡ min (length (checkpoint_text (need_of need.now))) (2 ^ 64 - 1) }
    requires free { (s : State) → Holds parts.old.directory parts.old.core s
        → full_compacted parts.old.directory s ≡ None }
    ensures { Rewrites P.Station result parts.old parts.new }
{
    // A directory is within its bounds.
    parts.directory.bounds_hold();
    let mark = parts.directory.mark();
    let other = parts.journal.file().other();
    let used = compacted_size(size);
    let seal = put(parts, alloc, other, mark, need)?;
    choose(parts, other, used, seal)
}
