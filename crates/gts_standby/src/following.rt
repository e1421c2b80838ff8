ghost use Rattle.std.specs.Prelude.{◌≡◌, true, []};
ghost use Rattle.gts_standby.specs.Cited.{AddsAllOf, Answers, HasEndCounts, IsAddEnd, IsNamedEnd, IsOpened, IsWhole, LeavesAlone, LeavesFronts, LeavesUnopened, ReadsAll, TakesCheckpoint, TakesFirst, TakesOther, TakesRecords, comes_to, is_other, said_by, seen};

use crate::FollowEnd;
use crate::adding::add_all;
use crate::ahead::Ahead;
use crate::beginning::begin;
use crate::comparing::{compare, is_other};
use crate::further::is_further;
use crate::header::take_header;
use crate::scanning::is_at_checkpoint;
use crate::standby::Standby;
use gts_directory::Directory;
use gts_record::HEADER;
use gts_recovery::open_core;
use gts_traits::{Source, Station};
use std::alloc::Global;

/// Takes the records of a feed into a journal that begins with its checkpoint.
fn take_checkpoint<P: Station, S: Source>(
    alloc: Global,
    station: &mut P,
    directory: &Directory,
    standby: Standby,
    source: &mut S,
    ahead: &mut Ahead,
) -> FollowEnd
    requires { IsOpened P.observed directory.now (P.calls station.old)
        standby.core standby.journal }
    ensures taken { P.observed → S.observed → TakesCheckpoint result P.observed directory.now
        (P.calls station.old) standby.core standby.journal ahead.old (S.left source.old)
        (P.calls station.new) (S.left source.new) }
    ensures kind { IsAddEnd result }
    ensures silent { P.observed → said_by (P.calls station.new) ≡ said_by (P.calls station.old) }
    ensures counts { HasEndCounts P.Station S.Source result station.old station.new
        source.old source.new }
    ensures whole { S.observed → IsWhole ahead.old (S.left source.old)
        → ReadsAll result (S.left source.new) }
{
    let Standby { core, mut journal } = standby;
    match begin(
        alloc,
        station,
        directory,
        &core,
        &mut journal,
        source,
        ahead,
    ) {
        Ok((core, at)) => {
            let standby = Standby { core, journal };
            add_all(alloc, station, directory, standby, source, ahead, at)
        }
        Err(end) => end,
    }
}

/// Takes the records of a feed into a journal that has none.
fn take_first<P: Station, S: Source>(
    alloc: Global,
    station: &mut P,
    directory: &Directory,
    standby: Standby,
    source: &mut S,
    ahead: &mut Ahead,
) -> FollowEnd
    requires { IsOpened P.observed directory.now (P.calls station.old)
        standby.core standby.journal }
    ensures taken { P.observed → S.observed → TakesFirst result P.observed directory.now
        (P.calls station.old) standby.core standby.journal ahead.old (S.left source.old)
        (P.calls station.new) (S.left source.new) }
    ensures kind { IsAddEnd result }
    ensures silent { P.observed → said_by (P.calls station.new) ≡ said_by (P.calls station.old) }
    ensures counts { HasEndCounts P.Station S.Source result station.old station.new
        source.old source.new }
    ensures whole { S.observed → IsWhole ahead.old (S.left source.old)
        → ReadsAll result (S.left source.new) }
{
    match is_at_checkpoint(source, ahead) {
        Ok(true) => take_checkpoint(alloc, station, directory, standby, source, ahead),
        Ok(false) => {
            let at = HEADER as u64;
            add_all(alloc, station, directory, standby, source, ahead, at)
        }
        Err(end) => end,
    }
}

/// Takes a feed into a journal that has another record 0, where the feed's is a checkpoint that isn't behind what the journal has
/// come to: the journal begins anew with it. Else the feed is answered as it was compared.
fn take_other<P: Station, S: Source>(
    alloc: Global,
    station: &mut P,
    directory: &Directory,
    standby: Standby,
    source: &mut S,
    ahead: &mut Ahead,
    compared: FollowEnd,
) -> FollowEnd
    requires opened { IsOpened P.observed directory.now (P.calls station.old)
        standby.core standby.journal }
    requires other { is_other compared ≡ true }
    ensures taken { P.observed → S.observed → TakesOther compared result P.observed directory.now
        (P.calls station.old) standby.core standby.journal ahead.old (S.left source.old)
        (P.calls station.new) (S.left source.new) }
    ensures silent { P.observed → said_by (P.calls station.new) ≡ said_by (P.calls station.old) }
    ensures counts { HasEndCounts P.Station S.Source result station.old station.new
        source.old source.new }
    ensures whole { S.observed → IsWhole ahead.old (S.left source.old)
        → ReadsAll result (S.left source.new) }
    ensures named { IsNamedEnd result }
{
    match is_further(alloc, directory, &standby.core, source, ahead) {
        Ok(true) => take_checkpoint(alloc, station, directory, standby, source, ahead),
        Ok(false) => compared,
        Err(end) => end,
    }
}

/// Takes the records of a feed into a journal at its end.
fn take_records<P: Station, S: Source>(
    alloc: Global,
    station: &mut P,
    directory: &Directory,
    standby: Standby,
    source: &mut S,
    ahead: &mut Ahead,
) -> FollowEnd
    requires { IsOpened P.observed directory.now (P.calls station.old)
        standby.core standby.journal }
    ensures taken { P.observed → S.observed → TakesRecords result P.observed directory.now
        (P.calls station.old) standby.core standby.journal ahead.old (S.left source.old)
        (P.calls station.new) (S.left source.new) }
    ensures silent { P.observed → said_by (P.calls station.new) ≡ said_by (P.calls station.old) }
    ensures counts { HasEndCounts P.Station S.Source result station.old station.new
        source.old source.new }
    ensures whole { S.observed → IsWhole ahead.old (S.left source.old)
        → ReadsAll result (S.left source.new) }
    ensures named { IsNamedEnd result }
{
    // A limit is low enough for the places of gates.
    directory.bounds_hold();
    let end = standby.journal.used() - 1;
    if end <= HEADER as u64 {
        return take_first(alloc, station, directory, standby, source, ahead);
    }
    match compare(alloc, station, directory, end, source, ahead) {
        Ok(at) => add_all(alloc, station, directory, standby, source, ahead, at),
        Err(end) => {
            if !is_other(end) {
                return end;
            }
            take_other(alloc, station, directory, standby, source, ahead, end)
        }
    }
}

/// Takes a feed into the journal, on a station that is lent.
fn take_feed<P: Station, S: Source>(
    alloc: Global,
    station: &mut P,
    directory: &Directory,
    source: &mut S,
) -> FollowEnd
    ensures answer { P.observed → S.observed → Answers result
        (comes_to directory.now (seen (P.calls station.old)) (S.left source.old)) }
    ensures added { P.observed → S.observed → AddsAllOf result directory.now (P.calls station.old)
        (P.calls station.new) (S.left source.old) }
    ensures moments { P.observed → S.observed → LeavesFronts directory.now (P.calls station.old)
        (P.calls station.new) (S.left source.old) }
    ensures done { S.observed → result ≡ FollowEnd.Done → S.left source.new ≡ [] }
    ensures refused { P.observed → S.observed → LeavesAlone result (P.calls station.old)
        (P.calls station.new) (source.new ≡ source.old) }
    ensures unopened { P.observed → LeavesUnopened directory.now (P.calls station.old)
        (P.calls station.new) (source.new ≡ source.old) }
    ensures silent { P.observed → said_by (P.calls station.new) ≡ said_by (P.calls station.old) }
    ensures counts { HasEndCounts P.Station S.Source result station.old station.new
        source.old source.new }
    ensures named { IsNamedEnd result }
{
    let (core, journal) = match open_core(alloc, station, directory) {
        Ok(opened) => opened,
        Err(fault) => return FollowEnd::from(fault),
    };
    let mut ahead = Ahead::new(alloc);
    match take_header(source, &mut ahead, directory.mark()) {
        Ok(()) => {
            let standby = Standby { core, journal };
            take_records(alloc, station, directory, standby, source, &mut ahead)
        }
        Err(end) => end,
    }
}

/// Takes a feed, which is read to its end, into the journal, which is opened first. The records that the journal has are compared
/// with those of the feed by their seals, in order; what it doesn't have is checked by the rules of the journal, in the state so
/// far, and appended. A checkpoint can only be the first record: of a journal that has none, or of one that begins anew, where its
/// own record 0 is another one and the checkpoint isn't behind what it has come to. The feed may end anywhere: what isn't a whole
/// record with its seal there is dropped.
pub fn follow<P: Station, S: Source>(
    alloc: Global,
    station: P,
    directory: &Directory,
    source: &mut S,
) -> (P, FollowEnd)
    // What is answered is what the feed comes to beside the journal, or the fault to which its files open.
    ensures answer { P.observed → S.observed → Answers result.1
        (comes_to directory.now (seen (P.calls station)) (S.left source.old)) }

    // At each end of the feed the journal has all that the feed adds, and a loss of power leaves all of it. It is the journal from
    // before with that behind it, each seal chained over the one before: nothing else is done to it.
    ensures added { P.observed → S.observed → AddsAllOf result.1 directory.now (P.calls station)
        (P.calls result.0) (S.left source.old) }

    // A crash at any moment since the sync of the opening leaves the journal from before with a first part of that behind it, each
    // seal chained over the one before.
    ensures moments { P.observed → S.observed → LeavesFronts directory.now (P.calls station)
        (P.calls result.0) (S.left source.old) }

    // The feed was read to its end.
    ensures done { S.observed → result.1 ≡ FollowEnd.Done → S.left source.new ≡ [] }

    // A refusal of the journal writes nothing, and nothing of the feed is read then.
    ensures refused { P.observed → S.observed → LeavesAlone result.1 (P.calls station)
        (P.calls result.0) (source.new ≡ source.old) }

    // Nor is anything written or read where the files don't open, whatever is answered.
    ensures unopened { P.observed → LeavesUnopened directory.now (P.calls station)
        (P.calls result.0) (source.new ≡ source.old) }
    ensures silent { P.observed → said_by (P.calls result.0) ≡ said_by (P.calls station) }

    // A device's fault is answered only where that device failed, and at an end of the feed none did.
    ensures counts { HasEndCounts P.Station S.Source result.1 station result.0
        source.old source.new }

    // A fault of the disk, and want of memory, have names of their own.
    ensures named { IsNamedEnd result.1 }
{
    let mut station = station;
    let end = take_feed(alloc, &mut station, directory, source);
    (station, end)
}
