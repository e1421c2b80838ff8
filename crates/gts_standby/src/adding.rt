//! The records of a feed that a journal doesn't have are added to it.
ghost use Rattle.std.specs.Prelude.{◌≡◌, ◌≤◌, ◌^◌};
ghost use Rattle.gts_standby.specs.Cited.{AddsAll, HasEndCounts, IsAddEnd, IsOpened, IsWhole, ReadsAll, said_by};

use crate::FollowEnd;
use crate::ahead::Ahead;
use crate::gathering::Gathering;
use crate::standby::Standby;
use gts_directory::Directory;
use gts_traits::{NoMemory, Source, Station};
use std::alloc::Global;

/// Adds the records of a feed from a place on, each behind those before it. They are gathered, and brought into the journal
/// together.
pub(crate) fn add_all<P: Station, S: Source>(
    alloc: Global,
    station: &mut P,
    directory: &Directory,
    standby: Standby,
    source: &mut S,
    ahead: &mut Ahead,
    at: u64,
) -> FollowEnd
    requires opened { IsOpened P.observed directory.now (P.calls station.old)
        standby.core standby.journal }
    requires place { at ≤ 2 ^ 62 }
    ensures added { P.observed → S.observed → AddsAll result P.observed directory.now at
        (P.calls station.old) standby.core standby.journal ahead.old (S.left source.old)
        (P.calls station.new) (S.left source.new) }
    ensures kind { IsAddEnd result }
    ensures silent { P.observed → said_by (P.calls station.new) ≡ said_by (P.calls station.old) }
    ensures counts { HasEndCounts P.Station S.Source result station.old station.new
        source.old source.new }
    ensures whole { S.observed → IsWhole ahead.old (S.left source.old)
        → ReadsAll result (S.left source.new) }
{
    // A limit is low enough for the places of gates.
    directory.bounds_hold();
    let Standby { mut core, journal } = standby;
    let mut gathering = match Gathering::begin(alloc, journal) {
        Ok(gathering) => gathering,
        Err(NoMemory) => return FollowEnd::NoMemory,
    };
    let mut at = at;
    loop {
        if let Err(end) = gathering.make_ready(station, directory, source, ahead) {
            return end;
        }
        match gathering.gather(alloc, directory, &mut core, ahead, at) {
            Ok(size) => at += size as u64,
            Err(end) => return gathering.finish(station, directory, end),
        }
    }
}
