ghost use Rattle.std.specs.Prelude.{◌≡◌};
ghost use Rattle.gts_app.specs.Cited.{Compacts, NoneFailed, status_compacted};

use crate::opening::open_engine;
use crate::world::Handed;
use crate::{Ended, Status, World};
use gts_event::{SwitchFault, a_start_is_its_own_need};
use gts_traits::{Source, Station};
use std::alloc::Global;

/// The status of a journal that was to be compacted. An engine that was just opened goes on, and says nothing here.
fn status_of(compacted: Result<(), SwitchFault>) -> Status
    ensures { result ≡ status_compacted compacted }
{
    match compacted {
        Ok(()) => Status::Done,
        Err(SwitchFault::DiskFault) => Status::DiskFault,
        Err(SwitchFault::Full { used, need, limit }) => Status::Full { used, need, limit },
        Err(_) => Status::NoMemory,
    }
}

/// Reads the directory, opens the journal, and compacts it: the other file gets a checkpoint of all that is still needed, and is
/// selected. Nothing is said.
pub fn compact<S: Source, P: Station>(alloc: Global, mut world: World<S, S, P>) -> Ended<S, P>
    ensures capture { result.world.capture ≡ world.capture }
    ensures compacts { Compacts S.Source P.Station result.status
        world.directory world.station result.world.directory result.world.station }
    ensures sound { result.status ≡ Status.Done
        → NoneFailed S.Source P.Station world result.world }
{
    // What the engine's core holds is what the files open to.
    a_start_is_its_own_need();
    let station = world.station;
    let mut engine = match open_engine(alloc, &mut world.directory, station) {
        Ok(engine) => engine,
        Err(Handed { status, station }) => {
            let world = World { station, ..world };
            return Ended { status, world };
        }
    };
    let compacted = engine.compact(alloc);
    // The files open with as many bytes in use as the engine counts.
    let _used = engine.used();
    let (station, _directory) = engine.into_parts();
    let status = status_of(compacted);
    let world = World { station, ..world };
    Ended { status, world }
}
