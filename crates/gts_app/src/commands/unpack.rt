ghost use Rattle.std.specs.Prelude.{◌≡◌};
ghost use Rattle.gts_app.specs.Cited.{NoneFailed, Unpacks, status_unpacked};

use crate::commands::replay;
use crate::directory::directory_of;
use crate::laws::a_history_keeps_its_laws;
use crate::opening::open_journal;
use crate::world::Handed;
use crate::{Ended, Status, World};
use gts_accum::UnpackEnd;
use gts_calls::Switch;
use gts_traits::{Source, Station};
use std::alloc::Global;

/// The status of how the run of a file ended.
fn status_of(end: UnpackEnd) -> Status
    ensures { result ≡ status_unpacked end }
{
    match end {
        UnpackEnd::Bad { at } => Status::File { at },
        UnpackEnd::Ended(end) => replay::status_of(end),
    }
}

/// Reads the directory, which must have circuit `c`, opens the journal, and then reads a file of accumulated bulletins, and does
/// what `replay` does with the capture that it stands for: each message comes on that circuit over a connection of its own.
#[tactic(auto, using(crate::proofs::SoundLemmas::unread))]
pub fn unpack<S: Source, P: Station>(
    alloc: Global,
    mut world: World<S, S, P>,
    c: u32,
) -> Ended<S, P>
    ensures unpacks { Unpacks S.Source P.Station c result.status world result.world }
    ensures sound { result.status ≡ Status.Done
        → NoneFailed S.Source P.Station world result.world }
{
    // The laws that hold of all that a history comes to.
    a_history_keeps_its_laws();
    let directory = match directory_of(alloc, &mut world.directory) {
        Ok(directory) => directory,
        Err(status) => return Ended { status, world },
    };
    if directory.circuits() <= c {
        let status = Status::Usage;
        return Ended { status, world };
    }
    let mut engine = match open_journal::<S, P>(alloc, directory, world.station) {
        Ok(engine) => engine,
        Err(Handed { status, station }) => {
            let world = World { station, ..world };
            return Ended { status, world };
        }
    };
    let (end, capture) = gts_accum::unpack(alloc, &mut engine, world.capture, c);
    // The files open with as many bytes in use as the engine counts.
    let _used = engine.used();
    let (station, _directory) = engine.into_parts();
    let status = status_of(end);
    let directory = world.directory;
    let world = World {
        directory,
        capture,
        station,
    };
    Ended { status, world }
}
