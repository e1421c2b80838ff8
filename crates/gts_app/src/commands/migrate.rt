ghost use Rattle.std.specs.Prelude.{◌≡◌};
ghost use Rattle.gts_app.specs.Migrate as migrating;
ghost use Rattle.gts_app.specs.Cited.{Migrates, NoneFailed};

use crate::directory::{directory_of, old_directory_of};
use crate::opening::refusal;
use crate::{Ended, Status, World};
use gts_directory::Change;
use gts_migrate::{MigrateFault, Waiting, migrate as take_over};
use gts_traits::{Source, Station};
use std::alloc::Global;

/// The status of a journal that was to be taken over.
fn status_of(migrated: Result<(), MigrateFault>) -> Status
    ensures { result ≡ migrating.status_migrated migrated }
{
    match migrated {
        Ok(()) => Status::Done,
        Err(MigrateFault::Open(fault)) => refusal(fault),
        Err(MigrateFault::Waits { circuit, count }) => Status::Closed {
            row: circuit,
            count,
        },
        Err(MigrateFault::Full { used, need, limit }) => Status::Full { used, need, limit },
        Err(MigrateFault::DiskFault) => Status::DiskFault,
        Err(MigrateFault::SayFault) => Status::OutputFault,
        Err(MigrateFault::NoMemory) => Status::NoMemory,
    }
}

/// Reads the directory, and then the old one, from which it has to take over, and takes the journal of that one over. What waits
/// on circuits that are closed in the new directory is refused, and nothing is said; or it is dropped, and its receipts are said.
/// Where the directory is at fault, the old one isn't read.
#[tactic(auto, using(crate::proofs::SoundLemmas::unread, crate::proofs::SoundLemmas::old_unread))]
pub fn migrate<S: Source, P: Station>(
    alloc: Global,
    mut world: World<S, S, P>,
    waiting: Waiting,
) -> Ended<S, P>
    ensures migrates { Migrates waiting S.Source P.Station result.status world result.world }
    ensures sound { result.status ≡ Status.Done
        → NoneFailed S.Source P.Station world result.world }
{
    let new = match directory_of(alloc, &mut world.directory) {
        Ok(directory) => directory,
        Err(status) => return Ended { status, world },
    };
    let old = match old_directory_of(alloc, &mut world.capture) {
        Ok(directory) => directory,
        Err(status) => return Ended { status, world },
    };
    match new.takes_over(&old) {
        Ok(()) => {
            let (station, migrated) = take_over(alloc, world.station, &old, new, waiting);
            let status = status_of(migrated);
            let world = World { station, ..world };
            Ended { status, world }
        }
        Err(Change { part, row }) => {
            let status = Status::Changed { part, row };
            Ended { status, world }
        }
    }
}
