ghost use Rattle.std.specs.Prelude.{◌≡◌, ◌⊎◌, ℕ, Ok, OnOk};
ghost use Rattle.gts_migrate.specs.Cited.{AnswersOpening, AnswersWaiting, CountsFaults, GivesRoomFor, IsMigrated, IsSayFaultOf, LeavesFiles, Need as NeedOf, OnlySyncs, SaysDropped, State, StaysEither, TakesOver, WasOpened, files_open_any, goes_on, need as need_at, opens_any, said_by, seen, waits_on_closed};

use crate::preparing::prepare;
use crate::rewriting::rewrite;
use crate::{MigrateFault, Waiting};
use gts_directory::Directory;
use gts_recovery::open_core_any;
use gts_traits::Station;
use std::alloc::Global;

/// Takes the journal over, on a station that is lent.
fn take_over<P: Station>(
    alloc: Global,
    station: &mut P,
    old: &Directory,
    new: &Directory,
    waiting: Waiting,
) -> Result<(), MigrateFault>
    requires { TakesOver new.now old.now }
    ensures moments { P.observed → (n : NeedOf) → WasOpened result
        → StaysEither waiting old.now new.now n (P.calls station.old) (P.calls station.new) }
    ensures migrated { P.observed → (s : State) (used : ℕ)
        → files_open_any old.now (seen (P.calls station.old)) ≡ Ok (s, used)
        → OnOk result (IsMigrated old.now new.now s (P.calls station.old) (P.calls station.new)) }
    ensures full { P.observed → (s : State) (used : ℕ)
        → files_open_any old.now (seen (P.calls station.old)) ≡ Ok (s, used)
        → GivesRoomFor result new.now (goes_on new.now old.now (need_at old.now s)) }
    ensures waiting { P.observed → (s : State) (used : ℕ)
        → files_open_any old.now (seen (P.calls station.old)) ≡ Ok (s, used)
        → AnswersWaiting waiting result (waits_on_closed new.now (need_at old.now s)) }
    ensures opening { P.observed
        → AnswersOpening result (opens_any old.now (seen (P.calls station.old))) }
    ensures said { P.observed → (s : State) (used : ℕ)
        → files_open_any old.now (seen (P.calls station.old)) ≡ Ok (s, used)
        → SaysDropped waiting old.now new.now s result (P.calls station.old) (P.calls station.new) }
    ensures silent { P.observed → (waiting ≡ Waiting.Refused) ⊎ LeavesFiles result
        → said_by (P.calls station.new) ≡ said_by (P.calls station.old) }
    ensures told { P.observed → LeavesFiles result
        → OnlySyncs (P.calls station.old) (P.calls station.new) }
    ensures counts { CountsFaults P.Station result station.old station.new }
    ensures unsaid { waiting ≡ Waiting.Refused → IsSayFaultOf result → ⊥ }
{
    // A limit leaves few draws due.
    old.bounds_hold();
    let (core, journal) = open_core_any(alloc, station, old)?;
    let prepared = prepare(alloc, &core, old, new, waiting);
    // One step of the proof, in place of one for each part at each way out.
    drop(core);
    let prepared = prepared?;
    rewrite(alloc, station, journal, new, &prepared)
}

/// Takes a journal over under a directory that takes over from its own. The journal, of either version, is opened under the old
/// directory; its other file gets a checkpoint of all that later answers depend on under the new directory, and is selected.
/// Where something waits on a circuit that is closed in the new directory, it is refused (`Waits`), and nothing is said; or it is
/// dropped, and a receipt for each is said before the other file is selected. So a try that fails, or a crash, may leave receipts
/// of a journal that wasn't taken over, which the next try says once more; and a journal that was taken over has said all.
/// `Full` where the checkpoint and all draws that are due would pass the new limit; nothing is written or said then.
pub fn migrate<P: Station>(
    alloc: Global,
    station: P,
    old: &Directory,
    new: Directory,
    waiting: Waiting,
) -> (P, Result<(), MigrateFault>)
    requires { TakesOver new old.now }

    // A crash at any moment since the sync of the opening leaves files that open under the old directory to what they opened to,
    // with a front of the receipts said, or under the new one to what that takes over of it, with all said.
    ensures moments { P.observed → (n : NeedOf) → WasOpened result.1
        → StaysEither waiting old.now new n (P.calls station) (P.calls result.0) }
    ensures migrated { P.observed → (s : State) (used : ℕ)
        → files_open_any old.now (seen (P.calls station)) ≡ Ok (s, used)
        → OnOk result.1 (IsMigrated old.now new s (P.calls station) (P.calls result.0)) }
    ensures full { P.observed → (s : State) (used : ℕ)
        → files_open_any old.now (seen (P.calls station)) ≡ Ok (s, used)
        → GivesRoomFor result.1 new (goes_on new old.now (need_at old.now s)) }

    // What waits on a circuit that is closed in the new directory is told and refused, unless it is to be dropped.
    ensures waiting { P.observed → (s : State) (used : ℕ)
        → files_open_any old.now (seen (P.calls station)) ≡ Ok (s, used)
        → AnswersWaiting waiting result.1 (waits_on_closed new (need_at old.now s)) }

    // A fault of the files is answered exactly where they open to it, in the version that they have.
    ensures opening { P.observed
        → AnswersOpening result.1 (opens_any old.now (seen (P.calls station))) }

    // Once the journal was taken over, exactly the receipts of all that was dropped were said, in their order.
    ensures said { P.observed → (s : State) (used : ℕ)
        → files_open_any old.now (seen (P.calls station)) ≡ Ok (s, used)
        → SaysDropped waiting old.now new s result.1 (P.calls station) (P.calls result.0) }
    ensures silent { P.observed → (waiting ≡ Waiting.Refused) ⊎ LeavesFiles result.1
        → said_by (P.calls result.0) ≡ said_by (P.calls station) }
    ensures told { P.observed → LeavesFiles result.1 → OnlySyncs (P.calls station)
        (P.calls result.0) }
    ensures counts { CountsFaults P.Station result.1 station result.0 }
    ensures unsaid { waiting ≡ Waiting.Refused → IsSayFaultOf result.1 → ⊥ }
{
    let mut station = station;
    let result = take_over(alloc, &mut station, old, &new, waiting);
    (station, result)
}
