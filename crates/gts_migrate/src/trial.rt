//! What a takeover would come to, tried without writing.

ghost use Rattle.std.specs.Prelude.{◌≡◌, ◌≢◌, ◌∷◌, IfOk, IfErr, OnOk};
ghost use Rattle.gts_migrate.specs.Cited.{AsksDiskOf, Did, HasFewDue, Holds, IsAnswer, IsTried, OnlySyncs, OpensTo, State, Syncs, TakesOver, need as need_at, opens_any, refusal, seen};

use crate::preparing::prepare;
use crate::{MigrateFault, Waiting};
use gts_core::Core;
use gts_directory::Directory;
use gts_event::Need;
use gts_recovery::{OpenFault, open_core_any};
use gts_traits::{NoMemory, Station};
use std::alloc::Global;

/// What is needed of a journal under its own directory, and why it would not be taken over under another one. `None`: it would be.
#[derive(Drop)]
pub struct Trial {
    /// All that later answers depend on.
    pub need: Need,
    /// `Waits` or `Full`, as `migrate` would answer it.
    pub refusal: Option<MigrateFault>,
}

/// Why what a core holds would not be taken over.
fn refusal_of(
    alloc: Global,
    core: &Core,
    old: &Directory,
    new: &Directory,
) -> Result<Option<MigrateFault>, NoMemory>
    requires takes { TakesOver new.now old.now }
    requires due { HasFewDue old.now core.now }
    ensures { IfOk result (λ found. (s : State) → Holds old.now core.now s
        → found ≡ refusal new.now old.now (need_at old.now s)) }
{
    match prepare(alloc, core, old, new, Waiting::Refused).err() {
        Some(MigrateFault::NoMemory) => Err(NoMemory),
        refused => Ok(refused),
    }
}

/// Opens a journal, of either version, under its own directory, and tries what `migrate` would come to under one that takes over from
/// it. The files are synced, and nothing is written or said.
pub fn try_over<P: Station>(
    alloc: Global,
    station: &mut P,
    old: &Directory,
    new: &Directory,
) -> Result<Trial, OpenFault>
    requires { TakesOver new.now old.now }

    // It is what `migrate` would come to, over the state to which the files open where the station is observed.
    ensures tried { IfOk result (IsTried old.now new.now
        (OpensTo P.observed old.now (seen (P.calls station.old)))) }
    ensures synced { P.observed → OnOk result (P.calls station.new
        ≡ Did Syncs ∷ P.calls station.old) }

    // A fault of the files is answered exactly where they open to it.
    ensures fault { P.observed → IfErr result (λ e. IsAnswer e
        (opens_any old.now (seen (P.calls station.old)))) }
    ensures never_older { P.observed → IfErr result (λ e. e ≢ OpenFault.OldVersion) }
    ensures told { P.observed → OnlySyncs (P.calls station.old) (P.calls station.new) }
    ensures cause { AsksDiskOf P.Station OpenFault.DiskFault result station.old station.new }
{
    // A limit leaves few draws due.
    old.bounds_hold();
    let (core, journal) = open_core_any(alloc, station, old)?;
    // What is let go of here is one step of the proof each, in place of one for each part at each way out.
    drop(journal);
    let Ok(refusal) = refusal_of(alloc, &core, old, new) else {
        drop(core);
        return Err(OpenFault::NoMemory);
    };
    let need = core.need(alloc);
    drop(core);
    let need = need?;
    Ok(Trial { need, refusal })
}
