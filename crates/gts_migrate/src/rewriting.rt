ghost use Rattle.std.specs.Prelude.{◌≡◌, ◌^◌, ◌-◌, [], min, length, IfErr, IsOk, OnOk, IsErrOf};
ghost use Rattle.gts_migrate.specs.Cited.{CanMigrate, CountsFaults, CountsSays, Directory as DirectoryOf, FitsFor, IsMigrated, IsSayFaultOf, IsWriteFaultOf, SaysAll, SaysFor, StandsOn, State, StaysWith, checkpoint_text, need_of, on, said_by};

use crate::MigrateFault;
use crate::preparing::Prepared;
use gts_checkpoint::write;
use gts_directory::Directory;
use gts_engine::compacted_size;
use gts_journal::Journal;
use gts_traits::{Channel, Station};
use std::alloc::Global;

/// Says receipts on the channel of receipts, in one call, where there are any.
fn say_receipts<P: Station>(station: &mut P, receipts: &[u8]) -> Result<(), MigrateFault>
    ensures told { P.observed
        → SaysAll receipts.now result (P.calls station.old) (P.calls station.new) }
    ensures none { receipts.now ≡ [] → (station.new ≡ station.old) × IsOk result }
    ensures kind { IfErr result (λ fault. fault ≡ MigrateFault.SayFault) }
    ensures say { CountsSays result (P.say_faults station.old) (P.say_faults station.new) }
    ensures disk { P.disk_faults station.new ≡ P.disk_faults station.old }
{
    if receipts.is_empty() {
        return Ok(());
    }
    match station.say(Channel::OPERATOR, receipts) {
        Ok(()) => Ok(()),
        Err(_) => Err(MigrateFault::SayFault),
    }
}

/// Writes the checkpoint of the need under the new directory to the file that isn't selected, says the receipts, and selects that
/// file.
pub(crate) fn rewrite<P: Station>(
    alloc: Global,
    station: &mut P,
    journal: Journal,
    new: &Directory,
    prepared: &Prepared,
) -> Result<(), MigrateFault>
    requires fits { FitsFor new.now (need_of prepared.now.need) }
    requires size { prepared.now.size
        ≡ min (length (checkpoint_text (need_of prepared.now.need))) (2 ^ 64 - 1) }
    requires stands { P.observed → StandsOn (P.calls station.old) journal }
    ensures moments { P.observed → StaysWith (on 0 prepared.now.receipts.items) new.now
        (need_of prepared.now.need) journal (P.calls station.old) (P.calls station.new) }
    ensures written { P.observed → OnOk result ((old : DirectoryOf) (s : State)
        → CanMigrate old new.now s (need_of prepared.now.need) (P.calls station.old) journal
        → IsMigrated old new.now s (P.calls station.old) (P.calls station.new)) }
    ensures said { P.observed → SaysFor result (on 0 prepared.now.receipts.items)
        (P.calls station.old) (P.calls station.new) }
    ensures unsaid { prepared.now.receipts.items ≡ [] → IsSayFaultOf result → ⊥ }
    ensures kind { IfErr result IsWriteFaultOf }
    ensures no_memory { IsErrOf result MigrateFault.NoMemory → station.new ≡ station.old }
    ensures counts { CountsFaults P.Station result station.old station.new }
{
    // A directory is within its bounds.
    new.bounds_hold();
    let mut journal = journal;
    let other = journal.file().other();
    let used = compacted_size(prepared.size);
    let seal = write(alloc, station, other, new.mark(), &prepared.need)?;
    say_receipts(station, prepared.receipts.as_slice())?;
    journal.select(station, other, used, seal)?;
    Ok(())
}
