//! A standby station has a first part of a journal: what of the feed is behind it.
ghost use Rattle.std.specs.Prelude.{◌≡◌, ◌≤◌, ◌<◌, ◌-◌, ◌^◌, ℕ, false, List, IfErr, OnOk, IsErrOf};
ghost use Rattle.gts_standby.specs.Cited.{IsAtFirst, IsNamed, IsWithin, LooksAtOf, LooksFor, Passes, PassesUnder, StandsOn, behind_here, held};

use crate::ShipFault;
use crate::comparing::is_same;
use crate::passing::pass_next;
use gts_checkpoint::read;
use gts_directory::Directory;
use gts_journal::Journal;
use gts_traits::Station;
use std::alloc::Global;

/// What a standby station has of a journal.
#[derive(Clone, Copy, Debug, PartialEq, Eq)]
pub struct Since {
    /// The bytes of its own journal, up to the closed gate and with it.
    pub used: u64,
    /// The seal of its last record.
    pub seal: [u8; 32],
}

/// Goes on behind the checkpoint, if the journal begins with one.
fn pass_checkpoint<P: Station>(
    alloc: Global,
    station: &mut P,
    directory: &Directory,
    journal: &mut Journal,
) -> Result<(), ShipFault>
    requires going { journal.old.ended ≡ false }
    requires stands { P.observed → StandsOn (P.calls station.old) journal.old }
    ensures passed { P.observed → (end place : ℕ) (last : List ℕ) → IsAtFirst directory.now (P.calls
        station.old) journal.old end → Passes result directory.now (P.calls station.new) journal.new
        end place last (behind_here directory.now (P.calls station.old) journal.old place last) }
    ensures going { OnOk result (journal.new.ended ≡ false) }
    ensures stands { P.observed → OnOk result (StandsOn (P.calls station.new) journal.new) }
    ensures version { OnOk result (journal.new.version ≡ journal.old.version) }
    ensures looks { LooksAtOf P.Station ShipFault.DiskFault result station.old station.new }
    ensures named { IfErr result IsNamed }
    ensures say_fault { IsErrOf result ShipFault.SayFault → ⊥ }
{
    if !journal.at_checkpoint() {
        return Ok(());
    }
    // A limit is low enough for the place of the gate.
    directory.bounds_hold();
    let file = journal.file();
    let found = read(alloc, station, journal.version(), file, directory)?;
    journal.pass(found.1, found.2);
    Ok(())
}

/// Goes on to the first gate that isn't in front of a place.
fn pass_records<P: Station>(
    station: &mut P,
    journal: &mut Journal,
    stop: u64,
) -> Result<(), ShipFault>
    requires going { journal.old.ended ≡ false }
    requires room { stop < 2 ^ 40 }
    requires stands { P.observed → StandsOn (P.calls station.old) journal.old }
    ensures passed { PassesUnder result P.observed (IsWithin stop) (P.calls station.old) journal.old
        (P.calls station.new) journal.new }
    ensures reached { OnOk result (stop ≤ journal.new.gate) }
    ensures going { OnOk result (journal.new.ended ≡ false) }
    ensures stands { P.observed → OnOk result (StandsOn (P.calls station.new) journal.new) }
    ensures version { OnOk result (journal.new.version ≡ journal.old.version) }
    ensures looks { LooksAtOf P.Station ShipFault.DiskFault result station.old station.new }
    ensures named { IfErr result IsNamed }
    ensures say_fault { IsErrOf result ShipFault.SayFault → ⊥ }
{
    while journal.used() < stop {
        pass_next(station, journal)?;
    }
    Ok(())
}

/// Goes on to the gate that a standby station has come to: whether one is there, with that station's seal before it. The records
/// come to a closed gate at a place.
pub(crate) fn look_for<P: Station>(
    alloc: Global,
    station: &mut P,
    directory: &Directory,
    journal: &mut Journal,
    end: u64,
    since: &Since,
) -> Result<bool, ShipFault>
    requires going { journal.old.ended ≡ false }
    requires room { end < 2 ^ 40 }
    requires stands { P.observed → StandsOn (P.calls station.old) journal.old }
    requires first { P.observed → IsAtFirst directory.now (P.calls station.old) journal.old end }
    ensures found { P.observed → LooksFor result directory.now (P.calls station.new) journal.new end
        (behind_here directory.now (P.calls station.old) journal.old (since.now.used - 1)
        (held journal.old.version since.now.seal)) }
    ensures going { OnOk result (journal.new.ended ≡ false) }
    ensures stands { P.observed → OnOk result (StandsOn (P.calls station.new) journal.new) }
    ensures looks { LooksAtOf P.Station ShipFault.DiskFault result station.old station.new }
    ensures named { IfErr result IsNamed }
    ensures say_fault { IsErrOf result ShipFault.SayFault → ⊥ }
{
    pass_checkpoint(alloc, station, directory, journal)?;
    let place = since.used.saturating_sub(1);
    pass_records(station, journal, place.min(end))?;
    let there = journal.used() == place;
    let same = is_same(journal.version(), &journal.seal(), &since.seal);
    Ok(there && same)
}
