ghost use Rattle.std.specs.Prelude.{◌≡◌, ◌<◌, ◌^◌, ℕ, false, List, IfErr, OnOk};
ghost use Rattle.gts_standby.specs.Cited.{AsksToShip, Directory, IsAtGate, IsNamed, SaysOne, SaysRest, StandsOn};

use crate::ShipFault;
use crate::passing::pass_next;
use crate::piece::say_part;
use gts_journal::Journal;
use gts_traits::Station;

/// Says the record behind the gate with its seal, and goes on behind it.
fn say_next<P: Station>(station: &mut P, journal: &mut Journal) -> Result<(), ShipFault>
    requires going { journal.old.ended ≡ false }
    requires room { journal.old.gate < 2 ^ 40 }
    requires stands { P.observed → StandsOn (P.calls station.old) journal.old }
    ensures said { P.observed → (d : Directory) (end : ℕ) (left : List ℕ)
        → IsAtGate d (P.calls station.old) journal.old end left → journal.old.gate < end
        → SaysOne result d (P.calls station.old) (P.calls station.new) journal.new end left }
    ensures going { OnOk result (journal.new.ended ≡ false) }
    ensures stands { P.observed → OnOk result (StandsOn (P.calls station.new) journal.new) }
    ensures rises { OnOk result (journal.old.gate < journal.new.gate) }
    ensures named { IfErr result IsNamed }
    ensures cause { AsksToShip P.Station result station.old station.new }
{
    let gate = journal.used();
    let file = journal.file();
    pass_next(station, journal)?;
    let behind = journal.used();
    say_part(station, file, gate + 1, behind)
}

/// Says the records from the gate on, each with its seal, up to the gate at a place.
pub(crate) fn say_records<P: Station>(
    station: &mut P,
    journal: &mut Journal,
    end: u64,
) -> Result<(), ShipFault>
    requires going { journal.old.ended ≡ false }
    requires room { end < 2 ^ 40 }
    requires stands { P.observed → StandsOn (P.calls station.old) journal.old }
    ensures said { P.observed → (d : Directory) (left : List ℕ)
        → IsAtGate d (P.calls station.old) journal.old end left
        → SaysRest result (P.calls station.old) (P.calls station.new) left }
    ensures named { IfErr result IsNamed }
    ensures cause { AsksToShip P.Station result station.old station.new }
{
    while journal.used() < end {
        say_next(station, journal)?;
    }
    Ok(())
}
