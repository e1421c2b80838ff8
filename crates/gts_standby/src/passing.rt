//! A journal goes on behind a record that nobody looks at.
ghost use Rattle.std.specs.Prelude.{◌≡◌, ◌<◌, ◌≤◌, ◌^◌, false, OnOk};
ghost use Rattle.gts_standby.specs.Cited.{GoesOn, LooksAtOf, PassesNext, StandsOn, next_entry};

use gts_journal::{Journal, OpenFault};
use gts_traits::Station;

/// Goes on behind the record at the gate. A closed gate is answered as damage there.
pub(crate) fn pass_next<P: Station>(station: &mut P, journal: &mut Journal) -> Result<(), OpenFault>
    requires going { journal.old.ended ≡ false }
    requires room { journal.old.gate < 2 ^ 40 }
    requires stands { P.observed → StandsOn (P.calls station.old) journal.old }
    ensures passed { P.observed → PassesNext result (next_entry (P.calls station.old) journal.old)
        journal.old journal.new }
    ensures goes { OnOk result (GoesOn P.observed (P.calls station.new) journal.old journal.new) }
    ensures room { OnOk result (journal.new.gate ≤ 2 ^ 41) }
    ensures looks { LooksAtOf P.Station OpenFault.DiskFault result station.old station.new }
{
    let file = journal.file();
    let gate = journal.used();
    match journal.next(station)? {
        Some(_) => Ok(()),
        None => Err(OpenFault::Damaged {
            file: file.number(),
            at: gate,
        }),
    }
}
