ghost use Rattle.std.specs.Prelude.{◌≡◌, ◌≢◌, ◌∷◌, ◌++◌, ℕ, Ok, IfOk, IfErr, OnOk, OnErr, IsTrue};
ghost use Rattle.gts_report.specs.Cited.{AsksDiskOf, Did, IsAnswer, OnlySyncs, State, Syncs, TakesOver, files_open_any, is_sound, need as need_at, need_of, opens_any, refusal, seen};
ghost use Rattle.gts_report.specs.Changes as report;

use crate::ReportText;
use crate::circuits::all_circuit_lines;
use crate::duplicates::forgotten_duplicates;
use crate::rules::rule_lines;
use crate::takeover::lines::{duplicates_line, refused_line};
use gts_alphabet::NoMemory;
use gts_directory::Directory;
use gts_dirfile::DirectoryFile;
use gts_migrate::{Trial, try_over};
use gts_recovery::OpenFault;
use gts_traits::Station;
use std::alloc::Global;

/// What changes of the rules.
fn both_rule_lines(
    alloc: Global,
    old: &DirectoryFile,
    new: &DirectoryFile,
) -> Result<ReportText, NoMemory>
    ensures { IfOk result (λ lines. lines ≡ report.both_rule_lines new.now old.now) }
{
    let mut lines = rule_lines(alloc, b"out", old, new)?;
    let added = rule_lines(alloc, b"in", new, old)?;
    lines.add(alloc, added.bytes())?;
    Ok(lines)
}

/// What changes beside the rules, and the end.
fn beside_rules(
    alloc: Global,
    old: &Directory,
    new: &Directory,
    trial: &Trial,
) -> Result<ReportText, NoMemory>
    requires sound { IsTrue (is_sound old.now (need_of trial.now.need)) }
    requires refused { trial.now.refusal ≡ refusal new.now old.now (need_of trial.now.need) }
    ensures { IfOk result (λ text.
        text ≡ report.beside_rules new.now old.now (need_of trial.now.need)) }
{
    let need = &trial.need;
    let mut text = all_circuit_lines(alloc, need, old, new)?;
    let forgotten = forgotten_duplicates(need, old, new);
    let duplicates = duplicates_line(alloc, forgotten)?;
    text.add(alloc, duplicates.bytes())?;
    let refused = refused_line(alloc, trial.refusal)?;
    text.add(alloc, refused.bytes())?;
    text.add(alloc, b"end")?;
    text.add(alloc, b"\n")?;
    Ok(text)
}

/// The whole report of a trial.
fn whole(
    alloc: Global,
    old: &DirectoryFile,
    new: &DirectoryFile,
    trial: &Trial,
) -> Result<ReportText, NoMemory>
    requires sound { IsTrue (is_sound old.now (need_of trial.now.need)) }
    requires refused { trial.now.refusal ≡ refusal new.now old.now (need_of trial.now.need) }
    ensures { IfOk result (λ text.
        text ≡ report.changes new.now old.now (need_of trial.now.need)) }
{
    let mut text = both_rule_lines(alloc, old, new)?;
    let rest = beside_rules(alloc, old.directory(), new.directory(), trial)?;
    text.add(alloc, rest.bytes())?;
    Ok(text)
}

/// Opens a journal, of either version, under its own directory, and adds the report of what would change if it were taken over under
/// another one: the rules that go and those that come, circuits that are added, closed or opened again, how many draws can't be
/// asked for any more, how many bulletins wait on closed circuits, how many duplicates are forgotten, and whether `migrate` would
/// refuse it. The files are synced, and nothing is written or said. A refusal adds nothing.
pub fn changes<P: Station>(
    alloc: Global,
    station: &mut P,
    old: &DirectoryFile,
    new: &DirectoryFile,
    text: &mut ReportText,
) -> Result<(), OpenFault>
    requires { TakesOver new.now old.now }

    // It is the report of the need of the state to which the files open.
    ensures report { P.observed → OnOk result ((s : State) × (used : ℕ)
        × (files_open_any old.now (seen (P.calls station.old)) ≡ Ok (s, used))
        × (text.new ≡ text.old ++ report.changes new.now old.now (need_at old.now s))) }
    ensures unchanged { OnErr result (text.new ≡ text.old) }
    ensures synced { P.observed → OnOk result (P.calls station.new
        ≡ Did Syncs ∷ P.calls station.old) }

    // A fault of the files is answered exactly where they open to it.
    ensures fault { P.observed → IfErr result (λ e. IsAnswer e
        (opens_any old.now (seen (P.calls station.old)))) }
    ensures never_older { P.observed → IfErr result (λ e. e ≢ OpenFault.OldVersion) }
    ensures told { P.observed → OnlySyncs (P.calls station.old) (P.calls station.new) }
    ensures cause { AsksDiskOf P.Station OpenFault.DiskFault result station.old station.new }
{
    let trial = try_over(alloc, station, old.directory(), new.directory())?;
    let report = whole(alloc, old, new, &trial)?;
    text.add(alloc, report.bytes())?;
    Ok(())
}
