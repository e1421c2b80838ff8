//! What changes for each circuit.

ghost use Rattle.std.specs.Prelude.{◌≡◌, ◌-◌, ◌<◌, ℕ, List, length, IfOk, IsTrue};
ghost use Rattle.gts_report.specs.Cited.{TellsStaying, circuit_need_of, circuit_of_row, is_sound, kept_under, last_of, need_of, waits_closed};
ghost use Rattle.gts_report.specs.Changes as changes;

use crate::ReportText;
use crate::takeover::lines::{count_line, word_line};
use gts_alphabet::NoMemory;
use gts_directory::{CircuitRow, Directory, unpadded};
use gts_event::{CircuitNeed, Need};
use gts_migrate::a_circuit_goes_on;
use std::alloc::Global;

/// How many of the draws that a circuit keeps can't be asked for any more under its new row.
fn forgotten(old: &CircuitRow, new: &CircuitRow, circuit: &CircuitNeed) -> u64
    ensures { (behind : List ℕ)
        → behind ≡ last_of new.now.kept (kept_under old.now new.now circuit.now)
        → result ≡ length circuit.now.kept - length behind }
{
    let kept = circuit.kept.len();
    if new.digits != old.digits {
        return kept;
    }
    kept.saturating_sub(u64::from(new.kept))
}

/// Whether a circuit was closed, and whether it is.
fn closed_line(
    alloc: Global,
    c: u32,
    name: &[u8],
    was: bool,
    is: bool,
) -> Result<ReportText, NoMemory>
    ensures { IfOk result (λ line. line ≡ changes.closed_line c name.now was is) }
{
    match (was, is) {
        (false, true) => word_line(alloc, c, name, b"closed"),
        (true, false) => word_line(alloc, c, name, b"opened"),
        _ => Ok(ReportText::new()),
    }
}

/// How many wait on a circuit while it is closed.
fn waiting(row: &CircuitRow, circuit: &CircuitNeed) -> u64
    ensures { result ≡ waits_closed (circuit_of_row row.now) (circuit_need_of circuit.now) }
{
    if row.closed { circuit.waiting.len() } else { 0 }
}

/// What changes for a circuit that stays, of which this is needed.
fn stays_lines(
    alloc: Global,
    c: u32,
    old: &CircuitRow,
    new: &CircuitRow,
    circuit: &CircuitNeed,
) -> Result<ReportText, NoMemory>
    ensures { IfOk result (TellsStaying c old.now new.now circuit.now) }
{
    let name = unpadded(&new.name);
    let mut lines = closed_line(alloc, c, name, old.closed, new.closed)?;
    let gone = count_line(alloc, c, name, b"forgotten", forgotten(old, new, circuit))?;
    lines.add(alloc, gone.bytes())?;
    let waits = count_line(alloc, c, name, b"waiting", waiting(new, circuit))?;
    lines.add(alloc, waits.bytes())?;
    Ok(lines)
}

/// What changes for a circuit.
fn circuit_lines(
    alloc: Global,
    need: &Need,
    old: &Directory,
    new: &Directory,
    c: u32,
) -> Result<ReportText, NoMemory>
    requires sound { IsTrue (is_sound old.now (need_of need.now)) }
    requires inside { c < length new.now.circuits }
    ensures { IfOk result (λ lines. lines ≡ changes.circuit_lines new.now old.now
        (need_of need.now) (changes.behind new.now old.now (need_of need.now)) c) }
{
    let row = new.circuit(c);
    if c >= old.circuits() {
        return word_line(alloc, c, unpadded(&row.name), b"added");
    }
    a_circuit_goes_on();
    let circuits = need.circuits.as_slice();
    stays_lines(alloc, c, old.circuit(c), row, &circuits[c as usize])
}

/// What changes for each circuit, in order.
pub(crate) fn all_circuit_lines(
    alloc: Global,
    need: &Need,
    old: &Directory,
    new: &Directory,
) -> Result<ReportText, NoMemory>
    requires sound { IsTrue (is_sound old.now (need_of need.now)) }
    ensures { IfOk result (λ lines. lines ≡ changes.all_circuit_lines new.now old.now
        (need_of need.now) (changes.behind new.now old.now (need_of need.now))) }
{
    let mut all = ReportText::new();
    for c in 0..new.circuits() {
        let lines = circuit_lines(alloc, need, old, new, c)?;
        all.add(alloc, lines.bytes())?;
    }
    Ok(all)
}
