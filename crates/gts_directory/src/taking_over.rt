//! Whether a directory takes over from another one, and the first row that doesn't stay where it doesn't.

ghost use Rattle.std.specs.Prelude.{◌≡◌, ◌≤◌, length, None};
ghost use Rattle.gts_directory.specs.Cited.{directory_of_rows, first_fault};
ghost use Rattle.gts_directory.specs.TakingOver as takes_over;
ghost use Rattle.gts_directory.specs.Staying as staying;

use crate::patterns::unpadded;
use crate::{CircuitRow, DirRows, Part};
use gts_alphabet::MOST_CIRCUITS;
use thiserror::Error;

/// A row of an old directory that doesn't stay in a new one: it isn't there in its place, or what may not change is
/// changed. Rows count from 0 within their part, and `Top` has row 0 (profile).
#[derive(Clone, Copy, Debug, PartialEq, Eq, Error)]
#[error("changed in {part} row {row}")]
pub struct Change {
    /// The part with that row: `Top` or `Circuit`.
    pub part: Part,
    /// The row in the old directory.
    pub row: u32,
}

/// The first row of the old directory that doesn't stay in the new one.
pub(crate) fn first_change(new: &DirRows, old: &DirRows) -> Option<Change>
    requires new { first_fault new.now ≡ None }
    requires old { first_fault old.now ≡ None }
    ensures { result ≡ takes_over.first_change (directory_of_rows new.now)
        (directory_of_rows old.now) }
{
    if !top_stays(old, new) {
        return Some(Change {
            part: Part::Top,
            row: 0,
        });
    }
    if let Some(row) = first_changed_circuit(old.circuits(), new.circuits()) {
        let part = Part::Circuit;
        return Some(Change { part, row });
    }
    None
}

/// Whether the own centre stays.
fn top_stays(old: &DirRows, new: &DirRows) -> bool
    ensures { result
        ≡ takes_over.top_stays (directory_of_rows old.now) (directory_of_rows new.now) }
{
    old.centre == new.centre
}

/// The first circuit that doesn't stay.
fn first_changed_circuit(old: &[CircuitRow], new: &[CircuitRow]) -> Option<u32>
    requires { length old.now ≤ MOST_CIRCUITS }
    ensures { result ≡ takes_over.first_changed staying.row_keeps_place 0 old.now new.now }
{
    for (row, circuit) in old.iter().enumerate() {
        if row >= new.len() || !keeps_place(circuit, &new[row]) {
            return Some(row as u32);
        }
    }
    None
}

/// Whether a circuit keeps its place: it has its name, and the same neighbour.
fn keeps_place(old: &CircuitRow, new: &CircuitRow) -> bool
    ensures { result ≡ staying.row_keeps_place old.now new.now }
{
    unpadded(&old.name) == unpadded(&new.name) && old.peer == new.peer
}
