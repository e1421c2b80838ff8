//! What a need brings under a directory that takes over from its own.

ghost use Rattle.std.specs.Prelude.{◌≡◌, ◌<◌, ◌||◌, ℕ, [], length, filter, get_or, map, nat_le, OnOk, IfOk, IsTrue, if◌then◌else◌};
ghost use Rattle.gts_migrate.specs.Cited.{IsNonDecreasing, TakesOver, bulletin_of, circuit_need_of, circuits_under, goes_on, has, is_sound, keeps_one, last_of, need as need_at, need_of, under_row, unused as unused_of};

use gts_checkpoint::{held_positions, is_among};
use gts_directory::{CircuitRow, Directory};
use gts_event::{Bulletins, CircuitNeed, CircuitNeeds, Need, Places};
use gts_traits::NoMemory;
use std::alloc::Global;

/// What is needed of a circuit on which nothing was drawn and nothing waits.
fn unused() -> CircuitNeed
    ensures { circuit_need_of result ≡ unused_of }
{
    CircuitNeed {
        draws: 0,
        waiting: Places::new(),
        kept: Places::new(),
        owed: Places::new(),
    }
}

/// What waits, and nothing where the circuit is closed.
fn still_waiting(alloc: Global, waiting: &[u64], closed: bool) -> Result<Places, NoMemory>
    ensures { IfOk result (λ still. still ≡ if closed then [] else waiting.now) }
{
    if closed {
        return Ok(Places::new());
    }
    let still = Vec::from_slice(alloc, waiting)?;
    Ok(Places::from_vec(still))
}

/// The last of the draws that are kept, as many as a row keeps; none where its numbers have other digits.
fn still_kept(alloc: Global, kept: &[u64], same: bool, count: u32) -> Result<Places, NoMemory>
    ensures { IfOk result (λ still. still ≡ last_of count (if same then kept.now else [])) }
{
    if !same {
        return Ok(Places::new());
    }
    let first = kept.len().saturating_sub(count as usize);
    let still = Vec::from_slice(alloc, &kept[first..])?;
    Ok(Places::from_vec(still))
}

/// What a circuit brings along under its new row: what waits, and the draws that can still be asked for. Nothing is owed.
fn bring(
    alloc: Global,
    circuit: &CircuitNeed,
    row: &CircuitRow,
    same: bool,
) -> Result<CircuitNeed, NoMemory>
    ensures { IfOk result (λ found. circuit_need_of found
        ≡ under_row row.now.closed same row.now.kept (circuit_need_of circuit.now)) }
{
    let waiting = still_waiting(alloc, circuit.waiting.as_slice(), row.closed)?;
    let kept = still_kept(alloc, circuit.kept.as_slice(), same, row.kept)?;
    Ok(CircuitNeed {
        draws: circuit.draws,
        waiting,
        kept,
        owed: Places::new(),
    })
}

/// What is needed of a circuit of the new directory.
fn bring_at(
    alloc: Global,
    need: &Need,
    old: &Directory,
    new: &Directory,
    c: u32,
) -> Result<CircuitNeed, NoMemory>
    requires takes { TakesOver new.now old.now }
    requires sound { IsTrue (is_sound old.now (need_of need.now)) }
    requires inside { c < length new.now.circuits }
    ensures { IfOk result (λ found. circuit_need_of found
        ≡ get_or (circuits_under new.now old.now (need_of need.now)) c unused_of) }
{
    if c >= old.circuits() {
        return Ok(unused());
    }
    let circuits = need.circuits.as_slice();
    let row = new.circuit(c);
    let same = row.digits == old.circuit(c).digits;
    bring(alloc, &circuits[c as usize], row, same)
}

/// What is needed of each circuit of the new directory.
fn bring_each(
    alloc: Global,
    need: &Need,
    old: &Directory,
    new: &Directory,
) -> Result<CircuitNeeds, NoMemory>
    requires takes { TakesOver new.now old.now }
    requires sound { IsTrue (is_sound old.now (need_of need.now)) }
    ensures circuits { IfOk result (λ found. map circuit_need_of found
        ≡ circuits_under new.now old.now (need_of need.now)) }
    ensures keeps { OnOk result (IsTrue (keeps_one new.now)) }
{
    let mut circuits = CircuitNeeds::new();
    for c in 0..new.circuits() {
        let _ = new.circuit(c);
        let circuit = bring_at(alloc, need, old, new, c)?;
        circuits.push(alloc, circuit)?;
    }
    Ok(circuits)
}

/// The bulletins from a position on, and those among positions that are held.
fn keep_needed(
    alloc: Global,
    bulletins: Bulletins,
    first: u64,
    held: &[u64],
) -> Result<Bulletins, NoMemory>
    requires { IsNonDecreasing held.now }
    ensures { IfOk result (λ kept. map bulletin_of kept
        ≡ filter (λ b. nat_le first b.position || has held.now b.position)
        (map bulletin_of bulletins)) }
{
    let mut kept = Bulletins::new();
    for bulletin in bulletins.into_vec(alloc) {
        if first <= bulletin.position || is_among(held, bulletin.position) {
            kept.push(alloc, bulletin)?;
        }
    }
    Ok(kept)
}

/// The need under the new directory: of each circuit what it brings, and the bulletins that are still needed.
pub(crate) fn bring_over(
    alloc: Global,
    need: Need,
    old: &Directory,
    new: &Directory,
) -> Result<Need, NoMemory>
    requires takes { TakesOver new.now old.now }
    requires sound { IsTrue (is_sound old.now (need_of need)) }
    ensures need { IfOk result (λ found. need_of found
        ≡ need_at new.now (goes_on new.now old.now (need_of need))) }
    ensures keeps { OnOk result (IsTrue (keeps_one new.now)) }
{
    let circuits = bring_each(alloc, &need, old, new)?;
    let held = held_positions(alloc, circuits.as_slice())?;
    let first = need.accepted.saturating_sub(u64::from(new.window()));
    let bulletins = keep_needed(alloc, need.bulletins, first, &held)?;
    Ok(Need {
        accepted: need.accepted,
        bulletins,
        circuits,
    })
}
