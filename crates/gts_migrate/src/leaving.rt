//! What waits on circuits that are closed in the new directory.

ghost use Rattle.std.specs.Prelude.{◌≡◌, ◌<◌, ◌^◌, get_or, length, map};
ghost use Rattle.gts_migrate.specs.Cited.{TellsWaiting, circuit_need_of, left_behind, need_of, unused as unused_of, waits_on_closed};

use crate::MigrateFault;
use gts_directory::Directory;
use gts_event::{CircuitNeed, Need};

/// What waits on a circuit: nothing on one that isn't there.
pub(crate) fn waiting_of(circuits: &[CircuitNeed], c: u32) -> &[u64]
    ensures { result.now ≡ (get_or (map circuit_need_of circuits.now) c unused_of).waiting }
{
    match circuits.get(c as usize) {
        Some(circuit) => circuit.waiting.as_slice(),
        None => &[],
    }
}

/// How many wait on a circuit.
fn waiting_on(circuits: &[CircuitNeed], c: u32) -> u64
    ensures { result
        ≡ length (get_or (map circuit_need_of circuits.now) c unused_of).waiting }
{
    waiting_of(circuits, c).len() as u64
}

/// Whether nothing waits on a closed circuit; else the first such circuit, and how many wait there.
pub(crate) fn check_waiting(need: &Need, new: &Directory) -> Result<(), MigrateFault>
    ensures { TellsWaiting result (waits_on_closed new.now (need_of need.now)) }
{
    let circuits = need.circuits.as_slice();
    for c in 0..new.circuits() {
        let count = waiting_on(circuits, c);
        if new.circuit(c).closed && count > 0 {
            return Err(MigrateFault::Waits { circuit: c, count });
        }
    }
    Ok(())
}

/// How many wait on closed circuits.
pub(crate) fn count_waiting(need: &Need, new: &Directory) -> u64
    requires { left_behind new.now (need_of need.now) < 2 ^ 32 }
    ensures { result ≡ left_behind new.now (need_of need.now) }
{
    let circuits = need.circuits.as_slice();
    let mut count = 0;
    for c in 0..new.circuits() {
        if new.circuit(c).closed {
            count += waiting_on(circuits, c);
        }
    }
    count
}
