ghost use Rattle.std.specs.Prelude.{◌≡◌, IfOk};
ghost use Rattle.gts_core.specs.Cited.{holds};
ghost use Rattle.gts_event.specs.Items as items;

use gts_alphabet::NoMemory;
use gts_event::CircuitNeed;
use std::alloc::Global;
use std::marker::Model;

/// A circuit of a need, with what waits there and what is kept there in ascending order, so that a position is found by bisection.
/// Contracts see the circuit.
#[derive(Drop)]
pub struct Holding<'a> {
    circuit: &'a CircuitNeed,
    held: Vec<u64>,
}

impl<'a> Model for Holding<'a> {
    ghost use Rattle.gts_core.specs.Cited.{AreHeld, CircuitNeed, circuit_need_of};

    ghost Value = { CircuitNeed };

    ghost view = { λ h. circuit_need_of h.circuit.now };

    ghost invariant = { λ h. AreHeld (circuit_need_of h.circuit.now) h.held.items };
}

impl<'a> Holding<'a> {
    /// The circuit, with what it holds. Takes room for that.
    pub fn of(alloc: Global, circuit: &'a CircuitNeed) -> Result<Holding<'a>, NoMemory>
        ensures { IfOk result (λ holding. holding ≡ items.circuit_need_of circuit.now) }
    {
        let mut held = Vec::from_slice(alloc, circuit.waiting.as_slice())?;
        held.extend_from_slice(circuit.kept.as_slice())?;
        held.sort_unstable();
        Ok(Holding { circuit, held })
    }

    /// Whether a position waits there, or is kept there.
    pub fn has(&self, position: u64) -> bool
        ensures { result ≡ holds self.now position }
    {
        self.held.binary_search(&position).is_ok()
    }
}
