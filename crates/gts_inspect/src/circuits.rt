//! What is odd of a circuit beside its ports and rules.

ghost use Rattle.std.specs.Prelude.{◌≡◌, map};
ghost use Rattle.gts_inspect.specs.Cited.{circuit_of_row, first};
ghost use Rattle.gts_inspect.specs.Findings as findings;

use crate::Finding;
use gts_directory::{CircuitRow, MOST_KEPT};

/// A circuit's neighbour is the own centre.
pub(crate) fn own_peer(centre: [u8; 4], circuit: usize, row: &CircuitRow) -> Option<Finding>
    ensures { result ≡ findings.own_peer centre circuit (circuit_of_row row.now) }
{
    if row.peer == centre {
        return Some(Finding::OwnPeer { circuit });
    }
    None
}

/// The first of some circuits with the same neighbour.
fn first_peer(before: &[CircuitRow], row: &CircuitRow) -> Option<usize>
    ensures { result ≡ first (λ other.
        findings.has_peer (circuit_of_row row.now) (circuit_of_row other)) before.now }
{
    before.iter().position(|other| other.peer == row.peer)
}

/// The first of the circuits before this one with the same neighbour.
#[tactic(auto, using(crate::proofs::FirstLemmas::position_from_map))]
pub(crate) fn peer_twice(before: &[CircuitRow], circuit: usize, row: &CircuitRow) -> Option<Finding>
    ensures { result ≡ findings.peer_twice (map circuit_of_row before.now) circuit
        (circuit_of_row row.now) }
{
    let earlier = first_peer(before, row)?;
    Some(Finding::PeerTwice { circuit, earlier })
}

/// A circuit keeps fewer draws than there are numbers of three digits.
pub(crate) fn few_kept(circuit: usize, row: &CircuitRow) -> Option<Finding>
    ensures { result ≡ findings.few_kept circuit (circuit_of_row row.now) }
{
    if row.kept < MOST_KEPT {
        return Some(Finding::FewKept { circuit });
    }
    None
}
