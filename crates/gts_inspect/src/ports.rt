//! What is odd of a circuit's ports.

ghost use Rattle.std.specs.Prelude.{◌≡◌, map};
ghost use Rattle.gts_inspect.specs.Cited.{circuit_of_row, first};
ghost use Rattle.gts_inspect.specs.Findings as findings;

use crate::limits::{FIRST_FREE_PORT, FIRST_SYSTEM_PORT, LAST_SYSTEM_PORT};
use crate::{Finding, Key};
use gts_directory::CircuitRow;
use std::net::Ipv4Addr;

/// The port at a key.
fn port_at(key: Key, row: &CircuitRow) -> u32
    ensures { result ≡ findings.port_at key (circuit_of_row row.now) }
{
    match key {
        Key::Input => row.input,
        Key::Output => row.output,
    }
}

/// An open circuit has no port at a key.
pub(crate) fn no_port(key: Key, circuit: usize, row: &CircuitRow) -> Option<Finding>
    ensures { result ≡ findings.no_port key circuit (circuit_of_row row.now) }
{
    if !row.closed && port_at(key, row) == 0 {
        return Some(Finding::NoPort { circuit, key });
    }
    None
}

/// An open circuit has a port for which leave is wanted.
pub(crate) fn low_port(key: Key, circuit: usize, row: &CircuitRow) -> Option<Finding>
    ensures { result ≡ findings.low_port key circuit (circuit_of_row row.now) }
{
    let port = port_at(key, row);
    if !row.closed && 1 <= port && port < FIRST_FREE_PORT {
        return Some(Finding::LowPort { circuit, key });
    }
    None
}

/// An open circuit has a port that the system gives away.
pub(crate) fn system_port(key: Key, circuit: usize, row: &CircuitRow) -> Option<Finding>
    ensures { result ≡ findings.system_port key circuit (circuit_of_row row.now) }
{
    let port = port_at(key, row);
    if !row.closed && FIRST_SYSTEM_PORT <= port && port <= LAST_SYSTEM_PORT {
        return Some(Finding::SystemPort { circuit, key });
    }
    None
}

/// Whether the switch listens for two open circuits on one port.
fn listens_too(row: &CircuitRow, other: &CircuitRow) -> bool
    ensures { result
        ≡ findings.listens_too (circuit_of_row row.now) (circuit_of_row other.now) }
{
    !row.closed && !other.closed && 1 <= row.input && other.input == row.input
}

/// The first of some circuits for which the switch listens on the same port.
fn first_input(before: &[CircuitRow], row: &CircuitRow) -> Option<usize>
    ensures { result ≡ first (λ other.
        findings.listens_too (circuit_of_row row.now) (circuit_of_row other)) before.now }
{
    before.iter().position(|other| listens_too(row, other))
}

/// The first of the circuits before this one with the same input.
#[tactic(auto, using(crate::proofs::FirstLemmas::position_from_map))]
pub(crate) fn input_twice(
    before: &[CircuitRow],
    circuit: usize,
    row: &CircuitRow,
) -> Option<Finding>
    ensures { result ≡ findings.input_twice (map circuit_of_row before.now) circuit
        (circuit_of_row row.now) }
{
    let earlier = first_input(before, row)?;
    Some(Finding::InputTwice { circuit, earlier })
}

/// Whether the neighbours of two open circuits listen on one port of one host.
fn calls_too(row: &CircuitRow, other: &CircuitRow) -> bool
    ensures { result ≡ findings.calls_too (circuit_of_row row.now) (circuit_of_row other.now) }
{
    !row.closed
        && !other.closed
        && 1 <= row.output
        && other.output == row.output
        && other.host.octets() == row.host.octets()
}

/// The first of some circuits whose neighbours listen on the same port of the same host.
fn first_output(before: &[CircuitRow], row: &CircuitRow) -> Option<usize>
    ensures { result ≡ first (λ other.
        findings.calls_too (circuit_of_row row.now) (circuit_of_row other)) before.now }
{
    before.iter().position(|other| calls_too(row, other))
}

/// The first of the circuits before this one with the same output at the same host.
#[tactic(auto, using(crate::proofs::FirstLemmas::position_from_map))]
pub(crate) fn output_twice(
    before: &[CircuitRow],
    circuit: usize,
    row: &CircuitRow,
) -> Option<Finding>
    ensures { result ≡ findings.output_twice (map circuit_of_row before.now) circuit
        (circuit_of_row row.now) }
{
    let earlier = first_output(before, row)?;
    Some(Finding::OutputTwice { circuit, earlier })
}

/// An open circuit's input is its output.
pub(crate) fn same_ports(circuit: usize, row: &CircuitRow) -> Option<Finding>
    ensures { result ≡ findings.same_ports circuit (circuit_of_row row.now) }
{
    if !row.closed && 1 <= row.input && row.input == row.output {
        return Some(Finding::SamePorts { circuit });
    }
    None
}

/// Whether a circuit calls the port on which the switch, at this address, listens for another one.
fn is_called(address: Ipv4Addr, row: &CircuitRow, other: &CircuitRow) -> bool
    ensures { result
        ≡ findings.is_called address (circuit_of_row row.now) (circuit_of_row other.now) }
{
    !row.closed
        && !other.closed
        && 1 <= row.output
        && row.input != row.output
        && other.input == row.output
        && row.host.octets() == address.octets()
}

/// The first of some circuits that this one calls.
fn first_called(address: Ipv4Addr, circuits: &[CircuitRow], row: &CircuitRow) -> Option<usize>
    ensures { result ≡ first (λ other. findings.is_called address
        (circuit_of_row row.now) (circuit_of_row other)) circuits.now }
{
    circuits
        .iter()
        .position(|other| is_called(address, row, other))
}

/// The first of the circuits whose input this one calls at the switch's own address.
#[tactic(auto, using(crate::proofs::FirstLemmas::position_from_map))]
pub(crate) fn calls_itself(
    address: Ipv4Addr,
    circuits: &[CircuitRow],
    circuit: usize,
    row: &CircuitRow,
) -> Option<Finding>
    ensures { result ≡ findings.calls_itself address (map circuit_of_row circuits.now) circuit
        (circuit_of_row row.now) }
{
    let called = first_called(address, circuits, row)?;
    Some(Finding::CallsItself { circuit, called })
}
