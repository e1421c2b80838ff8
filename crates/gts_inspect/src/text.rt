//! The lines of what was found, for the operator (profile). What they say is tested by cases.

ghost use Rattle.std.specs.Prelude.{IsTrue};
ghost use Rattle.gts_inspect.specs.Cited.{IsThere};

use crate::inspection::inspect;
use crate::limits::FIRST_FREE_PORT;
use crate::routing::{Route, route_of};
use crate::{Finding, Key};
use gts_alphabet::{LONGEST_MESSAGE, NoMemory, digits_of};
use gts_directory::{Directory, MOST_KEPT, unpadded};
use gts_dirfile::DirectoryFile;
use gts_heading::Heading;
use itoa::Buffer;
use std::alloc::Global;

/// The front of a heading: `TTAAii CCCC`.
const FRONT: usize = 11;

/// A heading's front, and a time that no rule looks at.
const BARE: [u8; 18] = *b"TTAAii CCCC 010000";

/// Adds a piece.
fn add(text: &mut Vec<u8>, piece: &[u8]) -> Result<(), NoMemory> {
    text.extend_from_slice(piece)?;
    Ok(())
}

/// Adds a number in decimal digits.
fn add_number(text: &mut Vec<u8>, number: u64) -> Result<(), NoMemory> {
    let mut digits = Buffer::new();
    add(text, digits.format(number).as_bytes())
}

/// Adds a circuit by its number and its name: `circuit 01 GRENADA`.
fn add_circuit(text: &mut Vec<u8>, directory: &Directory, circuit: usize) -> Result<(), NoMemory> {
    if circuit >= directory.circuits() as usize {
        return Ok(());
    }
    let number = circuit as u32;
    directory.bounds_hold();
    add(text, b"circuit ")?;
    add(text, &digits_of::<2>(number))?;
    add(text, b" ")?;
    add(text, unpadded(&directory.circuit(number).name))
}

/// Adds a rule by its number and its pattern: `rule 3 SM**** ****`.
fn add_rule(text: &mut Vec<u8>, file: &DirectoryFile, rule: usize) -> Result<(), NoMemory> {
    add(text, b"rule ")?;
    add_number(text, rule as u64)?;
    match file.rules().get(rule) {
        None => Ok(()),
        Some(row) => {
            add(text, b" ")?;
            add(text, &row.heading)
        }
    }
}

/// The word of a key.
fn word_of(key: Key) -> &'static [u8] {
    match key {
        Key::Input => b" input ",
        Key::Output => b" output ",
    }
}

/// Adds a circuit, and its port at a key: `circuit 01 GRENADA input 5000`.
fn add_port(
    text: &mut Vec<u8>,
    directory: &Directory,
    circuit: usize,
    key: Key,
) -> Result<(), NoMemory> {
    add_circuit(text, directory, circuit)?;
    add(text, word_of(key))?;
    if circuit >= directory.circuits() as usize {
        return Ok(());
    }
    let row = directory.circuit(circuit as u32);
    let port = match key {
        Key::Input => row.input,
        Key::Output => row.output,
    };
    add_number(text, u64::from(port))
}

/// Adds how many draws a circuit keeps.
fn add_kept(text: &mut Vec<u8>, directory: &Directory, circuit: usize) -> Result<(), NoMemory> {
    add_circuit(text, directory, circuit)?;
    add(text, b" kept ")?;
    if circuit < directory.circuits() as usize {
        add_number(text, u64::from(directory.circuit(circuit as u32).kept))?;
    }
    add(text, b" is below ")?;
    add_number(text, u64::from(MOST_KEPT))
}

/// Adds what is odd of a circuit beside its ports, or of what stands once.
fn add_row(text: &mut Vec<u8>, directory: &Directory, finding: Finding) -> Result<(), NoMemory> {
    match finding {
        Finding::NarrowLimit => {
            add(text, b"limit ")?;
            add_number(text, directory.limit())?;
            add(text, b" is below the longest message, ")?;
            add_number(text, LONGEST_MESSAGE as u64)
        }
        Finding::OwnPeer { circuit } => {
            add_circuit(text, directory, circuit)?;
            add(text, b" peer is the own centre")
        }
        Finding::PeerTwice { circuit, earlier } => {
            add_circuit(text, directory, circuit)?;
            add(text, b" peer is that of ")?;
            add_circuit(text, directory, earlier)
        }
        Finding::FewKept { circuit } => add_kept(text, directory, circuit),
        Finding::NoRule { circuit } => {
            add_circuit(text, directory, circuit)?;
            add(text, b" has no rule")
        }
        _ => Ok(()),
    }
}

/// Adds what is odd of a port.
fn add_odd_port(
    text: &mut Vec<u8>,
    directory: &Directory,
    finding: Finding,
) -> Result<(), NoMemory> {
    match finding {
        Finding::NoPort { circuit, key } => {
            add_port(text, directory, circuit, key)?;
            add(text, b" is no port")
        }
        Finding::LowPort { circuit, key } => {
            add_port(text, directory, circuit, key)?;
            add(text, b" is below ")?;
            add_number(text, u64::from(FIRST_FREE_PORT))
        }
        Finding::SystemPort { circuit, key } => {
            add_port(text, directory, circuit, key)?;
            add(text, b" is one that the system gives away")
        }
        _ => Ok(()),
    }
}

/// Adds what is odd of two ports.
fn add_two_ports(
    text: &mut Vec<u8>,
    directory: &Directory,
    finding: Finding,
) -> Result<(), NoMemory> {
    match finding {
        Finding::InputTwice { circuit, earlier } => {
            add_port(text, directory, circuit, Key::Input)?;
            add(text, b" is that of ")?;
            add_circuit(text, directory, earlier)
        }
        Finding::OutputTwice { circuit, earlier } => {
            add_port(text, directory, circuit, Key::Output)?;
            add(text, b" is that of ")?;
            add_circuit(text, directory, earlier)
        }
        Finding::SamePorts { circuit } => {
            add_port(text, directory, circuit, Key::Input)?;
            add(text, b" is its output")
        }
        Finding::CallsItself { circuit, called } => {
            add_port(text, directory, circuit, Key::Output)?;
            add(text, b" is the input of ")?;
            add_circuit(text, directory, called)
        }
        _ => Ok(()),
    }
}

/// Adds what is odd of a rule.
fn add_odd_rule(
    text: &mut Vec<u8>,
    file: &DirectoryFile,
    finding: Finding,
) -> Result<(), NoMemory> {
    match finding {
        Finding::NoCircuit { rule } => {
            add_rule(text, file, rule)?;
            add(text, b" names no circuit")
        }
        Finding::RuleTwice { rule, earlier } => {
            add_rule(text, file, rule)?;
            add(text, b" says the same as ")?;
            add_rule(text, file, earlier)
        }
        Finding::RuleCovered { rule, by } => {
            add_rule(text, file, rule)?;
            add(text, b" says no more than ")?;
            add_rule(text, file, by)
        }
        _ => Ok(()),
    }
}

/// Adds the line of a finding.
fn add_finding(text: &mut Vec<u8>, file: &DirectoryFile, finding: Finding) -> Result<(), NoMemory> {
    add(text, b"odd ")?;
    add_row(text, file.directory(), finding)?;
    add_odd_port(text, file.directory(), finding)?;
    add_two_ports(text, file.directory(), finding)?;
    add_odd_rule(text, file, finding)?;
    add(text, b"\n")
}

/// A line for each thing that is odd of a directory, and the end.
pub fn inspection_text(alloc: Global, file: &DirectoryFile) -> Result<Vec<u8>, NoMemory> {
    let found = inspect(alloc, file)?;
    let mut text = Vec::new(alloc);
    for finding in found.as_slice() {
        add_finding(&mut text, file, *finding)?;
    }
    add(&mut text, b"end\n")?;
    Ok(text)
}

/// The heading that begins so. `None` where none does.
pub fn heading_of(front: &[u8; FRONT]) -> Option<Heading> {
    let mut bare = BARE;
    bare[..FRONT].copy_from_slice(front);
    match Heading::read_bare(&bare) {
        Ok((heading, _)) => Some(heading),
        Err(_) => None,
    }
}

/// Adds a line for each circuit of a route.
fn add_circuits(
    text: &mut Vec<u8>,
    directory: &Directory,
    circuits: &[usize],
) -> Result<(), NoMemory> {
    for circuit in circuits {
        add_circuit(text, directory, *circuit)?;
        add(text, b"\n")?;
    }
    Ok(())
}

/// Adds a line for each rule of a route.
fn add_rules(text: &mut Vec<u8>, file: &DirectoryFile, rules: &[usize]) -> Result<(), NoMemory> {
    for rule in rules {
        add_rule(text, file, *rule)?;
        add(text, b"\n")?;
    }
    Ok(())
}

/// A line for the level, for each circuit and for each rule of a route, and the end.
fn text_of(alloc: Global, file: &DirectoryFile, route: &Route) -> Result<Vec<u8>, NoMemory> {
    let mut text = Vec::new(alloc);
    add(&mut text, b"level ")?;
    add_number(&mut text, u64::from(route.level))?;
    add(&mut text, b"\n")?;
    add_circuits(&mut text, file.directory(), route.circuits.as_slice())?;
    add_rules(&mut text, file, route.rules.as_slice())?;
    add(&mut text, b"end\n")?;
    Ok(text)
}

/// Where a bulletin would go whose heading begins so: a line for its level, for each circuit that gets it and for each rule that
/// matches it, and the end. `None` where no heading begins so, or the circuit isn't there.
pub fn route_text(
    alloc: Global,
    file: &DirectoryFile,
    front: &[u8; FRONT],
    from: Option<u32>,
) -> Result<Option<Vec<u8>>, NoMemory> {
    let Some(heading) = heading_of(front) else {
        return Ok(None);
    };
    if !is_there(file.directory(), from) {
        return Ok(None);
    }
    let route = route_of(alloc, file, &heading, from)?;
    Ok(Some(text_of(alloc, file, &route)?))
}

/// Whether the circuit is there, where one is said.
fn is_there(directory: &Directory, from: Option<u32>) -> bool
    ensures { IsTrue result → IsThere directory.now from }
{
    match from {
        None => true,
        Some(from) => from < directory.circuits(),
    }
}
