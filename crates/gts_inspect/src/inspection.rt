ghost use Rattle.std.specs.Prelude.{◌≡◌, ◌++◌, ◌<◌, [], ◌∷◌, length, map, IfOk, OnOk};
ghost use Rattle.gts_inspect.specs.Cited.{AreRulesOf, circuit_of_row, rule_of_row};
ghost use Rattle.gts_inspect.specs.Findings as findings;

use crate::circuits::{few_kept, own_peer, peer_twice};
use crate::ports::{
    calls_itself, input_twice, low_port, no_port, output_twice, same_ports, system_port,
};
use crate::rules::{no_circuit, no_rule, rule_covered, rule_twice};
use crate::{Finding, Key};
use gts_alphabet::{LONGEST_MESSAGE, NoMemory};
use gts_directory::{CircuitRow, Directory, RuleRow};
use gts_dirfile::DirectoryFile;
use std::alloc::Global;

/// How many things are looked for of a circuit.
const OF_CIRCUIT: usize = 14;

/// How many things are looked for of a rule.
const OF_RULE: usize = 3;

/// Adds a finding, where it is there.
fn add_look(found: &mut Vec<Finding>, look: Option<Finding>) -> Result<(), NoMemory>
    ensures { OnOk result (found.new.items ≡ found.old.items ++ findings.told (look ∷ [])) }
{
    if let Some(finding) = look {
        found.push(finding)?;
    }
    Ok(())
}

/// Adds the findings that are there.
fn add_told(found: &mut Vec<Finding>, looked: &[Option<Finding>]) -> Result<(), NoMemory>
    ensures { OnOk result (found.new.items ≡ found.old.items ++ findings.told looked.now) }
{
    for look in looked {
        add_look(found, *look)?;
    }
    Ok(())
}

/// The rows of the circuits.
pub(crate) fn circuit_rows(
    alloc: Global,
    directory: &Directory,
) -> Result<Vec<CircuitRow>, NoMemory>
    ensures { IfOk result (λ rows. map circuit_of_row rows.items ≡ directory.now.circuits) }
{
    let mut rows = Vec::new(alloc);
    for c in 0..directory.circuits() {
        rows.push(*directory.circuit(c))?;
    }
    Ok(rows)
}

/// What is looked for of what stands once.
fn of_top(directory: &Directory) -> [Option<Finding>; 1]
    ensures { result ≡ findings.of_top directory.now }
{
    if directory.limit() < LONGEST_MESSAGE as u64 {
        return [Some(Finding::NarrowLimit)];
    }
    [None]
}

/// What is looked for of a circuit.
fn of_circuit(
    directory: &Directory,
    circuits: &[CircuitRow],
    rules: &[RuleRow],
    circuit: usize,
    row: &CircuitRow,
) -> [Option<Finding>; OF_CIRCUIT]
    requires there { circuit < length circuits.now }
    requires circuits { map circuit_of_row circuits.now ≡ directory.now.circuits }
    requires rules { AreRulesOf rules.now directory.now }
    ensures { result ≡ findings.of_circuit directory.now circuit (circuit_of_row row.now) }
{
    let before = &circuits[..circuit];
    [
        own_peer(directory.centre(), circuit, row),
        peer_twice(before, circuit, row),
        few_kept(circuit, row),
        no_port(Key::Input, circuit, row),
        low_port(Key::Input, circuit, row),
        system_port(Key::Input, circuit, row),
        input_twice(before, circuit, row),
        no_port(Key::Output, circuit, row),
        low_port(Key::Output, circuit, row),
        system_port(Key::Output, circuit, row),
        output_twice(before, circuit, row),
        same_ports(circuit, row),
        calls_itself(directory.address(), circuits, circuit, row),
        no_rule(directory, rules, circuit, row),
    ]
}

/// What is looked for of a rule.
fn of_rule(
    directory: &Directory,
    rules: &[RuleRow],
    rule: usize,
    row: &RuleRow,
) -> [Option<Finding>; OF_RULE]
    requires there { rule < length rules.now }
    requires rules { AreRulesOf rules.now directory.now }
    ensures { result ≡ findings.of_rule directory.now rule
        (rule_of_row (length directory.now.circuits) row.now) }
{
    [
        no_circuit(directory, rule, row),
        rule_twice(directory, &rules[..rule], rule, row),
        rule_covered(directory, rules, rule, row),
    ]
}

/// Adds what is odd of each circuit.
fn add_circuits(
    found: &mut Vec<Finding>,
    directory: &Directory,
    circuits: &[CircuitRow],
    rules: &[RuleRow],
) -> Result<(), NoMemory>
    requires circuits { map circuit_of_row circuits.now ≡ directory.now.circuits }
    requires rules { AreRulesOf rules.now directory.now }
    ensures { OnOk result (found.new.items ≡ found.old.items
        ++ findings.in_order (findings.of_circuit directory.now) 0 directory.now.circuits) }
{
    for (circuit, row) in circuits.iter().enumerate() {
        add_told(found, &of_circuit(directory, circuits, rules, circuit, row))?;
    }
    Ok(())
}

/// Adds what is odd of each rule.
fn add_rules(
    found: &mut Vec<Finding>,
    directory: &Directory,
    rules: &[RuleRow],
) -> Result<(), NoMemory>
    requires { AreRulesOf rules.now directory.now }
    ensures { OnOk result (found.new.items ≡ found.old.items
        ++ findings.in_order (findings.of_rule directory.now) 0 directory.now.rules) }
{
    for (rule, row) in rules.iter().enumerate() {
        add_told(found, &of_rule(directory, rules, rule, row))?;
    }
    Ok(())
}

/// What is odd of a directory that was read: first of what stands once, then of each circuit, then of each rule, each in the order of
/// `Finding` (profile). It takes time by the square of the number of rules, and memory for a row of each circuit and for what is
/// found.
pub fn inspect(alloc: Global, file: &DirectoryFile) -> Result<Vec<Finding>, NoMemory>
    ensures { IfOk result (λ found. found.items ≡ findings.findings file.now) }
{
    let directory = file.directory();
    let circuits = circuit_rows(alloc, directory)?;
    let mut found = Vec::new(alloc);
    add_told(&mut found, &of_top(directory))?;
    add_circuits(&mut found, directory, circuits.as_slice(), file.rules())?;
    add_rules(&mut found, directory, file.rules())?;
    Ok(found)
}
