ghost use Rattle.std.specs.Prelude.{◌≡◌, ◌==◌, ◌<◌, ◌++◌, length, IfOk, OnOk};
ghost use Rattle.gts_inspect.specs.Cited.{AreRulesOf, bit_at, fields_of, filter, level_of, matches as matches_with, named, range_with_len};
ghost use Rattle.gts_inspect.specs.Routing as routing;

use crate::patterns::agrees;
use gts_alphabet::{NoMemory, digits_of};
use gts_directory::{CircuitSet, Directory, RuleRow, a_mask_has_the_bits_of_its_circuits};
use gts_dirfile::DirectoryFile;
use gts_heading::Heading;
use std::alloc::Global;

/// Where a bulletin would go, by numbers that count from 0.
#[derive(Debug, Drop)]
pub struct Route {
    /// The circuits that get it, in their order.
    pub circuits: Vec<usize>,
    /// Its level: 1 is the highest.
    pub level: u8,
    /// The rules that match it, in their order.
    pub rules: Vec<usize>,
}

/// Adds a number, where something is so.
fn add_where(numbers: &mut Vec<usize>, holds: bool, number: usize) -> Result<(), NoMemory>
    ensures { OnOk result
        (numbers.new.items ≡ numbers.old.items ++ routing.where_holds holds number) }
{
    if holds {
        numbers.push(number)?;
    }
    Ok(())
}

/// Whether a rule's pattern matches a heading.
fn matches(pattern: &[u8; 11], heading: &Heading) -> bool
    ensures { result ≡ matches_with pattern.now (fields_of heading.now) }
{
    let of_type = agrees(&pattern[..2], &heading.tt);
    let of_area = agrees(&pattern[2..4], &heading.aa);
    let of_number = agrees(&pattern[4..6], &digits_of::<2>(u32::from(heading.ii)));
    let of_centre = agrees(&pattern[7..], &heading.cccc);
    of_type & of_area & of_number & of_centre
}

/// Whether a rule that matches names a circuit.
fn is_reached(directory: &Directory, rules: &[RuleRow], heading: &Heading, circuit: usize) -> bool
    requires there { circuit < length directory.now.circuits }
    requires rules { AreRulesOf rules.now directory.now }
    ensures { result ≡ routing.is_reached directory.now (fields_of heading.now) circuit }
{
    directory.bounds_hold();
    let mut reached = false;
    for rule in rules {
        reached = reached | (matches(&rule.heading, heading) & rule.to.has(circuit));
    }
    reached
}

/// The circuits that rules which match name.
fn reached(
    alloc: Global,
    directory: &Directory,
    rules: &[RuleRow],
    heading: &Heading,
) -> Result<Vec<usize>, NoMemory>
    requires { AreRulesOf rules.now directory.now }
    ensures { IfOk result (λ circuits.
        circuits.items ≡ routing.reached directory.now (fields_of heading.now)) }
{
    let mut circuits = Vec::new(alloc);
    for circuit in 0..directory.circuits() as usize {
        let reached = is_reached(directory, rules, heading, circuit);
        add_where(&mut circuits, reached, circuit)?;
    }
    Ok(circuits)
}

/// The circuits of a set, among those of a directory.
fn circuits_of(
    alloc: Global,
    directory: &Directory,
    set: CircuitSet,
) -> Result<Vec<usize>, NoMemory>
    ensures { IfOk result (λ circuits. circuits.items
        ≡ filter (λ c. bit_at set c == 1) (range_with_len 0 (length directory.now.circuits))) }
{
    directory.bounds_hold();
    let mut circuits = Vec::new(alloc);
    for circuit in 0..directory.circuits() as usize {
        add_where(&mut circuits, set.has(circuit), circuit)?;
    }
    Ok(circuits)
}

/// The circuits that get a bulletin that came in on a circuit.
fn named_from(
    alloc: Global,
    directory: &Directory,
    heading: &Heading,
    from: u32,
) -> Result<Vec<usize>, NoMemory>
    requires { from < length directory.now.circuits }
    ensures { IfOk result (λ circuits.
        circuits.items ≡ named directory.now from (fields_of heading.now)) }
{
    a_mask_has_the_bits_of_its_circuits();
    circuits_of(alloc, directory, directory.names(from, heading))
}

/// The rules that match a heading.
fn matching(alloc: Global, rules: &[RuleRow], heading: &Heading) -> Result<Vec<usize>, NoMemory>
    ensures { IfOk result (λ places. places.items
        ≡ routing.places (λ rule. matches_with rule.heading (fields_of heading.now)) 0 rules.now) }
{
    let mut places = Vec::new(alloc);
    for (place, rule) in rules.iter().enumerate() {
        add_where(&mut places, matches(&rule.heading, heading), place)?;
    }
    Ok(places)
}

/// Where a bulletin with this heading would go that came in on a circuit, at which level, and which rules match it. Without a circuit
/// it is as one that came from elsewhere: it goes to each circuit that one of these rules names.
pub fn route_of(
    alloc: Global,
    file: &DirectoryFile,
    heading: &Heading,
    from: Option<u32>,
) -> Result<Route, NoMemory>
    requires { routing.IsThere file.now from }
    ensures circuits { IfOk result (λ route.
        route.circuits.items ≡ routing.circuits_from file.now (fields_of heading.now) from) }
    ensures level { IfOk result (λ route. route.level ≡ level_of file.now (fields_of heading.now)) }
    ensures rules { IfOk result (λ route.
        route.rules.items ≡ routing.matching file.now (fields_of heading.now)) }
{
    let directory = file.directory();
    let circuits = match from {
        Some(from) => named_from(alloc, directory, heading, from)?,
        None => reached(alloc, directory, file.rules(), heading)?,
    };
    let rules = matching(alloc, file.rules(), heading)?;
    let level = directory.level(heading);
    Ok(Route {
        circuits,
        level,
        rules,
    })
}
