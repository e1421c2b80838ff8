//! The rules of one directory that another one doesn't have.

ghost use Rattle.std.specs.Prelude.{◌≡◌, ◌<◌, ◌^◌, ◌==◌, ◌&&◌, ◌++◌, nat_eq, length, IfOk, OnOk};
ghost use Rattle.gts_report.specs.Cited.{AreRulesOf, Directory as DirectoryOf, MOST_CIRCUITS, circuits_in, list_any, pointwise, rule_of_row};
ghost use Rattle.gts_report.specs.Changes as changes;

use crate::ReportText;
use gts_alphabet::NoMemory;
use gts_directory::{CircuitSet, Directory, RuleRow, a_mask_is_told_by_its_bits, unpadded};
use gts_dirfile::DirectoryFile;
use std::alloc::Global;

/// Whether a rule stands among others.
fn is_among(rule: &RuleRow, rules: &[RuleRow]) -> bool
    ensures { result ≡ list_any (λ other.
        pointwise nat_eq rule.now.heading other.heading && (rule.now.to == other.to)) rules.now }
{
    rules.iter().any(|other| rule.heading == other.heading && rule.to == other.to)
}

/// Adds the name of a circuit, where it is in a set.
fn add_name(
    alloc: Global,
    text: &mut ReportText,
    directory: &Directory,
    circuits: CircuitSet,
    c: u32,
) -> Result<(), NoMemory>
    requires here { c < length directory.now.circuits }
    requires few { c < MOST_CIRCUITS }
    ensures { OnOk result (text.new ≡ text.old ++ changes.name_text directory.now circuits c) }
{
    if !circuits.has(c as usize) {
        return Ok(());
    }
    text.add(alloc, b" ")?;
    text.add(alloc, unpadded(&directory.circuit(c).name))
}

/// Adds the names of the circuits of a set.
fn add_names(
    alloc: Global,
    text: &mut ReportText,
    directory: &Directory,
    circuits: CircuitSet,
) -> Result<(), NoMemory>
    ensures { OnOk result (text.new ≡ text.old ++ changes.names_text directory.now
        (circuits_in (length directory.now.circuits) circuits)) }
{
    for c in 0..directory.circuits() {
        add_name(alloc, text, directory, circuits, c)?;
    }
    Ok(())
}

/// The line of a rule.
fn rule_line(
    alloc: Global,
    word: &[u8],
    directory: &Directory,
    rule: &RuleRow,
) -> Result<ReportText, NoMemory>
    ensures { IfOk result (λ line. line ≡ changes.rule_line word.now directory.now
        (rule_of_row (length directory.now.circuits) rule.now)) }
{
    let mut line = ReportText::new();
    line.add(alloc, b"rule ")?;
    line.add(alloc, word)?;
    line.add(alloc, b" ")?;
    line.add(alloc, &rule.heading)?;
    line.add(alloc, b" to")?;
    add_names(alloc, &mut line, directory, rule.to)?;
    line.add(alloc, b"\n")?;
    Ok(line)
}

/// The line of a rule, unless it stands among others.
fn rule_change(
    alloc: Global,
    word: &[u8],
    directory: &Directory,
    rule: &RuleRow,
    others: &[RuleRow],
) -> Result<ReportText, NoMemory>
    requires { rule.now.to < 2 ^ length directory.now.circuits }
    ensures { IfOk result (λ line. (other : DirectoryOf) → AreRulesOf others.now other
        → line ≡ changes.rule_change word.now directory.now other.rules
        (rule_of_row (length directory.now.circuits) rule.now)) }
{
    a_mask_is_told_by_its_bits();
    if is_among(rule, others) {
        return Ok(ReportText::new());
    }
    rule_line(alloc, word, directory, rule)
}

/// The line of each of a directory's rules, which are these, that another one doesn't have.
fn lines_of(
    alloc: Global,
    word: &[u8],
    directory: &Directory,
    rules: &[RuleRow],
    other: &DirectoryFile,
) -> Result<ReportText, NoMemory>
    requires { AreRulesOf rules.now directory.now }
    ensures { IfOk result (λ lines. lines
        ≡ changes.rule_lines word.now directory.now other.now.rules) }
{
    let others = other.rules();
    let mut lines = ReportText::new();
    for rule in rules {
        let line = rule_change(alloc, word, directory, rule, others)?;
        lines.add(alloc, line.bytes())?;
    }
    Ok(lines)
}

/// The line of each rule of a directory that another one doesn't have.
pub(crate) fn rule_lines(
    alloc: Global,
    word: &[u8],
    file: &DirectoryFile,
    other: &DirectoryFile,
) -> Result<ReportText, NoMemory>
    ensures { IfOk result (λ lines. lines
        ≡ changes.rule_lines word.now file.now other.now.rules) }
{
    lines_of(alloc, word, file.directory(), file.rules(), other)
}
