//! Lines that say a word or a number of something.

ghost use Rattle.std.specs.Prelude.{◌≡◌, Some, IfOk};
ghost use Rattle.gts_report.specs.Changes as changes;

use crate::ReportText;
use crate::lines::add_number;
use gts_alphabet::{NoMemory, digits_of};
use gts_migrate::MigrateFault;
use std::alloc::Global;

/// A word about a circuit.
pub(crate) fn word_line(
    alloc: Global,
    c: u32,
    name: &[u8],
    word: &[u8],
) -> Result<ReportText, NoMemory>
    ensures { IfOk result (λ line. line ≡ changes.word_line c name.now word.now) }
{
    let mut line = ReportText::new();
    line.add(alloc, b"circuit ")?;
    line.add(alloc, &digits_of::<2>(c))?;
    line.add(alloc, b" ")?;
    line.add(alloc, name)?;
    line.add(alloc, b" ")?;
    line.add(alloc, word)?;
    line.add(alloc, b"\n")?;
    Ok(line)
}

/// A word about a circuit and how many, unless there is none.
pub(crate) fn count_line(
    alloc: Global,
    c: u32,
    name: &[u8],
    word: &[u8],
    count: u64,
) -> Result<ReportText, NoMemory>
    ensures { IfOk result (λ line. line ≡ changes.count_line c name.now word.now count) }
{
    if count == 0 {
        return Ok(ReportText::new());
    }
    let mut words = ReportText::new();
    words.add(alloc, word)?;
    words.add(alloc, b" ")?;
    add_number(alloc, &mut words, count)?;
    word_line(alloc, c, name, words.bytes())
}

/// How many bulletins are forgotten whose duplicates were known.
pub(crate) fn duplicates_line(alloc: Global, count: u64) -> Result<ReportText, NoMemory>
    ensures { IfOk result (λ line. line ≡ changes.duplicates_line count) }
{
    let mut line = ReportText::new();
    if count == 0 {
        return Ok(line);
    }
    line.add(alloc, b"duplicates forgotten ")?;
    add_number(alloc, &mut line, count)?;
    line.add(alloc, b"\n")?;
    Ok(line)
}

/// Something waits on a circuit that is closed.
fn waits_line(alloc: Global, circuit: u32, count: u64) -> Result<ReportText, NoMemory>
    ensures { IfOk result (λ line.
        line ≡ changes.refused_line (Some (MigrateFault.Waits circuit count))) }
{
    let mut line = ReportText::new();
    line.add(alloc, b"refused circuit ")?;
    line.add(alloc, &digits_of::<2>(circuit))?;
    line.add(alloc, b" waiting ")?;
    add_number(alloc, &mut line, count)?;
    line.add(alloc, b"\n")?;
    Ok(line)
}

/// The journal would be full.
fn full_line(alloc: Global, used: u64, need: u64, limit: u64) -> Result<ReportText, NoMemory>
    ensures { IfOk result (λ line.
        line ≡ changes.refused_line (Some (MigrateFault.Full used need limit))) }
{
    let mut line = ReportText::new();
    line.add(alloc, b"refused full used ")?;
    add_number(alloc, &mut line, used)?;
    line.add(alloc, b" need ")?;
    add_number(alloc, &mut line, need)?;
    line.add(alloc, b" limit ")?;
    add_number(alloc, &mut line, limit)?;
    line.add(alloc, b"\n")?;
    Ok(line)
}

/// Why the journal would not be taken over.
pub(crate) fn refused_line(
    alloc: Global,
    refusal: Option<MigrateFault>,
) -> Result<ReportText, NoMemory>
    ensures { IfOk result (λ line. line ≡ changes.refused_line refusal) }
{
    match refusal {
        Some(MigrateFault::Waits { circuit, count }) => waits_line(alloc, circuit, count),
        Some(MigrateFault::Full { used, need, limit }) => full_line(alloc, used, need, limit),
        _ => Ok(ReportText::new()),
    }
}
