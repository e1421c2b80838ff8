//! The table in lines for the operator, from the running numbers.
ghost use Rattle.std.specs.Prelude.{◌≡◌, ◌++◌, IfOk, OnOk, decimal};
ghost use Rattle.gts_count.specs.Table as tables;
ghost use Rattle.gts_count.specs.Cited.{IsSound, tally, tally_of};
ghost use Rattle.gts_count.specs.Text as texts;

use crate::{Numbers, Row};
use gts_alphabet::{NoMemory, digits_of};
use itoa::Buffer;
use std::alloc::Global;
use std::collections::{BTreeMap, HashMap};

/// Adds bytes at the end of a text.
fn add(text: &mut Vec<u8>, bytes: &[u8]) -> Result<(), NoMemory>
    ensures { OnOk result (text.new.items ≡ text.old.items ++ bytes.now) }
{
    text.extend_from_slice(bytes)?;
    Ok(())
}

/// Adds a number in decimal digits.
fn add_number(text: &mut Vec<u8>, number: u64) -> Result<(), NoMemory>
    ensures { OnOk result (text.new.items ≡ text.old.items ++ decimal number) }
{
    let mut digits = Buffer::new();
    add(text, digits.format(number).as_bytes())
}

/// Whether not all numbers of a key are 0.
fn is_counted(row: &Row) -> bool
    ensures { result ≡ texts.is_counted row.now }
{
    row.bulletins != 0 || row.bytes != 0 || row.draws != 0
}

/// The line of a key. Nothing where all its numbers are 0.
fn key_line(alloc: Global, key: &[u8; 11], row: &Row) -> Result<Vec<u8>, NoMemory>
    ensures { IfOk result (λ line. line.items ≡ texts.entry_text (key.now, row.now)) }
{
    let mut line = Vec::new(alloc);
    if !is_counted(row) {
        return Ok(line);
    }
    add(&mut line, b"key ")?;
    add(&mut line, key)?;
    add(&mut line, b" bulletins ")?;
    add_number(&mut line, row.bulletins)?;
    add(&mut line, b" bytes ")?;
    add_number(&mut line, row.bytes)?;
    add(&mut line, b" draws ")?;
    add_number(&mut line, row.draws)?;
    add(&mut line, b"\n")?;
    Ok(line)
}

/// The rows in the order of their keys.
fn in_order(
    alloc: Global,
    rows: &HashMap<[u8; 11], Row>,
) -> Result<BTreeMap<[u8; 11], Row>, NoMemory>
    ensures { IfOk result (texts.AreInOrder rows.now) }
{
    let mut sorted = BTreeMap::new(alloc);
    for (key, row) in rows.iter() {
        sorted.insert(*key, *row)?;
    }
    Ok(sorted)
}

/// The lines of all keys, in their order.
fn key_lines(alloc: Global, rows: &BTreeMap<[u8; 11], Row>) -> Result<Vec<u8>, NoMemory>
    ensures { IfOk result (λ lines. lines.items ≡ texts.key_lines rows.now) }
{
    let mut lines = Vec::new(alloc);
    for (key, row) in rows.iter() {
        let line = key_line(alloc, key, row)?;
        add(&mut lines, &line)?;
    }
    Ok(lines)
}

/// The line of a circuit: how many bulletins came in, and how many draws are kept.
fn circuit_line(alloc: Global, c: u32, came: u64, drew: u64) -> Result<Vec<u8>, NoMemory>
    ensures { IfOk result (λ line. line.items ≡ tables.circuit_text c came drew) }
{
    let mut line = Vec::new(alloc);
    add(&mut line, b"circuit ")?;
    add(&mut line, &digits_of::<2>(c))?;
    add(&mut line, b" came ")?;
    add_number(&mut line, came)?;
    add(&mut line, b" drew ")?;
    add_number(&mut line, drew)?;
    add(&mut line, b"\n")?;
    Ok(line)
}

/// The line of each circuit.
fn circuit_lines(alloc: Global, numbers: &Numbers) -> Result<Vec<u8>, NoMemory>
    requires { IsSound numbers.now }
    ensures { IfOk result (λ lines. lines.items
        ≡ texts.numbers_lines 0 numbers.now.came.items numbers.now.drawn.items) }
{
    let mut lines = Vec::new(alloc);
    let count = numbers.came.len().min(numbers.drawn.len());
    for c in 0..count {
        let drew = numbers.drawn[c].len() as u64;
        let line = circuit_line(alloc, c as u32, numbers.came[c], drew)?;
        add(&mut lines, &line)?;
    }
    Ok(lines)
}

/// The whole table, from the numbers alone, of which these are the rows in order.
fn text_of(
    alloc: Global,
    rows: &BTreeMap<[u8; 11], Row>,
    numbers: &Numbers,
) -> Result<Vec<u8>, NoMemory>
    requires { IsSound numbers.now }
    ensures { IfOk result (λ text. text.items ≡ texts.numbers_text rows.now numbers.now) }
{
    let mut text = key_lines(alloc, rows)?;
    let circuits = circuit_lines(alloc, numbers)?;
    add(&mut text, &circuits)?;
    add(&mut text, b"end")?;
    add(&mut text, b"\n")?;
    Ok(text)
}

/// The table of what the numbers count.
pub fn table(alloc: Global, numbers: &Numbers) -> Result<Vec<u8>, NoMemory>
    requires { IsSound numbers.now }
    ensures { IfOk result (λ text. text.items ≡ tables.table_of (tally_of numbers.now)) }
{
    let rows = in_order(alloc, &numbers.rows)?;
    // The keys ascend.
    let _keys = rows.len();
    text_of(alloc, &rows, numbers)
}
