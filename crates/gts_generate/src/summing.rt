ghost use Rattle.std.specs.Prelude.{◌≡◌, ◌++◌, ◌&&◌, map, sum, true, nat_eq, OnOk, codes, if◌then◌else◌};
ghost use Rattle.gts_generate.specs.Cited.{calls_of, encode_lower, line, lines_from, said_by, starts_with};
ghost use Rattle.gts_generate.specs.Summary as summaries;

use crate::said::said_on_circuits;
use gts_event::{CircuitNeed, Need};
use gts_memory::MemStation;
use gts_report::ReportText;
use gts_traits::{Channel, NoMemory};
use itoa::Buffer;
use std::alloc::Global;

/// The digits of a digest.
const DIGITS: usize = 64;

/// Writes a line with a name and a number.
fn add_line(alloc: Global, text: &mut ReportText, name: &[u8], number: u128) -> Result<(), NoMemory>
    ensures { OnOk result (text.new ≡ text.old ++ line name.now number) }
{
    let mut digits = Buffer::new();
    text.add(alloc, name)?;
    text.add(alloc, b" ")?;
    text.add(alloc, digits.format(number).as_bytes())?;
    text.add(alloc, b"\n")?;
    Ok(())
}

/// 1 where a line begins here, and begins with a word; else 0.
fn line_here(begins: bool, bytes: &[u8], word: &[u8]) -> u64
    ensures { result ≡ (if begins && starts_with nat_eq bytes.now word.now then 1 else 0) }
{
    if begins && bytes.starts_with(word) {
        1
    } else {
        0
    }
}

/// How many lines begin with a word.
fn lines_of(word: &[u8], bytes: &[u8]) -> u64
    ensures { result ≡ lines_from true word.now bytes.now }
{
    let mut count = 0;
    let mut begins = true;
    for i in 0..bytes.len() {
        count += line_here(begins, &bytes[i..], word);
        begins = bytes[i] == b'\n';
    }
    count
}

/// How many bulletins were drawn, over all circuits.
fn draws_of(circuits: &[CircuitNeed]) -> u128
    ensures { result ≡ sum (map (λ circuit. circuit.draws) circuits.now) }
{
    let mut draws = 0;
    for circuit in circuits {
        draws += u128::from(circuit.draws);
    }
    draws
}

/// Writes the digest of what was said on the circuits, and the end.
fn add_end(alloc: Global, text: &mut ReportText, digest: [u8; 32]) -> Result<(), NoMemory>
    ensures { OnOk result (text.new ≡ text.old ++ codes "digest "
        ++ encode_lower digest ++ codes "\nend\n") }
{
    let mut digits = [0; DIGITS];
    let _ = hex::encode_to_slice(digest, &mut digits);
    text.add(alloc, b"digest ")?;
    text.add(alloc, &digits)?;
    text.add(alloc, b"\nend\n")?;
    Ok(())
}

/// Writes the lines of the receipts: how many duplicates and how many requests there were.
fn add_receipts(alloc: Global, text: &mut ReportText, receipts: &[u8]) -> Result<(), NoMemory>
    ensures { OnOk result (text.new ≡ text.old
        ++ line (codes "duplicates") (lines_from true (codes "DUP") receipts.now)
        ++ line (codes "requests") (lines_from true (codes "ASK") receipts.now)) }
{
    add_line(
        alloc,
        text,
        b"duplicates",
        u128::from(lines_of(b"DUP", receipts)),
    )?;
    add_line(
        alloc,
        text,
        b"requests",
        u128::from(lines_of(b"ASK", receipts)),
    )
}

/// Writes the summary of a day behind a text: how many messages came; of what the station said, how many duplicates,
/// requests and repetitions there were, how many bytes went to the circuits, and their SHA-256 in the order in which they were
/// said; of the need, how many bulletins were accepted and drawn; and how many bytes of the journal are in use.
pub fn summary(
    alloc: Global,
    count: u32,
    station: &MemStation,
    need: &Need,
    used: u64,
    text: &mut ReportText,
) -> Result<(), NoMemory>
    ensures { OnOk result (text.new ≡ text.old ++ summaries.summary_text count
        (said_by (calls_of station.now.past)) need.now used) }
{
    let said = said_on_circuits(station)?;
    let draws = draws_of(need.circuits.as_slice());
    add_line(alloc, text, b"messages", u128::from(count))?;
    add_line(alloc, text, b"accepted", u128::from(need.accepted))?;
    add_receipts(alloc, text, station.said(Channel::OPERATOR))?;
    add_line(alloc, text, b"draws", draws)?;
    add_line(alloc, text, b"resends", said.frames.saturating_sub(draws))?;
    add_line(alloc, text, b"bytes", said.bytes)?;
    add_line(alloc, text, b"journal", u128::from(used))?;
    add_end(alloc, text, said.digest)?;
    Ok(())
}
