//! The receipts of what is dropped, since it waits on circuits that are closed in the new directory.

ghost use Rattle.std.specs.Prelude.{◌≡◌, ◌++◌, [], get_or, is_ok, map, if◌then◌else◌, OnOk, IfOk, IsTrue};
ghost use Rattle.gts_migrate.specs.Cited.{CanDrop, IsNonDecreasing, IsStart, body_at, bulletin_of, circuit_need_of, drop_receipts, dropped_text, fields_of, flat_map, need_of, receipt_among, receipts_on, then_number, unused, waiting_at};

use crate::leaving::waiting_of;
use gts_checkpoint::is_among;
use gts_directory::Directory;
use gts_event::{Bulletin, Need};
use gts_heading::Heading;
use gts_message::Body;
use gts_traits::NoMemory;
use itoa::Buffer;
use std::alloc::Global;

/// The most bytes of a written heading.
const LONGEST_HEADING: usize = 22;

/// Appends a blank and the decimal digits of a number.
fn put_number(text: &mut Vec<u8>, number: u64) -> Result<(), NoMemory>
    ensures { OnOk result (text.new.items ≡ text.old.items ++ then_number number) }
{
    let mut digits = Buffer::new();
    text.extend_from_slice(b" ")?;
    text.extend_from_slice(digits.format(number).as_bytes())?;
    Ok(())
}

/// Appends the receipt of a bulletin that is dropped on circuit `c`.
fn put_receipt(text: &mut Vec<u8>, c: u32, position: u64, heading: &Heading) -> Result<(), NoMemory>
    ensures { OnOk result (text.new.items
        ≡ text.old.items ++ dropped_text c position (fields_of heading.now)) }
{
    let mut written = [0; LONGEST_HEADING];
    let count = heading.write(&mut written);
    text.extend_from_slice(b"DRP")?;
    put_number(text, u64::from(c))?;
    put_number(text, position)?;
    text.extend_from_slice(b" ")?;
    text.extend_from_slice(&written[..count])?;
    text.extend_from_slice(b"\n")?;
    Ok(())
}

/// Appends the receipt of a bulletin where it is among those that wait on circuit `c`.
fn put_bulletin(
    text: &mut Vec<u8>,
    c: u32,
    waiting: &[u64],
    bulletin: &Bulletin,
) -> Result<(), NoMemory>
    requires order { IsNonDecreasing waiting.now }
    requires body { IsTrue (is_ok (body_at bulletin.now.body)) }
    ensures { OnOk result (text.new.items
        ≡ text.old.items ++ receipt_among c waiting.now (bulletin_of bulletin.now)) }
{
    if !is_among(waiting, bulletin.position) {
        return Ok(());
    }
    match Body::split(bulletin.body.as_slice()) {
        Ok((heading, _)) => put_receipt(text, c, bulletin.position, &heading),
        Err(_) => unreachable!(),
    }
}

/// Appends the receipts of the bulletins that wait on circuit `c`.
fn put_bulletins(
    text: &mut Vec<u8>,
    c: u32,
    waiting: &[u64],
    bulletins: &[Bulletin],
) -> Result<(), NoMemory>
    requires { CanDrop (map bulletin_of bulletins.now) waiting.now }
    ensures { OnOk result (text.new.items
        ≡ text.old.items ++ receipts_on c (map bulletin_of bulletins.now) waiting.now) }
{
    for bulletin in bulletins {
        put_bulletin(text, c, waiting, bulletin)?;
    }
    Ok(())
}

/// Appends the receipts of what waits on circuit `c`, where it is closed.
fn put_circuit(text: &mut Vec<u8>, c: u32, closed: bool, need: &Need) -> Result<(), NoMemory>
    requires { IsStart (need_of need.now) }
    ensures { let n = need_of need.now in OnOk result (text.new.items
        ≡ text.old.items ++ (if closed then receipts_on c n.bulletins (waiting_at n c) else [])) }
{
    if !closed {
        return Ok(());
    }
    let waiting = waiting_of(need.circuits.as_slice(), c);
    put_bulletins(text, c, waiting, need.bulletins.as_slice())
}

/// The receipts of all that waits on closed circuits: circuit by circuit, and on each in the order in which it waits.
pub(crate) fn receipts(alloc: Global, need: &Need, new: &Directory) -> Result<Vec<u8>, NoMemory>
    requires { IsStart (need_of need.now) }
    ensures { IfOk result (λ text. text.items ≡ drop_receipts new.now (need_of need.now)) }
{
    let mut text = Vec::new(alloc);
    for c in 0..new.circuits() {
        put_circuit(&mut text, c, new.circuit(c).closed, need)?;
    }
    Ok(text)
}
