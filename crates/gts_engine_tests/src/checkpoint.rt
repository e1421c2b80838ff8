ghost use Rattle.std.specs.Prelude.{IfOk};
ghost use Rattle.gts_event.specs.Items as items;
ghost use Rattle.gts_checkpoint.specs.Writing.{FitBytes};

use gts_checkpoint::{decode, read, size, write};
use gts_event::{Bulletin, Bulletins, Bytes, CircuitNeed, CircuitNeeds, Need, Places};
use gts_frame::Kind;
use gts_memory::MemStation;
use gts_parts_tests::{MARK, two_circuits};
use gts_record::{OpenFault, Version};
use gts_traits::{JournalFile, Station};
use std::alloc::Global;
use std::process::Abort;
use std::test::Fail;

const HEADING: &[u8] = b"SMVG01 TVSV 280000\r\r\n";

const END: &[u8] = b"=\r\r\n\x03";

/// What is needed of a circuit that drew the first bulletin, or nothing.
fn circuit(alloc: Global, drawn: bool) -> Result<CircuitNeed, Fail> {
    let mut kept = Places::new();
    if drawn {
        kept.push(alloc, 0)?;
    }
    Ok(CircuitNeed {
        draws: u64::from(drawn),
        waiting: Places::new(),
        kept,
        owed: Places::new(),
    })
}

/// What is needed of two circuits, of which the second one drew the first bulletin.
fn circuits(alloc: Global) -> Result<CircuitNeeds, Fail> {
    let mut circuits = CircuitNeeds::new();
    circuits.push(alloc, circuit(alloc, false)?)?;
    circuits.push(alloc, circuit(alloc, true)?)?;
    Ok(circuits)
}

/// Writes bytes behind those of a body.
fn push_all(alloc: Global, body: &mut Bytes, bytes: &[u8]) -> Result<(), Fail> {
    for byte in bytes {
        body.push(alloc, *byte)?;
    }
    Ok(())
}

/// The body of a bulletin with so many letters in its text.
fn body(alloc: Global, letters: u32) -> Result<Bytes, Fail> {
    let mut body = Bytes::new();
    push_all(alloc, &mut body, HEADING)?;
    for _ in 0..letters {
        body.push(alloc, b'A')?;
    }
    push_all(alloc, &mut body, END)?;
    Ok(body)
}

/// The need after one bulletin on circuit 0, with so many letters in its text, and its draw on circuit 1.
fn one_draw(alloc: Global, letters: u32) -> Result<Need, Fail>
    ensures { IfOk result (λ need. FitBytes (items.need_of need)) }
{
    let circuits = circuits(alloc)?;
    let mut bulletins = Bulletins::new();
    bulletins.push(
        alloc,
        Bulletin {
            position: 0,
            from: 0,
            kind: Kind::An,
            body: body(alloc, letters)?,
        },
    )?;
    Ok(Need {
        accepted: 1,
        bulletins,
        circuits,
    })
}

/// A disk whose second file holds the checkpoint of a need.
fn written(rt: &impl Abort, alloc: Global, need: &Need) -> Result<MemStation, Fail>
    requires { FitBytes (items.need_of need.now) }
{
    let behind = Version::written().seal_size() as u64;
    assert!(rt; size(need) < 10_000 - behind);
    let mut station = MemStation::new(alloc, &[])?;
    write(alloc, &mut station, JournalFile::SECOND, MARK, need)?;
    Ok(station)
}

/// Writes a byte over the one that stands in the second file at a place.
fn put(rt: &impl Abort, station: &mut MemStation, place: u64, byte: u8) -> Result<(), Fail> {
    let size = station.size(JournalFile::SECOND)?;
    assert!(rt; place < size && size < 10_000);
    station.write_at(JournalFile::SECOND, place, &[byte])?;
    Ok(())
}

/// The need that is read from the second file, and the place of the gate behind it.
fn found<P: Station>(alloc: Global, station: &mut P) -> Result<(Need, u64), Fail> {
    let directory = two_circuits(alloc)?;
    let found = read(
        alloc,
        station,
        Version::written(),
        JournalFile::SECOND,
        &directory,
    );
    drop(directory);
    let (need, gate, _) = found?;
    Ok((need, gate))
}

/// Whether a need has one bulletin, which was accepted, and two circuits.
fn has_one_draw(need: &Need) -> bool {
    need.accepted == 1 && need.bulletins.len() == 1 && need.circuits.len() == 2
}

/// A disk with the checkpoint of one draw, and how many bytes the need has as a record.
fn one_written<R: AllocGlobal + Abort>(rt: &R, letters: u32) -> Result<(MemStation, u64), Fail> {
    let need = one_draw(rt.alloc(), letters)?;
    let station = written(rt, rt.alloc(), &need);
    let size = size(&need);
    drop(need);
    Ok((station?, size))
}

#[test]
fn a_checkpoint_is_read_as_it_was_written(rt: HostRuntime) -> Result<(), Fail> {
    let (mut station, size) = one_written(&rt, 3)?;
    assert!(rt; size == 105);
    assert!(rt; station.size(JournalFile::SECOND) == Ok(179));
    let (need, gate) = found(rt.alloc(), &mut station)?;
    assert!(rt; gate == 178);
    assert!(rt; has_one_draw(&need));
    drop(need);
    drop(station);
    Ok(())
}

/// How many letters a text has, and a place of the file that is damaged: the letter, the zeros, the circuits, the number
/// accepted, the bulletins, the first position, both ends of the seal, and a letter that the seal's second piece has.
const DAMAGED: [(u32, u64); 9] = [
    (3, 41),
    (3, 42),
    (3, 48),
    (3, 56),
    (3, 60),
    (3, 68),
    (3, 146),
    (3, 177),
    (5000, 5000),
];

/// A disk whose second file holds the checkpoint of one draw, with another byte at a place.
fn damaged<R: AllocGlobal + Abort>(rt: &R, letters: u32, place: u64) -> Result<MemStation, Fail> {
    let (mut station, _) = one_written(rt, letters)?;
    put(rt, &mut station, place, 7)?;
    Ok(station)
}

/// Why no checkpoint is read from the second file.
fn fault_of<P: Station>(alloc: Global, station: &mut P) -> Result<Option<OpenFault>, Fail> {
    let directory = two_circuits(alloc)?;
    let fault = read(
        alloc,
        station,
        Version::written(),
        JournalFile::SECOND,
        &directory,
    )
    .err();
    drop(directory);
    Ok(fault)
}

#[test]
fn a_damaged_byte_is_damage(rt: HostRuntime) -> Result<(), Fail> {
    let damage = Some(OpenFault::Damaged { file: 1, at: 41 });
    for (letters, place) in DAMAGED {
        let mut station = damaged(&rt, letters, place)?;
        assert!(rt;
            fault_of(rt.alloc(), &mut station)? == damage,
            "{letters} {place}"
        );
    }
    Ok(())
}

/// Whether the bytes from the first record of file 1 up to a place are decoded.
fn is_decoded(alloc: Global, station: &MemStation, end: usize) -> Result<bool, Fail> {
    let directory = two_circuits(alloc)?;
    let bytes = station
        .file(JournalFile::SECOND)
        .get(41..end)
        .unwrap_or(&[]);
    let decoded = decode(alloc, bytes, &directory);
    drop(directory);
    Ok(decoded?.is_some())
}

#[test]
fn a_checkpoint_that_stands_in_no_file_is_decoded(rt: HostRuntime) -> Result<(), Fail> {
    let (station, _) = one_written(&rt, 3)?;
    assert!(rt; is_decoded(rt.alloc(), &station, 146)?);
    assert!(rt; !is_decoded(rt.alloc(), &station, 145)?);
    drop(station);
    Ok(())
}
