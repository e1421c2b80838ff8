ghost use Rattle.std.specs.Prelude.{◌≡◌, ◌+◌, ◌^◌, ◌<◌, ◌≤◌, [], ◌∷◌, ◌++◌, length, flat_map, IfOk, OnOk, IsErrOf};
ghost use Rattle.gts_checkpoint.specs.Cited.{AllByRecursion, AsksDisk, AsksDiskOf, CanPutBulletin, CanPutCircuit, FitBytes, HasPut, HasWritten, OnlyOn, Seals, Stands, WorksBeside, bytes_of, checkpoint_text, closed_gate, compacted_bytes, count_of, first_seal, header_text, held, need_seal, seal, sealed, seen, written, written_bulletin, written_circuit};
ghost use Rattle.gts_event.specs.Items as items;

use crate::fault::WriteFault;
use crate::heads::{before_body, before_positions, head};
use crate::writer::SealingWriter;
use gts_event::{Bulletin, CircuitNeed, Need};
use gts_record::{HEADER, Sealer, Version, eight_bytes, first_seal};
use gts_traits::{Failed, JournalFile, Station};
use std::alloc::Global;

/// Where a checkpoint begins: behind the header and an open gate.
const BEGIN: u64 = HEADER as u64 + 1;

/// An open gate.
const OPEN: u8 = 0x4f;

/// A closed gate, as it is written.
const CLOSED: u8 = 0x43;

/// What stands in front of a checkpoint: the magic, the mark and an open gate.
fn header(mark: [u8; 32]) -> [u8; 41]
    ensures { result ≡ header_text mark }
{
    let mut text = [OPEN; 41];
    text[..8].copy_from_slice(&Version::written().magic());
    text[8..40].copy_from_slice(&mark);
    text
}

/// Puts a bulletin.
fn put_bulletin<P: Station>(
    writer: &mut SealingWriter,
    station: &mut P,
    bulletin: &Bulletin,
) -> Result<(), Failed>
    requires from { bulletin.now.from < 256 }
    requires short { length bulletin.now.body < 2 ^ 32 }
    requires room { count_of writer.old + length (written_bulletin bulletin.now) ≤ 2 ^ 40 }
    requires stands { P.observed → Stands (P.calls station.old) writer.old }
    ensures put { OnOk result (HasPut P.observed (written_bulletin bulletin.now)
        (P.calls station.old) writer.old (P.calls station.new) writer.new) }
    ensures alone { P.observed → OnlyOn writer.old.file (P.calls station.old)
        (P.calls station.new) }
    ensures cause { AsksDisk P.Station result station.old station.new }
{
    let body = bulletin.body.as_slice();
    let from = bulletin.from as u8;
    let text = before_body(bulletin.position, from, bulletin.kind, body.len() as u32);
    writer.put(station, &text)?;
    writer.put(station, body)
}

/// Puts bulletins.
fn put_bulletins<P: Station>(
    writer: &mut SealingWriter,
    station: &mut P,
    bulletins: &[Bulletin],
) -> Result<(), Failed>
    requires from { AllByRecursion CanPutBulletin bulletins.now }
    requires room { count_of writer.old + length
        (flat_map written_bulletin bulletins.now) ≤ 2 ^ 40 }
    requires stands { P.observed → Stands (P.calls station.old) writer.old }
    ensures put { OnOk result (HasPut P.observed (flat_map written_bulletin bulletins.now)
        (P.calls station.old) writer.old (P.calls station.new) writer.new) }
    ensures alone { P.observed → OnlyOn writer.old.file (P.calls station.old)
        (P.calls station.new) }
    ensures cause { AsksDisk P.Station result station.old station.new }
{
    for bulletin in bulletins {
        put_bulletin(writer, station, bulletin)?;
    }
    Ok(())
}

/// Puts positions.
fn put_positions<P: Station>(
    writer: &mut SealingWriter,
    station: &mut P,
    positions: &[u64],
) -> Result<(), Failed>
    requires room { count_of writer.old + length (flat_map (bytes_of 8) positions.now) ≤ 2 ^ 40 }
    requires stands { P.observed → Stands (P.calls station.old) writer.old }
    ensures put { OnOk result (HasPut P.observed (flat_map (bytes_of 8) positions.now)
        (P.calls station.old) writer.old (P.calls station.new) writer.new) }
    ensures alone { P.observed → OnlyOn writer.old.file (P.calls station.old)
        (P.calls station.new) }
    ensures cause { AsksDisk P.Station result station.old station.new }
{
    for position in positions {
        writer.put(station, &eight_bytes(*position))?;
    }
    Ok(())
}

/// Puts what is needed of a circuit.
fn put_circuit<P: Station>(
    writer: &mut SealingWriter,
    station: &mut P,
    circuit: &CircuitNeed,
) -> Result<(), Failed>
    requires waiting { length circuit.now.waiting < 2 ^ 32 }
    requires kept { length circuit.now.kept < 2 ^ 32 }
    requires room { count_of writer.old + length (written_circuit circuit.now) ≤ 2 ^ 40 }
    requires stands { P.observed → Stands (P.calls station.old) writer.old }
    ensures put { OnOk result (HasPut P.observed (written_circuit circuit.now)
        (P.calls station.old) writer.old (P.calls station.new) writer.new) }
    ensures alone { P.observed → OnlyOn writer.old.file (P.calls station.old)
        (P.calls station.new) }
    ensures cause { AsksDisk P.Station result station.old station.new }
{
    let waiting = circuit.waiting.as_slice();
    let kept = circuit.kept.as_slice();
    let text = before_positions(circuit.draws, waiting.len() as u32, kept.len() as u32);
    writer.put(station, &text)?;
    put_positions(writer, station, waiting)?;
    put_positions(writer, station, kept)
}

/// Puts what is needed of circuits.
fn put_circuits<P: Station>(
    writer: &mut SealingWriter,
    station: &mut P,
    circuits: &[CircuitNeed],
) -> Result<(), Failed>
    requires few { AllByRecursion CanPutCircuit circuits.now }
    requires room { count_of writer.old + length (flat_map written_circuit circuits.now) ≤ 2 ^ 40 }
    requires stands { P.observed → Stands (P.calls station.old) writer.old }
    ensures put { OnOk result (HasPut P.observed (flat_map written_circuit circuits.now)
        (P.calls station.old) writer.old (P.calls station.new) writer.new) }
    ensures alone { P.observed → OnlyOn writer.old.file (P.calls station.old)
        (P.calls station.new) }
    ensures cause { AsksDisk P.Station result station.old station.new }
{
    for circuit in circuits {
        put_circuit(writer, station, circuit)?;
    }
    Ok(())
}

/// Puts the checkpoint of a need.
fn put_need<P: Station>(
    writer: &mut SealingWriter,
    station: &mut P,
    need: &Need,
) -> Result<(), Failed>
    requires fits { FitBytes (items.need_of need.now) }
    requires small { length (checkpoint_text (items.need_of need.now)) ≤ 2 ^ 30 }
    requires room { count_of writer.old + length (checkpoint_text
        (items.need_of need.now)) ≤ 2 ^ 40 }
    requires stands { P.observed → Stands (P.calls station.old) writer.old }
    ensures put { OnOk result (HasPut P.observed (checkpoint_text (items.need_of need.now))
        (P.calls station.old) writer.old (P.calls station.new) writer.new) }
    ensures alone { P.observed → OnlyOn writer.old.file (P.calls station.old)
        (P.calls station.new) }
    ensures cause { AsksDisk P.Station result station.old station.new }
{
    let circuits = need.circuits.as_slice();
    let bulletins = need.bulletins.as_slice();
    let text = head(circuits.len() as u32, need.accepted, bulletins.len() as u32);
    writer.put(station, &text)?;
    put_bulletins(writer, station, bulletins)?;
    put_circuits(writer, station, circuits)
}

/// Puts the checkpoint of a need, its seal and a closed gate, and writes all of it; answers the seal.
fn put_all<P: Station>(
    writer: &mut SealingWriter,
    station: &mut P,
    before: &[u8; 32],
    need: &Need,
) -> Result<[u8; 32], Failed>
    requires begins { (writer.old.place ≡ 41) × (writer.old.held ≡ []) }
    requires seals { Seals writer.old.sealer written (held written before.now) [] }
    requires fits { FitBytes (items.need_of need.now) }
    requires room { compacted_bytes written (items.need_of need.now) ≤ 2 ^ 30 }
    requires stands { P.observed → Stands (P.calls station.old) writer.old }
    ensures written { P.observed → OnOk result (seen (P.calls station.new) writer.old.file
        ≡ seen (P.calls station.old) writer.old.file ++ (sealed written (held written before.now)
        (checkpoint_text (items.need_of need.now)) ++ closed_gate ∷ [])) }
    ensures seal { IfOk result (λ last. held written last ≡ seal written (held written before.now)
        (checkpoint_text (items.need_of need.now))) }
    ensures alone { P.observed → OnlyOn writer.old.file (P.calls station.old)
        (P.calls station.new) }
    ensures cause { AsksDisk P.Station result station.old station.new }
{
    put_need(writer, station, need)?;
    let seal = writer.take_seal();
    let count = Version::written().seal_size();
    writer.put(station, &seal[..count])?;
    writer.put(station, &[CLOSED])?;
    writer.flush(station)?;
    Ok(seal)
}

/// Cuts the file to nothing and syncs, writes it and syncs; answers the checkpoint's seal.
fn write_with<P: Station>(
    writer: &mut SealingWriter,
    station: &mut P,
    file: JournalFile,
    mark: [u8; 32],
    before: &[u8; 32],
    need: &Need,
) -> Result<[u8; 32], Failed>
    requires begins { (writer.old.file ≡ file) × (writer.old.place ≡ 41) × (writer.old.held ≡ []) }
    requires seals { Seals writer.old.sealer written (held written before.now) [] }
    requires first { held written before.now ≡ first_seal written mark }
    requires fits { FitBytes (items.need_of need.now) }
    requires room { compacted_bytes written (items.need_of need.now) ≤ 2 ^ 30 }
    ensures written { P.observed → OnOk result (HasWritten mark (items.need_of need.now) file
        (P.calls station.new)) }
    ensures seal { IfOk result
        (λ last. held written last ≡ need_seal mark (items.need_of need.now)) }
    ensures alone { P.observed → OnlyOn file (P.calls station.old) (P.calls station.new) }
    ensures cause { AsksDisk P.Station result station.old station.new }
{
    station.cut(file, 0)?;
    station.sync()?;
    let front = header(mark);
    station.write_at(file, 0, &front)?;
    let seal = put_all(writer, station, before, need)?;
    station.sync()?;
    Ok(seal)
}

/// Writes the checkpoint of a need to a file, which is then a journal of its own: the file is cut to nothing and synced, and
/// then written and synced. Answers the checkpoint's seal. All memory is taken first.
pub fn write<P: Station>(
    alloc: Global,
    station: &mut P,
    file: JournalFile,
    mark: [u8; 32],
    need: &Need,
) -> Result<[u8; 32], WriteFault>
    requires fits { FitBytes (items.need_of need.now) }
    requires room { compacted_bytes written (items.need_of need.now) ≤ 2 ^ 30 }
    ensures written { P.observed → OnOk result (HasWritten mark (items.need_of need.now) file
        (P.calls station.new)) }
    ensures seal { IfOk result
        (λ last. held written last ≡ need_seal mark (items.need_of need.now)) }
    // A crash at any moment leaves the other files as they were, and so does a fault.
    ensures beside { P.observed → WorksBeside file (P.calls station.old) (P.calls station.new) }
    ensures no_memory { IsErrOf result WriteFault.NoMemory → station.new ≡ station.old }
    ensures cause { AsksDiskOf P.Station WriteFault.DiskFault result station.old station.new }
{
    let version = Version::written();
    let before = first_seal(version, &mark);
    let sealer = Sealer::new(version, &before);
    let mut writer = SealingWriter::new(alloc, file, BEGIN, sealer)?;
    let seal = write_with(&mut writer, station, file, mark, &before, need)?;
    Ok(seal)
}
