ghost use Rattle.std.specs.Prelude.{◌≡◌, ◌+◌, ◌-◌, ◌*◌, ◌<◌, ◌≤◌, ◌^◌, length, take, flat_map, is_some, min, IsSome, IfOk, IfErr, IfSome, IfNone};
ghost use Rattle.gts_checkpoint.specs.Cited.{CanBegin, FindsText, FitsNeed, HasRead, IsDamage, IsReadFault, LooksAt, LooksAtOf, bytes_from, checkpoint_text, draw_size, first_of, held, is_sealed_front, seal, seal_size, unowed, waiting_of};
ghost use Rattle.gts_event.specs.Items as items;

use crate::heads::{FRONT, front_in};
use crate::lists::{bulletins_at, circuits_at};
use crate::pieces::fetch;
use crate::sound::is_sound;
use gts_directory::Directory;
use gts_event::{CircuitNeed, Need};
use gts_record::{OpenFault, Sealer, Version, first_seal};
use gts_traits::{Failed, JournalFile, Station};
use std::alloc::Global;

/// The place of the record behind the header and the first gate.
pub(crate) const FIRST_RECORD: u64 = 41;

/// How many bytes of a checkpoint are read at once for its seal.
const PIECE: usize = 4096;

/// The need whose checkpoint stands behind the header of a file, and the place behind it: whatever its numbers mean,
/// its bytes are those of a checkpoint for so many circuits.
pub(crate) fn need_at<P: Station>(
    alloc: Global,
    station: &mut P,
    file: JournalFile,
    circuits: u32,
) -> Result<Option<(Need, u64)>, OpenFault>
    requires few { circuits ≤ 64 }
    ensures found { P.observed → IfOk result (λ found. FindsText
        (bytes_from (P.calls station.old) file 41) circuits (first_of found)) }
    ensures fits { IfOk result (λ found. IfSome found (λ n. FitsNeed (items.need_of n.0))) }
    ensures unowed { IfOk result (λ found. IfSome found
        (λ n. unowed (items.need_of n.0) ≡ items.need_of n.0)) }
    ensures place { IfOk result (λ found. IfSome found
        (λ n. n.1 ≡ 41 + length (checkpoint_text (items.need_of n.0)))) }
    ensures looks { LooksAtOf P.Station OpenFault.DiskFault result station.old station.new }
    ensures kind { IfErr result IsReadFault }
{
    let mut bytes = [0u8; FRONT];
    if !fetch(station, file, FIRST_RECORD, &mut bytes)? {
        return Ok(None);
    }
    let Some(front) = front_in(&bytes) else {
        return Ok(None);
    };
    if front.circuits != circuits {
        return Ok(None);
    }
    let at = FIRST_RECORD + FRONT as u64;
    let Some((bulletins, at)) = bulletins_at(alloc, station, file, at, front.bulletins)? else {
        return Ok(None);
    };
    let Some((circuits, at)) = circuits_at(alloc, station, file, at, circuits)? else {
        return Ok(None);
    };
    Ok(Some((
        Need {
            accepted: front.accepted,
            bulletins,
            circuits,
        },
        at,
    )))
}

/// How many positions wait over all circuits, up to the greatest number.
pub(crate) fn waiting(circuits: &[CircuitNeed]) -> u64
    ensures { result ≡ min (length (flat_map waiting_of circuits.now)) (2 ^ 64 - 1) }
{
    let mut waiting: u64 = 0;
    for circuit in circuits {
        waiting = waiting.saturating_add(circuit.waiting.len());
    }
    waiting
}

/// The place of the gate behind a checkpoint that ends at a place, where a journal up to a limit has room for the gate and for so
/// many draws behind it.
pub(crate) fn gate_behind(version: Version, at: u64, due: u64, limit: u64) -> Option<u64>
    requires { limit ≤ 2 ^ 30 }
    ensures place { IfSome result (λ gate. gate ≡ at + seal_size version) }
    ensures room { IfSome result (λ gate. gate + 1 + draw_size version * due ≤ limit) }
    ensures none { IfNone result
        (limit < at + seal_size version + 1 + draw_size version * due) }
{
    let gate = at.saturating_add(version.seal_size() as u64);
    let draws = due.saturating_mul(version.draw_size());
    let behind = gate.saturating_add(1);
    if behind.saturating_add(draws) > limit {
        return None;
    }
    Some(gate)
}

/// The seal of the so many bytes that stand behind the header of a file, read piece by piece.
fn seal_of<P: Station>(
    station: &mut P,
    version: Version,
    before: &[u8; 32],
    file: JournalFile,
    size: u32,
) -> Result<Option<[u8; 32]>, Failed>
    requires size { size ≤ 2 ^ 30 }
    requires there { P.observed → size ≤ length (bytes_from (P.calls station.old) file 41) }
    ensures found { P.observed → IfOk result (λ found. IfSome found (λ last. held version last
        ≡ seal version (held version before.now)
        (take size (bytes_from (P.calls station.old) file 41)))) }
    ensures some { P.observed → IfOk result (λ found. IsSome found) }
    ensures looks { LooksAt P.Station result station.old station.new }
{
    let mut sealer = Sealer::new(version, before);
    let mut piece = [0u8; PIECE];
    let mut done: u32 = 0;
    while done < size {
        let count = (size - done).min(PIECE as u32);
        let part = &mut piece[..count as usize];
        if !fetch(station, file, FIRST_RECORD + u64::from(done), part)? {
            return Ok(None);
        }
        sealer.add(part);
        done += count;
    }
    Ok(Some(sealer.seal()))
}

/// The seal of the so many bytes that stand behind the header of a file, where it stands behind them.
fn seal_at<P: Station>(
    station: &mut P,
    version: Version,
    before: &[u8; 32],
    file: JournalFile,
    size: u32,
) -> Result<Option<[u8; 32]>, OpenFault>
    requires size { size ≤ 2 ^ 30 }
    requires there { P.observed → size ≤ length (bytes_from (P.calls station.old) file 41) }
    ensures found { P.observed → IfOk result (λ found. IfSome found (λ last. held version last
        ≡ seal version (held version before.now)
        (take size (bytes_from (P.calls station.old) file 41)))) }
    ensures stands { P.observed → IfOk result (λ found. is_some found
        ≡ is_sealed_front version (held version before.now)
        (bytes_from (P.calls station.old) file 41) size) }
    ensures looks { LooksAtOf P.Station OpenFault.DiskFault result station.old station.new }
    ensures kind { IfErr result IsReadFault }
{
    let Some(seal) = seal_of(station, version, before, file, size)? else {
        return Ok(None);
    };
    let count = version.seal_size();
    let mut room = [0u8; 32];
    let behind = &mut room[..count];
    if !fetch(station, file, FIRST_RECORD + u64::from(size), behind)? {
        return Ok(None);
    }
    if !behind.starts_with(&seal[..count]) {
        return Ok(None);
    }
    Ok(Some(seal))
}

/// Reads the checkpoint of a journal of this version, which stands behind the header and the first gate of a file, with its
/// seal, and answers the need, the place of the gate behind it, and the seal.
pub fn read<P: Station>(
    alloc: Global,
    station: &mut P,
    version: Version,
    file: JournalFile,
    directory: &Directory,
) -> Result<(Need, u64, [u8; 32]), OpenFault>
    ensures found { P.observed → IfOk result (λ found. HasRead version directory.now
        (bytes_from (P.calls station.old) file 41) (items.need_of found.0)
        (held version found.2)) }
    ensures begins { IfOk result
        (λ found. CanBegin version directory.now (items.need_of found.0) found.1) }

    // Damage is answered exactly where no checkpoint stands there with its seal that may be the first record.
    ensures fault { P.observed → IfErr result (IsDamage version directory.now file
        (bytes_from (P.calls station.old) file 41)) }
    ensures looks { LooksAtOf P.Station OpenFault.DiskFault result station.old station.new }
{
    let limit = directory.limit();
    let damage = OpenFault::Damaged {
        file: file.number(),
        at: FIRST_RECORD,
    };
    let Some((need, at)) = need_at(alloc, station, file, directory.circuits())? else {
        return Err(damage);
    };
    let due = waiting(need.circuits.as_slice());
    let Some(gate) = gate_behind(version, at, due, limit) else {
        return Err(damage);
    };
    if !is_sound(alloc, directory, &need)? {
        return Err(damage);
    }
    let before = first_seal(version, &directory.mark());
    let size = (at - FIRST_RECORD) as u32;
    let Some(seal) = seal_at(station, version, &before, file, size)? else {
        return Err(damage);
    };
    Ok((need, gate, seal))
}
