//! The pieces of a checkpoint, read from a place of a file on.
ghost use Rattle.std.specs.Prelude.{◌≡◌, ◌+◌, ◌*◌, ◌^◌, ◌<◌, ◌≤◌, true, false, length, IfOk, IfErr, IfSome, Ok, vec_len};
ghost use Rattle.gts_checkpoint.specs.Cited.{ArePlaces, BeginsWith, FindsBulletin, FindsBytes, FindsCircuit, FindsNumbers, FitsValueCircuit, IsReadFault, LONGEST_BODY as longest_body, LooksAt, LooksAtOf, bytes_from};

use crate::heads::{HEAD, bulletin_head_in, circuit_head_in};
use gts_event::{Bulletin, Bytes, CircuitNeed, Items, Places};
use gts_record::{OpenFault, number_in_eight};
use gts_traits::{Failed, JournalFile, Station};
use std::alloc::{AllocError, Global};

/// Reads as many bytes of a file as there is room for, from a place on: false where fewer are there.
pub(crate) fn fetch<P: Station>(
    station: &mut P,
    file: JournalFile,
    at: u64,
    into: &mut [u8],
) -> Result<bool, Failed>
    ensures whole { P.observed → result ≡ Ok true
        → BeginsWith (bytes_from (P.calls station.old) file at) into.new }
    ensures short { P.observed → result ≡ Ok false
        → length (bytes_from (P.calls station.old) file at) < length into.old }
    ensures looks { LooksAt P.Station result station.old station.new }
{
    let count = station.read(file, at, into)?;
    Ok(count == into.len())
}

// So many zero bytes.
fn zeros(alloc: Global, size: usize) -> Result<Vec<u8>, AllocError>
    ensures { IfOk result (λ bytes. vec_len bytes ≡ size) }
{
    vec![in alloc; 0u8; size]
}

// A body of so many bytes.
pub(crate) fn body_at<P: Station>(
    alloc: Global,
    station: &mut P,
    file: JournalFile,
    at: u64,
    size: u32,
) -> Result<Option<Bytes>, OpenFault>
    ensures found { P.observed → IfOk result
        (FindsBytes (bytes_from (P.calls station.old) file at) size) }
    ensures size { IfOk result (λ found. IfSome found (λ body. length body ≡ size)) }
    ensures looks { LooksAtOf P.Station OpenFault.DiskFault result station.old station.new }
    ensures kind { IfErr result IsReadFault }
{
    let mut body = zeros(alloc, size as usize)?;
    if fetch(station, file, at, &mut body)? {
        Ok(Some(Items::from_vec(body)))
    } else {
        Ok(None)
    }
}

/// The bulletin that stands in a file at a place, if one does whose body isn't too long.
pub(crate) fn bulletin_at<P: Station>(
    alloc: Global,
    station: &mut P,
    file: JournalFile,
    at: u64,
) -> Result<Option<Bulletin>, OpenFault>
    requires place { at < 2 ^ 62 }
    ensures found { P.observed → IfOk result
        (FindsBulletin (bytes_from (P.calls station.old) file at)) }
    ensures short { IfOk result (λ found. IfSome found (λ b. (b.position < 2 ^ 64)
        × (length b.body ≤ longest_body))) }
    ensures looks { LooksAtOf P.Station OpenFault.DiskFault result station.old station.new }
    ensures kind { IfErr result IsReadFault }
{
    let mut bytes = [0u8; HEAD];
    if !fetch(station, file, at, &mut bytes)? {
        return Ok(None);
    }
    let Some(head) = bulletin_head_in(&bytes) else {
        return Ok(None);
    };
    let Some(body) = body_at(alloc, station, file, at + HEAD as u64, head.size)? else {
        return Ok(None);
    };
    Ok(Some(Bulletin {
        position: head.position,
        from: u32::from(head.from),
        kind: head.kind,
        body,
    }))
}

/// So many positions, which stand in a file at a place.
fn positions_at<P: Station>(
    alloc: Global,
    station: &mut P,
    file: JournalFile,
    at: u64,
    count: u32,
) -> Result<Option<Places>, OpenFault>
    requires place { at < 2 ^ 62 }
    ensures found { P.observed → IfOk result
        (FindsNumbers (bytes_from (P.calls station.old) file at) count) }
    ensures size { IfOk result (λ found. IfSome found (λ ps. length ps ≡ count)) }
    ensures fits { IfOk result (λ found. IfSome found ArePlaces) }
    ensures looks { LooksAtOf P.Station OpenFault.DiskFault result station.old station.new }
    ensures kind { IfErr result IsReadFault }
{
    let mut places = Places::new();
    for i in 0..count {
        let mut bytes = [0u8; 8];
        if !fetch(station, file, at + 8 * u64::from(i), &mut bytes)? {
            return Ok(None);
        }
        places.push(alloc, number_in_eight(&bytes))?;
    }
    Ok(Some(places))
}

/// What is needed of a circuit, where it stands in a file at a place.
pub(crate) fn circuit_at<P: Station>(
    alloc: Global,
    station: &mut P,
    file: JournalFile,
    at: u64,
) -> Result<Option<CircuitNeed>, OpenFault>
    requires place { at < 2 ^ 61 }
    ensures found { P.observed → IfOk result
        (FindsCircuit (bytes_from (P.calls station.old) file at)) }
    ensures fits { IfOk result (λ found. IfSome found FitsValueCircuit) }
    ensures looks { LooksAtOf P.Station OpenFault.DiskFault result station.old station.new }
    ensures kind { IfErr result IsReadFault }
{
    let mut bytes = [0u8; HEAD];
    if !fetch(station, file, at, &mut bytes)? {
        return Ok(None);
    }
    let Some(head) = circuit_head_in(&bytes) else {
        return Ok(None);
    };
    let Some(waiting) = positions_at(alloc, station, file, at + HEAD as u64, head.waiting)? else {
        return Ok(None);
    };
    let behind = at + HEAD as u64 + 8 * u64::from(head.waiting);
    let Some(kept) = positions_at(alloc, station, file, behind, head.kept)? else {
        return Ok(None);
    };
    Ok(Some(CircuitNeed {
        draws: head.draws,
        waiting,
        kept,
        owed: Places::new(),
    }))
}
