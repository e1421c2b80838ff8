//! The numbers of a need: those with nothing counted, to which its bulletins and its kept draws come one after another.
ghost use Rattle.std.specs.Prelude.{◌≡◌, ◌<◌, ◌≤◌, ◌++◌, [], ◌∷◌, List, IfOk, OnOk, IsSome, is_ok, length, map, replicate, IsTrue};
ghost use Rattle.gts_count.specs.Cited.{All, AreBodies, Begins, Counts, Entry, HasEachRow, HasKeys, HasRings, IsRing, IsSound, NotesAll, NotesDraws, NotesKept, NotesStart, StandsAt, Starts, body_at, buffer, bulletin_of, circuit_need_of, get, is_bulletin, is_sound, nat_cmp, need_of};
ghost use Rattle.gts_event.specs.State as states;

use crate::counting::key_in;
use crate::{Counting, Numbers, Recent};
use circular_buffer::HeapCircularBuffer;
use gts_alphabet::NoMemory;
use gts_directory::Directory;
use gts_event::{Bulletin, CircuitNeed, Need, is_recent};
use std::alloc::Global;
use std::collections::{BTreeMap, HashMap};

/// The digits of the numbers of each circuit.
pub fn digits_of(alloc: Global, directory: &Directory) -> Result<Vec<u32>, NoMemory>
    ensures { IfOk result (λ digits. digits.items
        ≡ map (λ row. row.digits) directory.now.circuits) }
{
    let mut digits = Vec::new(alloc);
    for c in 0..directory.circuits() {
        digits.push(directory.circuit(c).digits)?;
    }
    Ok(digits)
}

/// A ring for the kept draws of each circuit.
fn no_draws(
    alloc: Global,
    directory: &Directory,
) -> Result<Vec<HeapCircularBuffer<[u8; 11]>>, NoMemory>
    ensures rings { IfOk result (λ rings. rings.items
        ≡ map (λ row. buffer [] row.kept) directory.now.circuits) }
    ensures sound { IfOk result (λ rings. All IsRing rings.items) }
{
    let mut rings = Vec::new(alloc);
    for c in 0..directory.circuits() {
        let kept = directory.circuit(c).kept;
        rings.push(HeapCircularBuffer::with_capacity(alloc, kept as usize)?)?;
    }
    Ok(rings)
}

/// No bulletin came in on any circuit.
fn none_came(alloc: Global, circuits: u32) -> Result<Vec<u64>, NoMemory>
    ensures { IfOk result (λ came. came.items ≡ replicate circuits 0) }
{
    let mut came = Vec::new(alloc);
    for _ in 0..circuits {
        came.push(0)?;
    }
    Ok(came)
}

/// Nothing is counted yet.
fn nothing(alloc: Global, directory: &Directory) -> Result<Numbers, NoMemory>
    ensures { IfOk result (Begins directory.now) }
{
    let window = directory.window();
    let circuits = directory.circuits();
    Ok(Numbers {
        recent: HeapCircularBuffer::with_capacity(alloc, window as usize)?,
        drawn: no_draws(alloc, directory)?,
        rows: HashMap::new(alloc),
        came: none_came(alloc, circuits)?,
    })
}

/// Notes a bulletin of a need: its key gets a row, and where it is recent it joins the window.
fn note_bulletin(
    numbers: &mut Numbers,
    directory: &Directory,
    accepted: u64,
    bulletin: &Bulletin,
) -> Result<(), NoMemory>
    requires sound { IsSound numbers.old }
    requires circuits { length numbers.old.came.items ≡ length directory.now.circuits }
    requires bulletin { IsTrue (is_bulletin directory.now accepted (bulletin_of bulletin.now)) }
    ensures notes { OnOk result (NotesStart directory.now accepted (bulletin_of bulletin.now)
        numbers.old numbers.new) }
{
    let body = bulletin.body.as_slice();
    let key = key_in(body, 0);
    numbers.prepare(key)?;
    if is_recent(directory, accepted, bulletin.position) {
        numbers.note_accepted(Recent {
            position: bulletin.position,
            key,
            from: bulletin.from,
            bytes: body.len() as u32,
        });
    }
    Ok(())
}

/// Notes the bulletins of a need, one after another.
fn note_bulletins(
    numbers: &mut Numbers,
    directory: &Directory,
    accepted: u64,
    bulletins: &[Bulletin],
) -> Result<(), NoMemory>
    requires rings { HasRings directory.now numbers.old }
    requires empty { numbers.old.recent.items ≡ [] }
    requires bulletins { All (λ b. IsTrue (is_bulletin directory.now accepted (bulletin_of b)))
        bulletins.now }
    ensures { OnOk result (NotesAll directory.now accepted (map bulletin_of bulletins.now)
        numbers.old numbers.new) }
{
    for bulletin in bulletins {
        note_bulletin(numbers, directory, accepted, bulletin)?;
    }
    Ok(())
}

/// Notes the key of a bulletin under its position, unless that has one.
fn add_key(keys: &mut BTreeMap<u64, [u8; 11]>, bulletin: &Bulletin) -> Result<(), NoMemory>
    requires { IsTrue (is_ok (body_at bulletin.now.body)) }
    ensures { OnOk result ((bulletins : List states.Bulletin) → HasKeys bulletins keys.old
        → HasKeys (bulletins ++ bulletin_of bulletin.now ∷ []) keys.new) }
{
    if keys.contains_key(&bulletin.position) {
        return Ok(());
    }
    keys.insert(bulletin.position, key_in(bulletin.body.as_slice(), 0))?;
    Ok(())
}

/// The keys of bulletins by their positions.
fn keys_of(alloc: Global, bulletins: &[Bulletin]) -> Result<BTreeMap<u64, [u8; 11]>, NoMemory>
    requires { AreBodies (map bulletin_of bulletins.now) }
    ensures { IfOk result (HasKeys (map bulletin_of bulletins.now)) }
{
    let mut keys = BTreeMap::new(alloc);
    for bulletin in bulletins {
        add_key(&mut keys, bulletin)?;
    }
    Ok(keys)
}

/// Notes the kept draws of a circuit, by the keys of their positions. Takes no memory.
fn note_kept(numbers: &mut Numbers, c: u32, kept: &[u64], keys: &BTreeMap<u64, [u8; 11]>)
    requires sound { IsSound numbers.old }
    requires circuit { c < length numbers.old.drawn.items }
    requires rows { HasEachRow keys.now numbers.old }
    requires known { All (λ p. IsSome (get nat_cmp keys.now p)) kept.now }
    ensures { NotesKept keys.now c kept.now numbers.old numbers.new }
{
    for position in kept {
        if let Some(key) = keys.get(position) {
            numbers.note_drawn(c, *key);
        }
    }
}

/// Notes the kept draws of all circuits. Takes no memory.
fn note_draws(numbers: &mut Numbers, circuits: &[CircuitNeed], keys: &BTreeMap<u64, [u8; 11]>)
    requires sound { IsSound numbers.old }
    requires circuits { length circuits.now ≡ length numbers.old.drawn.items }
    requires rows { HasEachRow keys.now numbers.old }
    requires known { All (λ c. All (λ p. IsSome (get nat_cmp keys.now p)) c.kept) circuits.now }
    ensures { NotesDraws keys.now (map circuit_need_of circuits.now) numbers.old numbers.new }
{
    let count = circuits.len();
    for c in 0..count {
        note_kept(numbers, c as u32, circuits[c].kept.as_slice(), keys);
    }
}

/// The numbers of a need. `NoMemory` where there is none for them.
pub fn numbers_of(alloc: Global, directory: &Directory, need: &Need) -> Result<Numbers, NoMemory>
    requires { IsTrue (is_sound directory.now (need_of need.now)) }
    ensures { IfOk result (Starts directory.now (need_of need.now)) }
{
    let bulletins = need.bulletins.as_slice();
    let circuits = need.circuits.as_slice();
    let mut numbers = nothing(alloc, directory)?;
    note_bulletins(&mut numbers, directory, need.accepted, bulletins)?;
    let keys = keys_of(alloc, bulletins)?;
    note_draws(&mut numbers, circuits, &keys);
    Ok(numbers)
}

/// What is kept beside a switch that stands for a need.
pub fn counting_of(alloc: Global, directory: &Directory, need: &Need) -> Result<Counting, NoMemory>
    requires { IsTrue (is_sound directory.now (need_of need.now)) }
    ensures sound { IfOk result (λ c. IsSound c.numbers) }
    ensures counts { IfOk result (λ c. (s : states.State) (h : List Entry)
        → StandsAt directory.now s (need_of need.now) → Counts directory.now s h c) }
{
    let numbers = numbers_of(alloc, directory, need)?;
    let digits = digits_of(alloc, directory)?;
    Ok(Counting {
        centre: directory.centre(),
        digits,
        numbers,
        current: true,
    })
}
