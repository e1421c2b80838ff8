//! The records that a journal has are compared with those of a feed.
ghost use Rattle.std.specs.Prelude.{◌≡◌, ◌≤◌, ◌<◌, ◌^◌, ℕ, false, List, nat_eq, length, IfOk, IfErr, OnOk};
ghost use Rattle.gts_standby.specs.Cited.{AsksBoth, AsksFeed, ComparesAll, ComparesFirstOfAny, ComparesNext, ComparesRest, FindsPiece, GoesOn, HasRead, IsAtFirst, IsFedEnd, IsLater, IsNamedEnd, IsOwnEnd, IsWhole, KeepsOther, LooksAtOf, OnlySyncs, OwnGoesOn, StandsOn, StaysWhole, first_piece, held, is_other, pointwise, seals_here, written};

use crate::FollowEnd;
use crate::ahead::Ahead;
use crate::fed::fed_record;
use crate::passing::pass_next;
use crate::scanning::{fed_checkpoint, is_at_checkpoint};
use gts_checkpoint::read;
use gts_directory::Directory;
use gts_journal::{Journal, Version};
use gts_record::HEADER;
use gts_traits::{Source, Station};
use std::alloc::Global;

/// Whether two seals are the same.
pub(crate) fn is_same(version: Version, own: &[u8; 32], fed: &[u8; 32]) -> bool
    ensures { result ≡ pointwise nat_eq (held version own.now) (held version fed.now) }
{
    let count = version.seal_size();
    own[..count] == fed[..count]
}

/// Whether record 0 of a journal and of a feed were compared and differ.
pub(crate) fn is_other(end: FollowEnd) -> bool
    ensures { result ≡ is_other end }
{
    match end {
        FollowEnd::Diverged { index, .. } => index == 0,
        _ => false,
    }
}

/// Goes on behind the first record of a journal.
fn own_first<P: Station>(
    alloc: Global,
    station: &mut P,
    directory: &Directory,
    own: &mut Journal,
) -> Result<(), FollowEnd>
    requires going { own.old.ended ≡ false }
    requires begins { own.old.gate ≡ 40 }
    requires stands { P.observed → StandsOn (P.calls station.old) own.old }
    ensures on { P.observed → (end : ℕ) → IsAtFirst directory.now (P.calls station.old) own.old end
        → 40 < end → OwnGoesOn result directory.now (P.calls station.new) own.new end
        (seals_here directory.now (P.calls station.old) own.old) }
    ensures goes { OnOk result (GoesOn P.observed (P.calls station.new) own.old own.new) }
    ensures kind { IfErr result IsOwnEnd }
    ensures looks { LooksAtOf P.Station FollowEnd.DiskFault result station.old station.new }
    ensures named { IfErr result IsNamedEnd }
{
    if !own.at_checkpoint() {
        pass_next(station, own)?;
        return Ok(());
    }
    // A limit is low enough for the place of the gate.
    directory.bounds_hold();
    let file = own.file();
    let found = read(alloc, station, own.version(), file, directory)?;
    own.pass(found.1, found.2);
    Ok(())
}

/// The first record of a feed: its size with its seal, and that.
fn fed_first<S: Source>(
    source: &mut S,
    ahead: &mut Ahead,
    limit: u64,
    version: Version,
    before: &[u8; 32],
) -> Result<(usize, [u8; 32]), FollowEnd>
    requires { limit ≤ 2 ^ 30 }
    ensures piece { S.observed → (fed : List ℕ) → HasRead fed ahead.old (S.left source.old)
        → FindsPiece result version 40 (first_piece version limit (held version before.now) fed)
        fed ahead.new (S.left source.new) }
    ensures there { IfOk result (λ found. found.0 ≤ length ahead.new.bytes) }
    ensures size { IfOk result (λ found. found.0 ≤ 2 ^ 31) }
    ensures kind { IfErr result IsFedEnd }
    ensures cause { AsksFeed S.Source result source.old source.new }
{
    if is_at_checkpoint(source, ahead)? {
        fed_checkpoint(source, ahead, limit, version, before)
    } else {
        fed_record(source, ahead, version, before, HEADER as u64)
    }
}

/// Compares the first record of a feed with the journal's, and answers its size.
fn compare_first<P: Station, S: Source>(
    alloc: Global,
    station: &mut P,
    directory: &Directory,
    own: &mut Journal,
    source: &mut S,
    ahead: &mut Ahead,
) -> Result<usize, FollowEnd>
    requires current { own.old.version ≡ written }
    requires going { own.old.ended ≡ false }
    requires begins { own.old.gate ≡ 40 }
    requires stands { P.observed → StandsOn (P.calls station.old) own.old }
    ensures compared { P.observed → S.observed → ComparesFirstOfAny result directory.now
        (P.calls station.old) own.old ahead.old (S.left source.old) (P.calls station.new) own.new
        ahead.new (S.left source.new) }
    ensures kept { S.observed → (fed : List ℕ) → HasRead fed ahead.old (S.left source.old)
        → KeepsOther result fed ahead.new (S.left source.new) }
    ensures size { IfOk result (λ size. size ≤ 2 ^ 31) }
    ensures goes { OnOk result (GoesOn P.observed (P.calls station.new) own.old own.new) }
    ensures told { P.observed → P.calls station.new ≡ P.calls station.old }
    ensures cause { AsksBoth P.Station S.Source result station.old station.new
        source.old source.new }
    ensures whole { S.observed → IsWhole ahead.old (S.left source.old)
        → StaysWhole result ahead.new (S.left source.new) }
    ensures named { IfErr result IsNamedEnd }
{
    let version = own.version();
    let before = own.seal();
    let limit = directory.limit();
    let (size, fed) = fed_first(source, ahead, limit, version, &before)?;
    own_first(alloc, station, directory, own)?;
    let seal = own.seal();
    if !is_same(version, &seal, &fed) {
        return Err(FollowEnd::Diverged {
            index: 0,
            own: seal,
            fed,
        });
    }
    ahead.pass(size);
    Ok(size)
}

/// Compares a further record of a feed with the journal's, and answers its size.
fn compare_next<P: Station, S: Source>(
    station: &mut P,
    own: &mut Journal,
    source: &mut S,
    ahead: &mut Ahead,
    index: u64,
    at: u64,
) -> Result<usize, FollowEnd>
    requires current { own.old.version ≡ written }
    requires going { own.old.ended ≡ false }
    requires room { own.old.gate < 2 ^ 40 }
    requires stands { P.observed → StandsOn (P.calls station.old) own.old }
    ensures compared { P.observed → S.observed → ComparesNext result index at (P.calls station.old)
        own.old ahead.old (S.left source.old) (P.calls station.new) own.new ahead.new
        (S.left source.new) }
    ensures later { 1 ≤ index → IsLater result }
    ensures size { IfOk result (λ size. size ≤ 2 ^ 20) }
    ensures goes { OnOk result (GoesOn P.observed (P.calls station.new) own.old own.new) }
    ensures told { P.observed → P.calls station.new ≡ P.calls station.old }
    ensures cause { AsksBoth P.Station S.Source result station.old station.new
        source.old source.new }
    ensures whole { S.observed → IsWhole ahead.old (S.left source.old)
        → StaysWhole result ahead.new (S.left source.new) }
    ensures named { IfErr result IsNamedEnd }
{
    let version = own.version();
    let before = own.seal();
    let (size, fed) = fed_record(source, ahead, version, &before, at)?;
    pass_next(station, own)?;
    let seal = own.seal();
    if !is_same(version, &seal, &fed) {
        return Err(FollowEnd::Diverged {
            index,
            own: seal,
            fed,
        });
    }
    ahead.pass(size);
    Ok(size)
}

/// Compares the further records of a journal, up to the gate at a place, with those of a feed from a place on, and answers the
/// place in the feed behind them.
fn compare_rest<P: Station, S: Source>(
    station: &mut P,
    own: &mut Journal,
    end: u64,
    source: &mut S,
    ahead: &mut Ahead,
    at: u64,
) -> Result<u64, FollowEnd>
    requires current { own.old.version ≡ written }
    requires going { own.old.ended ≡ false }
    requires room { end ≤ 2 ^ 30 }
    requires place { at ≤ 2 ^ 32 }
    requires stands { P.observed → StandsOn (P.calls station.old) own.old }
    ensures compared { P.observed → S.observed → ComparesRest result at end
        (P.calls station.old) own.old
        ahead.old (S.left source.old) ahead.new (S.left source.new) }
    ensures later { IsLater result }
    ensures told { P.observed → P.calls station.new ≡ P.calls station.old }
    ensures place { IfOk result (λ at. at ≤ 2 ^ 62) }
    ensures cause { AsksBoth P.Station S.Source result station.old station.new
        source.old source.new }
    ensures whole { S.observed → IsWhole ahead.old (S.left source.old)
        → StaysWhole result ahead.new (S.left source.new) }
    ensures named { IfErr result IsNamedEnd }
{
    let mut index = 1;
    let mut at = at;
    while own.used() < end {
        let size = compare_next(station, own, source, ahead, index, at)?;
        at += size as u64;
        index += 1;
    }
    Ok(at)
}

/// Compares all records of a journal, which come to a gate at a place, with those of a feed, and answers the place in the feed
/// behind them.
pub(crate) fn compare<P: Station, S: Source>(
    alloc: Global,
    station: &mut P,
    directory: &Directory,
    end: u64,
    source: &mut S,
    ahead: &mut Ahead,
) -> Result<u64, FollowEnd>
    requires some { 40 < end }
    requires room { end ≤ 2 ^ 30 }
    ensures compared { P.observed → S.observed → ComparesAll result directory.now end
        (P.calls station.old) ahead.old (S.left source.old) ahead.new (S.left source.new) }
    ensures kept { S.observed → (fed : List ℕ) → HasRead fed ahead.old (S.left source.old)
        → KeepsOther result fed ahead.new (S.left source.new) }
    ensures told { P.observed → OnlySyncs (P.calls station.old) (P.calls station.new) }
    ensures place { IfOk result (λ at. at ≤ 2 ^ 62) }
    ensures cause { AsksBoth P.Station S.Source result station.old station.new
        source.old source.new }
    ensures whole { S.observed → IsWhole ahead.old (S.left source.old)
        → StaysWhole result ahead.new (S.left source.new) }
    ensures named { IfErr result IsNamedEnd }
{
    // A limit is low enough for what a checkpoint takes.
    directory.bounds_hold();
    let mut own = Journal::start(alloc, station, directory.mark())?;
    let size = compare_first(alloc, station, directory, &mut own, source, ahead)?;
    let at = HEADER as u64 + size as u64;
    compare_rest(station, &mut own, end, source, ahead, at)
}
