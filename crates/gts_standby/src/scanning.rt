//! The checkpoint at the front of a feed's records: how long it is, and its seal.
ghost use Rattle.std.specs.Prelude.{◌≡◌, ◌≤◌, ◌<◌, ◌^◌, ℕ, List, length, IfOk, IfErr};
ghost use Rattle.gts_standby.specs.Cited.{AsksFeed, FindsPiece, HasRead, IsFedEnd, IsReadEnd, held, seal_size};
ghost use Rattle.gts_standby.specs.Reading.{Reaches};
ghost use Rattle.gts_standby.specs.Taking as feeds;

use crate::FollowEnd;
use crate::ahead::Ahead;
use gts_checkpoint::{FRONT, HEAD, Listed, front_counts, listed_size};
use gts_journal::Version;
use gts_record::HEADER;
use gts_traits::Source;

/// The end of a feed whose first record may not stand there.
const BAD: FollowEnd = FollowEnd::Feed { at: HEADER as u64 };

/// The place behind so many bytes of a checkpoint. It is no longer than a limit.
fn reach<S: Source>(
    source: &mut S,
    ahead: &mut Ahead,
    limit: usize,
    at: usize,
    size: usize,
) -> Result<usize, FollowEnd>
    requires limit { limit ≤ 2 ^ 30 }
    requires place { at ≤ limit }
    requires size { size ≤ 2 ^ 40 }
    ensures reached { S.observed → (fed : List ℕ) → HasRead fed ahead.old (S.left source.old)
        → Reaches result (feeds.reach limit fed at size) fed ahead.new (S.left source.new) }
    ensures there { IfOk result (λ behind. (behind ≤ length ahead.new.bytes) × (behind ≤ limit)) }
    ensures kind { IfErr result IsFedEnd }
    ensures cause { AsksFeed S.Source result source.old source.new }
{
    let behind = at + size;
    if behind > limit {
        return Err(BAD);
    }
    ahead.fill(source, behind)?;
    if ahead.bytes().len() < behind {
        return Err(FollowEnd::Done);
    }
    Ok(behind)
}

/// The place behind a bulletin or a circuit.
fn behind_one<S: Source>(
    source: &mut S,
    ahead: &mut Ahead,
    limit: usize,
    listed: Listed,
    at: usize,
) -> Result<usize, FollowEnd>
    requires limit { limit ≤ 2 ^ 30 }
    requires place { at ≤ limit }
    ensures reached { S.observed → (fed : List ℕ) → HasRead fed ahead.old (S.left source.old)
        → Reaches result (feeds.behind_one listed limit fed at) fed ahead.new (S.left source.new) }
    ensures there { IfOk result (λ behind. (behind ≤ length ahead.new.bytes) × (behind ≤ limit)) }
    ensures kind { IfErr result IsFedEnd }
    ensures cause { AsksFeed S.Source result source.old source.new }
{
    ahead.fill(source, at + HEAD)?;
    match listed_size(listed, ahead.bytes_from(at)) {
        Some(size) => reach(source, ahead, limit, at, size),
        None => Err(BAD),
    }
}

/// The place behind so many bulletins or circuits.
fn behind_all<S: Source>(
    source: &mut S,
    ahead: &mut Ahead,
    limit: usize,
    listed: Listed,
    at: usize,
    count: u32,
) -> Result<usize, FollowEnd>
    requires limit { limit ≤ 2 ^ 30 }
    requires place { at ≤ limit }
    requires begins { at ≤ length ahead.old.bytes }
    ensures reached { S.observed → (fed : List ℕ) → HasRead fed ahead.old (S.left source.old)
        → Reaches result (feeds.behind_all (feeds.behind_one listed limit fed) count at)
        fed ahead.new (S.left source.new) }
    ensures there { IfOk result (λ behind. (behind ≤ length ahead.new.bytes) × (behind ≤ limit)) }
    ensures kind { IfErr result IsFedEnd }
    ensures cause { AsksFeed S.Source result source.old source.new }
{
    let mut at = at;
    let mut left = count;
    while left > 0 {
        at = behind_one(source, ahead, limit, listed, at)?;
        left -= 1;
    }
    Ok(at)
}

/// The place behind a checkpoint of so many circuits and bulletins.
fn behind_lists<S: Source>(
    source: &mut S,
    ahead: &mut Ahead,
    limit: usize,
    circuits: u32,
    bulletins: u32,
) -> Result<usize, FollowEnd>
    requires limit { limit ≤ 2 ^ 30 }
    ensures reached { S.observed → (fed : List ℕ) → HasRead fed ahead.old (S.left source.old)
        → Reaches result (feeds.behind_counted limit fed bulletins circuits)
        fed ahead.new (S.left source.new) }
    ensures there { IfOk result (λ behind. (behind ≤ length ahead.new.bytes) × (behind ≤ limit)) }
    ensures kind { IfErr result IsFedEnd }
    ensures cause { AsksFeed S.Source result source.old source.new }
{
    let front = reach(source, ahead, limit, 0, FRONT)?;
    let at = behind_all(source, ahead, limit, Listed::Bulletin, front, bulletins)?;
    behind_all(source, ahead, limit, Listed::Circuit, at, circuits)
}

/// How many bytes the checkpoint has that stands at the front.
fn scan<S: Source>(source: &mut S, ahead: &mut Ahead, limit: usize) -> Result<usize, FollowEnd>
    requires limit { limit ≤ 2 ^ 30 }
    ensures reached { S.observed → (fed : List ℕ) → HasRead fed ahead.old (S.left source.old)
        → Reaches result (feeds.behind_checkpoint limit fed) fed ahead.new (S.left source.new) }
    ensures there { IfOk result (λ behind. (behind ≤ length ahead.new.bytes) × (behind ≤ limit)) }
    ensures kind { IfErr result IsFedEnd }
    ensures cause { AsksFeed S.Source result source.old source.new }
{
    ahead.fill(source, FRONT)?;
    match front_counts(ahead.bytes()) {
        Some((circuits, bulletins)) => behind_lists(source, ahead, limit, circuits, bulletins),
        None => Err(BAD),
    }
}

/// The size of the checkpoint with its seal that stands at the front of a feed's records, and that seal, where another stands
/// before it.
pub(crate) fn fed_checkpoint<S: Source>(
    source: &mut S,
    ahead: &mut Ahead,
    limit: u64,
    version: Version,
    before: &[u8; 32],
) -> Result<(usize, [u8; 32]), FollowEnd>
    requires { limit ≤ 2 ^ 30 }
    ensures piece { S.observed → (fed : List ℕ) → HasRead fed ahead.old (S.left source.old)
        → FindsPiece result version 40 (feeds.checkpoint_piece version limit
        (held version before.now) fed) fed ahead.new (S.left source.new) }
    ensures there { IfOk result (λ found. found.0 ≤ length ahead.new.bytes) }
    ensures with_seal { IfOk result (λ found. seal_size version ≤ found.0) }
    ensures size { IfOk result (λ found. found.0 ≤ 2 ^ 31) }
    ensures kind { IfErr result IsFedEnd }
    ensures cause { AsksFeed S.Source result source.old source.new }
{
    let size = scan(source, ahead, limit as usize)?;
    let count = version.seal_size();
    ahead.fill(source, size + count)?;
    let bytes = ahead.bytes();
    if bytes.len() < size + count {
        return Err(FollowEnd::Done);
    }
    let (text, behind) = bytes.split_at(size);
    let seal = version.seal(before, text);
    if !behind.starts_with(&seal[..count]) {
        return Err(BAD);
    }
    Ok((size + count, seal))
}

/// Whether a checkpoint may stand at the front of a feed's records, by their first byte.
pub(crate) fn is_at_checkpoint<S: Source>(
    source: &mut S,
    ahead: &mut Ahead,
) -> Result<bool, FollowEnd>
    ensures first { S.observed → (fed : List ℕ) → HasRead fed ahead.old (S.left source.old)
        → IfOk result (λ may. (may ≡ feeds.is_checkpoint_fed fed)
        × HasRead fed ahead.new (S.left source.new)) }
    ensures kind { IfErr result IsReadEnd }
    ensures cause { AsksFeed S.Source result source.old source.new }
{
    ahead.fill(source, 1)?;
    Ok(ahead.bytes().starts_with(b"C"))
}
