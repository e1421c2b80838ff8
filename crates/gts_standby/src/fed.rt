//! The next record of a feed.
ghost use Rattle.std.specs.Prelude.{◌≡◌, ◌≤◌, ℕ, List, true, false, nat_eq, codes, length, IfOk, IfErr, OnOk};
ghost use Rattle.gts_standby.specs.Cited.{AsksFeed, FindsPiece, HasRead, IsFedEnd, IsReadEnd, IsUnsealed, held, may_be_cut, may_begin, record_piece, starts_with, tells_next};

use crate::FollowEnd;
use crate::ahead::Ahead;
use gts_alphabet::LONGEST_BODY;
use gts_checkpoint::put_over;
use gts_journal::Version;
use gts_record::{decode, decode_sealed, number_in_four};
use gts_traits::Source;

/// The most bytes of a record with its seal: sixteen stand in front of a body.
pub(crate) const LONGEST: usize = 48 + LONGEST_BODY;

/// Whether bytes that begin with `D` may be the front of a draw: whether they are one where zeros are put for what they lack.
fn may_begin_draw(bytes: &[u8]) -> bool
    requires { starts_with nat_eq bytes.now (codes "D") ≡ true }
    ensures { result ≡ may_begin bytes.now }
{
    let mut draw = *b"D\0\0\0\0\0\0\0\0\0\0\0\0\0\0\0\0\0\0\0\0\0\0";
    put_over(&mut draw, bytes);
    decode(&draw).is_some()
}

/// Whether other bytes may be the front of an accepted bulletin. What they lack of a head is filled up. Then its size isn't too
/// great, and with a size of 0 it is a record.
fn may_begin_accept(bytes: &[u8]) -> bool
    requires { starts_with nat_eq bytes.now (codes "D") ≡ false }
    ensures { result ≡ may_begin bytes.now }
{
    let mut head = *b"A\0A\0\0\0\0\0\0\0\0\0\0\0\0\0";
    put_over(&mut head, bytes);
    let mut size = [0u8; 4];
    size.copy_from_slice(&head[12..]);
    if number_in_four(&size) as usize > LONGEST_BODY {
        return false;
    }
    head[12..].copy_from_slice(&[0; 4]);
    decode(&head).is_some()
}

/// Whether bytes that are no whole record may be the front of one, whatever stands before them. Its first bytes tell.
fn may_begin(bytes: &[u8]) -> bool
    ensures { result ≡ may_begin bytes.now }
{
    if bytes.starts_with(b"D") {
        may_begin_draw(bytes)
    } else {
        may_begin_accept(bytes)
    }
}

/// Whether these bytes, where a feed ends, are a record that was cut, or one whose seal was.
fn may_be_cut(version: Version, bytes: &[u8]) -> bool
    ensures { result ≡ may_be_cut version bytes.now }
{
    match decode(bytes) {
        Some((_, size)) => bytes.len() < size + version.seal_size(),
        None => may_begin(bytes),
    }
}

/// How a feed ends at a place where no record stands with its seal.
pub(crate) fn end_at(version: Version, ahead: &Ahead, at: u64) -> FollowEnd
    ensures { IsUnsealed result version ahead.now at }
{
    if ahead.is_all() && may_be_cut(version, ahead.bytes()) {
        FollowEnd::Done
    } else {
        FollowEnd::Feed { at }
    }
}

/// Whether the bytes that were read ahead tell the next record. It is there whole, with as many bytes as its seal has; or as many
/// are there as the longest has; or there are no more.
pub(crate) fn tells_next(version: Version, ahead: &Ahead) -> bool
    ensures { result ≡ tells_next version ahead.now }
{
    if ahead.is_all() || ahead.len() >= LONGEST {
        return true;
    }
    match decode(ahead.bytes()) {
        Some((_, size)) => ahead.len() >= size + version.seal_size(),
        None => false,
    }
}

/// Reads on until the bytes that were read ahead tell the next record. Where they do already, nothing is read.
pub(crate) fn read_next<S: Source>(
    source: &mut S,
    ahead: &mut Ahead,
    version: Version,
) -> Result<(), FollowEnd>
    ensures kept { S.observed → (fed : List ℕ) → HasRead fed ahead.old (S.left source.old)
        → OnOk result (HasRead fed ahead.new (S.left source.new)) }
    ensures enough { OnOk result (tells_next version ahead.new ≡ true) }
    ensures still { tells_next version ahead.old ≡ true
        → (ahead.new ≡ ahead.old) × (source.new ≡ source.old) }
    ensures kind { IfErr result IsReadEnd }
    ensures cause { AsksFeed S.Source result source.old source.new }
{
    while !tells_next(version, ahead) {
        ahead.read_on(source)?;
    }
    Ok(())
}

/// The size of the next record with its seal, and that seal, where another stands before it.
pub(crate) fn fed_record<S: Source>(
    source: &mut S,
    ahead: &mut Ahead,
    version: Version,
    before: &[u8; 32],
    at: u64,
) -> Result<(usize, [u8; 32]), FollowEnd>
    ensures piece { S.observed → (fed : List ℕ) → HasRead fed ahead.old (S.left source.old)
        → FindsPiece result version at (record_piece version (held version before.now) fed)
        fed ahead.new (S.left source.new) }
    ensures there { IfOk result (λ found. found.0 ≤ length ahead.new.bytes) }
    ensures size { IfOk result (λ found. found.0 ≤ LONGEST) }
    ensures kind { IfErr result IsFedEnd }
    ensures cause { AsksFeed S.Source result source.old source.new }
{
    read_next(source, ahead, version)?;
    match decode_sealed(version, before, ahead.bytes()) {
        Some(found) => {
            let seal = found.2;
            Ok((found.1, seal))
        }
        None => Err(end_at(version, ahead, at)),
    }
}
