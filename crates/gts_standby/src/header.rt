//! The header of a feed.
ghost use Rattle.std.specs.Prelude.{◌≡◌, ◌≤◌, ◌++◌, ℕ, List, length, IfErr};
ghost use Rattle.gts_standby.specs.Cited.{AsksFeed, HasRead, IsFedEnd, TakesHeader, magic, written};
ghost use Rattle.gts_opening.specs.Journal as opened;

use crate::FollowEnd;
use crate::ahead::Ahead;
use gts_journal::Version;
use gts_record::HEADER;
use gts_traits::Source;

/// The header of a journal with this mark.
fn header_of(mark: [u8; 32]) -> [u8; 40]
    ensures value { result ≡ magic written ++ mark }
    ensures size { length result ≡ 40 }
{
    let mut text = [0u8; HEADER];
    text[..8].copy_from_slice(&Version::written().magic());
    text[8..].copy_from_slice(&mark);
    text
}

/// How many of the first bytes are those of a header.
fn agreeing(header: &[u8; 40], bytes: &[u8]) -> usize
    ensures value { result ≡ opened.agreeing header.now bytes.now }
    ensures bound { result ≤ 40 }
{
    for i in 0..40 {
        if i >= bytes.len() || bytes[i] != header[i] {
            return i;
        }
    }
    40
}

/// Takes the header of a feed, which is that of a journal with this mark. A header that isn't whole is dropped.
pub(crate) fn take_header<S: Source>(
    source: &mut S,
    ahead: &mut Ahead,
    mark: [u8; 32],
) -> Result<(), FollowEnd>
    ensures taken { S.observed → (fed : List ℕ) → HasRead fed ahead.old (S.left source.old)
        → TakesHeader result (magic written ++ mark) fed ahead.new (S.left source.new) }
    ensures kind { IfErr result IsFedEnd }
    ensures cause { AsksFeed S.Source result source.old source.new }
{
    ahead.fill(source, HEADER)?;
    let bytes = ahead.bytes();
    let same = agreeing(&header_of(mark), bytes);
    if same == HEADER {
        ahead.pass(HEADER);
        return Ok(());
    }
    if bytes.len() <= same {
        return Err(FollowEnd::Done);
    }
    Err(FollowEnd::Feed { at: same as u64 })
}
