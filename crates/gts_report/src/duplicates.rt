//! How many bulletins are forgotten whose duplicates were known.

ghost use Rattle.std.specs.Prelude.{◌≡◌, ◌-◌, length, map};
ghost use Rattle.gts_report.specs.Cited.{behind, bulletin_of, filter, known, need_of, recent_among};

use gts_directory::Directory;
use gts_event::{Bulletin, Need, is_recent};

/// How many of some bulletins are recent.
fn count_recent(directory: &Directory, accepted: u64, bulletins: &[Bulletin]) -> u64
    ensures { result
        ≡ length (recent_among directory.now accepted (map bulletin_of bulletins.now)) }
{
    let mut count = 0;
    for bulletin in bulletins {
        if is_recent(directory, accepted, bulletin.position) {
            count += 1;
        }
    }
    count
}

/// How many bulletins of a need, whose duplicates are known, aren't known behind it.
pub(crate) fn forgotten_duplicates(need: &Need, old: &Directory, new: &Directory) -> u64
    ensures { result ≡ length (known old.now (need_of need.now))
        - length (known new.now (behind new.now old.now (need_of need.now))) }
{
    let bulletins = need.bulletins.as_slice();
    let before = count_recent(old, need.accepted, bulletins);
    let after = count_recent(new, need.accepted, bulletins);
    before.saturating_sub(after)
}
