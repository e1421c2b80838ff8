ghost use Rattle.std.specs.Prelude.{◌≡◌};
ghost use Rattle.gts_event.specs.State as states;

use gts_directory::Directory;

/// Whether a position is among the last ones that are looked at for a duplicate, where so many bulletins were accepted (profile).
pub fn is_recent(directory: &Directory, accepted: u64, position: u64) -> bool
    ensures { result ≡ states.is_recent directory.now accepted position }
{
    accepted.saturating_sub(position) <= u64::from(directory.window())
}
