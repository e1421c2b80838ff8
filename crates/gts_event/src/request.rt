ghost use Rattle.std.specs.Prelude.{◌≡◌};
ghost use Rattle.gts_heading.specs.Heading.{fields_of};
ghost use Rattle.gts_event.specs.History as history;

use gts_directory::Directory;
use gts_heading::Heading;

/// Whether a heading is that of a request for repetition to the own centre (profile, after the Manual's designators).
pub fn is_request(directory: &Directory, heading: &Heading) -> bool
    ensures { result ≡ history.is_request directory.now (fields_of heading.now) }
{
    heading.tt == *b"BM" && heading.aa == *b"RR" && heading.cccc == directory.centre()
}
