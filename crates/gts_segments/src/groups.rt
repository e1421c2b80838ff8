ghost use Rattle.std.specs.Prelude.{◌≡◌, ◌<◌, IsTrue};
ghost use Rattle.gts_segments.specs.Cited.{fields_of, is_bbb};
ghost use Rattle.gts_segments.specs.Groups as groups;

use gts_bbb::Bbb;
use gts_heading::Heading;

/// The letters of the alphabet: as many segments have the same first letter.
pub const LETTERS: u16 = 26;

/// The places of segments that aren't the last: `PAA` to `PYZ` (profile).
pub const PLACES: u16 = 25 * LETTERS;

/// The groups of segments: `PAA` to `PZZ` (profile).
pub const GROUPS: u16 = 26 * LETTERS;

/// Whether a heading is that of a segment.
pub fn is_segment(heading: &Heading) -> bool
    ensures { result ≡ groups.is_segment (fields_of heading.now) }
{
    let Some(letters) = heading.bbb else {
        return false;
    };
    matches!(
        Bbb::read(letters),
        Some(Bbb::Segment { .. } | Bbb::LastSegment { .. })
    )
}

/// The letters of the group at a place among those of segments, from 0.
pub fn group_at(place: u16) -> [u8; 3]
    requires { place < GROUPS }
    ensures letters { result ≡ groups.group_at place }
    ensures group { IsTrue (is_bbb result) }
{
    [
        b'P',
        b'A' + (place / LETTERS) as u8,
        b'A' + (place % LETTERS) as u8,
    ]
}
