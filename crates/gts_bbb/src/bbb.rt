ghost use Rattle.std.specs.Prelude.{◌≡◌, ◌↔◌, IsSome, IsTrue};

use gts_heading::is_bbb;

/// What a BBB group says of its bulletin. The kinds and letters are this project's profile, made after the Manual.
#[derive(Clone, Copy, Debug, PartialEq, Eq)]
pub enum Bbb {
    /// `RRx`: a delayed or additional bulletin, with its letter.
    Delayed(u8),
    /// `CCx`: a correction, with its letter.
    Correction(u8),
    /// `AAx`: an amendment, with its letter.
    Amendment(u8),
    /// `Pxy` with x from A to Y: a segment that isn't the last, at its place from 0: PAA, PAB to PAZ, PBA and so on.
    Segment { place: u16 },
    /// `PZy`: the last segment of a set, with y the letter of its place modulo 26.
    LastSegment { letter: u8 },
}

impl Bbb {
    ghost use Rattle.gts_heading.specs.Letters as letters;
    ghost use Rattle.gts_bbb.specs.Bbb.{kind_of, place_of};

    /// Reads the three letters of a group. `None` exactly where no kind fits.
    pub fn read(three: [u8; 3]) -> Option<Bbb>
        ensures kind { result ≡ kind_of three }
        ensures some { IsSome result ↔ IsTrue (letters.is_bbb three) }
    {
        if !is_bbb(three) {
            return None;
        }
        match three {
            [b'R', _, letter] => Some(Bbb::Delayed(letter)),
            [b'C', _, letter] => Some(Bbb::Correction(letter)),
            [b'A', _, letter] => Some(Bbb::Amendment(letter)),
            [_, b'Z', letter] => Some(Bbb::LastSegment { letter }),
            [_, high, low] => Some(Bbb::Segment {
                place: 26 * u16::from(high - b'A') + u16::from(low - b'A'),
            }),
        }
    }

    /// The place of a segment that isn't the last; `None` exactly for the other kinds.
    pub fn segment_place(&self) -> Option<u16>
        ensures { result ≡ place_of self.now }
    {
        match self {
            Bbb::Segment { place } => Some(*place),
            _ => None,
        }
    }
}
