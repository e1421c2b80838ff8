ghost use Rattle.std.specs.Prelude.{◌≡◌, ◌==◌, ◌≤◌, ◌<◌, Ok, Err, IfOk, IfErr, MatchResult, length, drop};
ghost use Rattle.gts_replay.specs.Cited.{BeginsWithHead, IsStop, line_of};
ghost use Rattle.gts_replay.specs.HeadReading as reading;

use crate::head::Head;
use gts_alphabet::{BLANK, LF};
use gts_connection::CaptureKind;
use std::marker::Model;

/// How many digits the number of a feed's bytes has.
const SIZE_DIGITS: u32 = 6;

/// Why no head was read.
#[derive(Clone, Copy, Debug, PartialEq, Eq)]
pub(crate) enum Stop {
    /// The bytes end in a head.
    More,
    /// A byte can't stand in its place. So many bytes are left, this one included.
    Bad { left: usize },
}

/// Reads the head at the front, in a capture of so many circuits and of this kind, and answers how many bytes it has.
pub(crate) fn read_head(
    bytes: &[u8],
    circuits: u32,
    kind: CaptureKind,
) -> Result<(Head, usize), Stop>
    requires { circuits ≤ 100 }
    ensures head { IfOk result (λ read.
        BeginsWithHead circuits kind bytes.now read.0 (drop read.1 bytes.now)) }
    ensures length { IfOk result (λ read. read.1 ≡ length (line_of read.0)) }
    ensures within { IfOk result (λ read. read.1 ≤ length bytes.now) }
    ensures stop { IfErr result (IsStop circuits kind bytes.now) }
{
    let mut cursor = HeadCursor::new(bytes);
    let head = cursor.head(circuits, kind)?;
    Ok((head, bytes.len() - cursor.rest().len()))
}

/// The bytes of a head that are left to read.
#[derive(Debug, Drop)]
pub(crate) struct HeadCursor<'a> {
    rest: &'a [u8],
}

impl<'a> Model for HeadCursor<'a> {
    ghost use Rattle.std.specs.Prelude.{List, ℕ};

    ghost Value = { List ℕ };

    ghost view = { λ cursor. cursor.rest.now };
}

impl<'a> HeadCursor<'a> {
    /// A cursor before the first of these bytes.
    pub(crate) fn new(bytes: &'a [u8]) -> HeadCursor<'a>
        ensures { result ≡ bytes.now }
    {
        HeadCursor { rest: bytes }
    }

    /// All that is left.
    pub(crate) fn rest(&self) -> &'a [u8]
        ensures { result.now ≡ self.now }
    {
        self.rest
    }

    /// Reads a head, in a capture of so many circuits and of this kind.
    #[tactic(auto, unfolding(crate::specs::HeadReading::head_at))]
    pub(crate) fn head(&mut self, circuits: u32, kind: CaptureKind) -> Result<Head, Stop>
        requires { circuits ≤ 100 }
        ensures { MatchResult result
            (λ head. reading.head_at circuits kind self.old ≡ Ok (head, self.new))
            (λ stop. reading.head_at circuits kind self.old ≡ Err stop) }
    {
        let letter = self.letter(circuits, kind)?;
        self.behind_letter(circuits, letter)
    }

    /// Reads the first byte of a head.
    fn letter(&mut self, circuits: u32, kind: CaptureKind) -> Result<u8, Stop>
        ensures { MatchResult result
            (λ letter. reading.letter_at circuits kind self.old ≡ Ok (letter, self.new))
            (λ stop. reading.letter_at circuits kind self.old ≡ Err stop) }
    {
        let (letter, rest) = self.rest.split_first().ok_or(Stop::More)?;
        if !is_letter(circuits, kind, *letter) {
            return Err(self.bad());
        }
        self.rest = rest;
        Ok(*letter)
    }

    /// Reads what stands behind the first byte of a head.
    #[tactic(auto, unfolding(crate::specs::HeadReading::behind_letter))]
    fn behind_letter(&mut self, circuits: u32, letter: u8) -> Result<Head, Stop>
        requires { circuits ≤ 100 }
        ensures { MatchResult result
            (λ head. reading.behind_letter circuits (letter, self.old) ≡ Ok (head, self.new))
            (λ stop. reading.behind_letter circuits (letter, self.old) ≡ Err stop) }
    {
        let head = match letter {
            b'F' => {
                let c = self.circuit(circuits)?;
                Head::Feed {
                    c,
                    length: self.size()?,
                }
            }
            b'T' => Head::Take {
                c: self.circuit(circuits)?,
            },
            b'O' => Head::Reopen {
                c: self.circuit(circuits)?,
            },
            b'D' => Head::Drain {
                c: self.circuit(circuits)?,
            },
            b'R' => Head::Restart,
            b'C' => Head::Compact,
            _ => Head::End,
        };
        self.end(head)
    }

    /// Reads a blank, and the two digits of one of the circuits.
    #[tactic(auto, unfolding(crate::specs::HeadReading::circuit_at))]
    fn circuit(&mut self, circuits: u32) -> Result<u32, Stop>
        requires { circuits ≤ 100 }
        ensures { MatchResult result
            (λ c. reading.circuit_at circuits self.old ≡ Ok (c, self.new))
            (λ stop. reading.circuit_at circuits self.old ≡ Err stop) }
    {
        self.byte(BLANK)?;
        let tens = self.digit((circuits + 9) / 10)?;
        let units = self.digit(circuits - 10 * tens)?;
        Ok(10 * tens + units)
    }

    /// Reads a blank, and the six digits of the number of a feed's bytes.
    #[tactic(auto, unfolding(crate::specs::HeadReading::size_at))]
    fn size(&mut self) -> Result<u32, Stop>
        ensures { MatchResult result
            (λ size. reading.size_at self.old ≡ Ok (size, self.new))
            (λ stop. reading.size_at self.old ≡ Err stop) }
    {
        self.byte(BLANK)?;
        self.six_digits()
    }

    /// Reads six digits.
    fn six_digits(&mut self) -> Result<u32, Stop>
        ensures { MatchResult result
            (λ number. reading.digits_at SIZE_DIGITS 0 self.old ≡ Ok (number, self.new))
            (λ stop. reading.digits_at SIZE_DIGITS 0 self.old ≡ Err stop) }
    {
        let mut number = 0;
        for _ in 0..SIZE_DIGITS {
            number = 10 * number + self.digit(10)?;
        }
        Ok(number)
    }

    /// Reads the end of a head.
    #[tactic(auto, unfolding(crate::specs::HeadReading::end_at))]
    fn end(&mut self, head: Head) -> Result<Head, Stop>
        ensures { MatchResult result
            (λ read. reading.end_at head self.old ≡ Ok (read, self.new))
            (λ stop. reading.end_at head self.old ≡ Err stop) }
    {
        self.byte(LF)?;
        Ok(head)
    }

    /// Reads one byte.
    fn byte(&mut self, wanted: u8) -> Result<u8, Stop>
        ensures { MatchResult result
            (λ byte. reading.byte_where (λ byte. byte == wanted) self.old ≡ Ok (byte, self.new))
            (λ stop. reading.byte_where (λ byte. byte == wanted) self.old ≡ Err stop) }
    {
        let (byte, rest) = self.rest.split_first().ok_or(Stop::More)?;
        if *byte != wanted {
            return Err(self.bad());
        }
        self.rest = rest;
        Ok(*byte)
    }

    /// Reads a digit whose number is below a limit.
    fn digit(&mut self, limit: u32) -> Result<u32, Stop>
        ensures exact { MatchResult result
            (λ digit. reading.digit_at limit self.old ≡ Ok (digit, self.new))
            (λ stop. reading.digit_at limit self.old ≡ Err stop) }
        ensures small { IfOk result (λ digit. (digit < limit) × (digit < 10)) }
    {
        let (byte, rest) = self.rest.split_first().ok_or(Stop::More)?;
        if !byte.is_ascii_digit() || u32::from(*byte - b'0') >= limit {
            return Err(self.bad());
        }
        self.rest = rest;
        Ok(u32::from(*byte - b'0'))
    }

    /// The next byte can't stand here.
    fn bad(&self) -> Stop
        ensures { result ≡ Stop.Bad (length self.now) }
    {
        Stop::Bad {
            left: self.rest.len(),
        }
    }
}

/// Whether some head begins with this byte.
fn is_letter(circuits: u32, kind: CaptureKind, byte: u8) -> bool
    ensures { result ≡ reading.is_letter circuits kind byte }
{
    match byte {
        b'F' | b'T' | b'O' | b'D' => circuits > 0,
        b'R' | b'C' => kind == CaptureKind::Journaled,
        _ => byte == b'E',
    }
}
