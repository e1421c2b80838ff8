ghost use Rattle.std.specs.Prelude.{◌≡◌, ℕ, ◌+◌, ◌-◌, ◌%◌, ◌<◌, ◌∷◌, ◌↔◌, drop, nat_eq, true, IfNone, IfSome, IsSome};
ghost use Rattle.gts_tcp.specs.Cited.{EOL, FRAME_HEAD, SOH, starts_with};
ghost use Rattle.gts_tcp.specs.Numbers.{Carries, IsNumberAt, behind_start, count_of, round_of};

use gts_alphabet::{CR, EOL, FRAME_HEAD, LF, SOH, decimal_value};
use std::fmt;

/// What stands between a frame's head and its number: SOH and a line end.
const START: [u8; 4] = [SOH, CR, CR, LF];

/// How many digits the numbers of a circuit have.
#[derive(Clone, Copy, Debug, PartialEq, Eq)]
pub(crate) enum Digits {
    /// 000 to 999.
    Three,
    /// 00000 to 99999.
    Five,
}

impl Digits {
    /// How many.
    fn count(self) -> usize
        ensures { result ≡ count_of self }
    {
        match self {
            Digits::Three => 3,
            Digits::Five => 5,
        }
    }

    /// How many numbers there are of so many digits, until they come round.
    pub(crate) fn round(self) -> u32
        ensures { result ≡ round_of self }
    {
        match self {
            Digits::Three => 1_000,
            Digits::Five => 100_000,
        }
    }
}

/// A sequence number.
#[derive(Clone, Copy, Debug, PartialEq, Eq)]
pub(crate) struct Numbered {
    pub(crate) digits: Digits,
    pub(crate) value: u32,
}

impl fmt::Display for Numbered {
    fn fmt<W: fmt::Write>(&self, f: &mut fmt::Formatter<W>) -> fmt::Result {
        let value = self.value;
        match self.digits {
            Digits::Three => write!(f, "{value:03}"),
            Digits::Five => write!(f, "{value:05}"),
        }
    }
}

/// The number of so many digits with which the bytes begin, before a line end. `None` exactly where they don't.
fn number_at(bytes: &[u8], digits: Digits) -> Option<u32>
    ensures found { IfSome result (λ n. IsNumberAt (count_of digits) n bytes.now) }
    ensures none { IfNone result ((n : ℕ) → IsNumberAt (count_of digits) n bytes.now → ⊥) }
{
    let (number, behind) = bytes.split_at_checked(digits.count())?;
    if !behind.starts_with(&EOL) {
        return None;
    }
    decimal_value(number)
}

/// What stands behind a frame's head, SOH and a line end, where these stand there.
fn start_of(frame: &[u8]) -> Option<&[u8]>
    ensures found { IfSome result (λ rest. rest.now ≡ behind_start frame.now) }
    ensures begins { IsSome result
        ↔ (starts_with nat_eq (drop FRAME_HEAD frame.now) (SOH ∷ EOL) ≡ true) }
{
    let message = &frame[FRAME_HEAD.min(frame.len())..];
    if !message.starts_with(&START) {
        return None;
    }
    Some(&message[START.len()..])
}

/// The number of three digits or of five with which the bytes begin, before a line end.
fn number_of(bytes: &[u8]) -> Option<Numbered>
    ensures found { IfSome result (λ found.
        IsNumberAt (count_of found.digits) found.value bytes.now) }
    ensures none_of_three { IfNone result ((n : ℕ) → IsNumberAt 3 n bytes.now → ⊥) }
    ensures none_of_five { IfNone result ((n : ℕ) → IsNumberAt 5 n bytes.now → ⊥) }
{
    if let Some(value) = number_at(bytes, Digits::Three) {
        let digits = Digits::Three;
        return Some(Numbered { digits, value });
    }
    if let Some(value) = number_at(bytes, Digits::Five) {
        let digits = Digits::Five;
        return Some(Numbered { digits, value });
    }
    None
}

/// The sequence number that a frame carries: three digits or five, which stand behind the frame's head, SOH and a line end, and
/// before a line end (the Manual's message format). `None` exactly where it carries none.
pub(crate) fn number_in(frame: &[u8]) -> Option<Numbered>
    ensures found { IfSome result (λ found.
        Carries frame.now (count_of found.digits) found.value) }
    ensures none_of_three { IfNone result ((n : ℕ) → Carries frame.now 3 n → ⊥) }
    ensures none_of_five { IfNone result ((n : ℕ) → Carries frame.now 5 n → ⊥) }
{
    let rest = start_of(frame)?;
    number_of(rest)
}

/// The number that follows one: behind the greatest comes 0.
pub(crate) fn next_of(number: Numbered) -> Numbered
    ensures digits { result.digits ≡ number.digits }
    ensures next { number.value + 1 < round_of number.digits → result.value ≡ number.value + 1 }
    ensures round { number.value + 1 ≡ round_of number.digits → result.value ≡ 0 }
{
    let Numbered { digits, value } = number;
    let last = digits.round() - 1;
    let value = if value < last { value + 1 } else { 0 };
    Numbered { digits, value }
}

/// The first of so many numbers that follow one another, of which this is the last.
pub(crate) fn first_of(last: Numbered, count: u64) -> Numbered
    ensures digits { result.digits ≡ last.digits }
    ensures small { result.value < round_of last.digits }
    ensures first { 0 < count → last.value < round_of last.digits
        → (result.value + (count - 1)) % round_of last.digits ≡ last.value }
{
    let digits = last.digits;
    let round = u64::from(digits.round());
    let back = count.saturating_sub(1) % round;
    let from = u64::from(last.value) % round;
    let first = if from < back {
        from + round - back
    } else {
        from - back
    };
    let value = first as u32;
    Numbered { digits, value }
}
