use crate::numbers::{Numbered, first_of, next_of, number_in};
use std::fmt;

/// The seconds of a minute.
const SECONDS: u64 = 60;

/// Numbers that don't follow the others in turn, as those of repetitions: all between the least and the greatest.
#[derive(Clone, Copy)]
struct Span {
    least: Numbered,
    greatest: Numbered,
}

/// The numbers between two of them, whichever is less.
fn span_of(one: Numbered, other: Numbered) -> Span {
    if one.value <= other.value {
        Span {
            least: one,
            greatest: other,
        }
    } else {
        Span {
            least: other,
            greatest: one,
        }
    }
}

/// So many numbers that follow one another up to this one; where they come round, all that there are.
fn span_up_to(last: Numbered, count: u64) -> Span {
    let digits = last.digits;
    let first = first_of(last, count);
    if count < u64::from(digits.round()) && first.value <= last.value {
        return span_of(first, last);
    }
    let value = digits.round() - 1;
    Span {
        least: Numbered { digits, value: 0 },
        greatest: Numbered { digits, value },
    }
}

/// Those of two.
fn both(one: Option<Span>, other: Option<Span>) -> Option<Span> {
    match (one, other) {
        (Some(one), Some(other)) => Some(Span {
            least: span_of(one.least, other.least).least,
            greatest: span_of(one.greatest, other.greatest).greatest,
        }),
        (Some(span), None) | (None, Some(span)) => Some(span),
        (None, None) => None,
    }
}

/// What was handed to a connection: how many frames and bytes, and their numbers.
#[derive(Clone, Copy)]
pub(crate) struct Handed {
    frames: u64,
    bytes: u64,
    /// The last of the numbers that follow one another.
    last: Option<Numbered>,
    /// How many of these there are.
    in_turn: u64,
    /// The other numbers.
    others: Option<Span>,
    /// The second of the last frame.
    until: u64,
}

impl Handed {
    /// The second of the last frame.
    pub(crate) fn until(self) -> u64 {
        self.until
    }

    /// What was handed to two connections, one behind the other. The numbers of the later one follow those of the former, or they are
    /// among the others.
    pub(crate) fn joined(self, later: Handed) -> Handed {
        let mut others = both(self.others, later.others);
        let (last, in_turn) = match (self.last, later.last) {
            (None, _) => (later.last, later.in_turn),
            (Some(_), None) => (self.last, self.in_turn),
            (Some(end), Some(last)) => {
                if first_of(last, later.in_turn) == next_of(end) {
                    (later.last, self.in_turn.saturating_add(later.in_turn))
                } else {
                    others = both(others, Some(span_up_to(last, later.in_turn)));
                    (self.last, self.in_turn)
                }
            }
        };
        Handed {
            frames: self.frames.saturating_add(later.frames),
            bytes: self.bytes.saturating_add(later.bytes),
            last,
            in_turn,
            others,
            until: later.until,
        }
    }

    /// How many numbers there are until they come round, where no fewer were handed in turn.
    fn round_passed(self) -> Option<u32> {
        let round = self.last?.digits.round();
        if self.in_turn < u64::from(round) {
            return None;
        }
        Some(round)
    }
}

impl fmt::Display for Handed {
    fn fmt<W: fmt::Write>(&self, f: &mut fmt::Formatter<W>) -> fmt::Result {
        let (frames, bytes) = (self.frames, self.bytes);
        write!(f, "{frames} frames, {bytes} bytes")?;
        if let Some(last) = self.last {
            let first = first_of(last, self.in_turn);
            write!(f, ", numbers {first} to {last}")?;
        }
        if let Some(Span { least, greatest }) = self.others {
            write!(f, ", also {least} to {greatest}")?;
        }
        match self.round_passed() {
            Some(round) => write!(
                f,
                "; a round of {round} or more, which the neighbour can't see"
            ),
            None => Ok(()),
        }
    }
}

/// What was handed to a connection within a second.
#[derive(Clone, Copy)]
struct Second {
    at: u64,
    frames: u64,
    bytes: u64,
    in_turn: u64,
    others: Option<Span>,
}

impl Second {
    /// Nothing was.
    fn new(at: u64) -> Second {
        Second {
            at,
            frames: 0,
            bytes: 0,
            in_turn: 0,
            others: None,
        }
    }
}

/// What was handed to a connection in the minute up to its last frame, second by second.
#[derive(Clone, Copy, Drop)]
pub(crate) struct LastMinute {
    seconds: [Second; SECONDS as usize],
    /// The second of the last frame.
    newest: u64,
    /// The last of the numbers that follow one another, and its second.
    last: Option<Numbered>,
    last_at: u64,
}

impl LastMinute {
    /// Nothing was handed.
    pub(crate) fn new() -> LastMinute {
        LastMinute {
            seconds: [Second::new(0); SECONDS as usize],
            newest: 0,
            last: None,
            last_at: 0,
        }
    }

    /// The second of the last frame.
    pub(crate) fn newest(&self) -> u64 {
        self.newest
    }

    /// Whether this number follows those that follow one another, or begins them.
    fn is_in_turn(&self, number: Numbered, at: u64) -> bool {
        match self.last {
            Some(last) => next_of(last) == number || at.saturating_sub(self.last_at) >= SECONDS,
            None => true,
        }
    }

    /// A frame was handed in this second.
    pub(crate) fn note(&mut self, frame: &[u8], at: u64) {
        let number = number_in(frame);
        let is_in_turn = match number {
            Some(number) => self.is_in_turn(number, at),
            None => false,
        };
        let second = &mut self.seconds[(at % SECONDS) as usize];
        if second.at != at {
            *second = Second::new(at);
        }
        second.frames = second.frames.saturating_add(1);
        second.bytes = second.bytes.saturating_add(frame.len() as u64);
        self.newest = at;
        if is_in_turn {
            second.in_turn = second.in_turn.saturating_add(1);
            self.last = number;
            self.last_at = at;
        } else if let Some(number) = number {
            second.others = both(second.others, Some(span_of(number, number)));
        }
    }

    /// All of it. None where it is nothing.
    pub(crate) fn handed(&self) -> Option<Handed> {
        let mut sum = Handed {
            frames: 0,
            bytes: 0,
            last: self.last,
            in_turn: 0,
            others: None,
            until: self.newest,
        };
        for second in &self.seconds {
            if self.newest.saturating_sub(second.at) < SECONDS {
                sum.frames = sum.frames.saturating_add(second.frames);
                sum.bytes = sum.bytes.saturating_add(second.bytes);
                sum.in_turn = sum.in_turn.saturating_add(second.in_turn);
                sum.others = both(sum.others, second.others);
            }
        }
        if sum.in_turn == 0 {
            sum.last = None;
        }
        if sum.frames == 0 { None } else { Some(sum) }
    }
}
