ghost use Rattle.std.specs.Prelude.{◌≡◌, ◌+◌, ◌<◌, ◌≤◌, ◌++◌, [], length, take, IfOk, IsOk, IfSome, IsSome, IsNone};
ghost use Rattle.gts_generate.specs.Cited.{HasCause, IsSound, Takes, bytes_left, pieces_left};
ghost use Rattle.gts_generate.specs.Day as day;

use crate::MOST_MESSAGES;
use crate::message::{ending, turn};
use gts_traits::{Failed, Piece, Source};
use std::marker::Model;

/// A piece, how much of it was taken, the number of the message that the next piece is of, and how many messages there are.
#[derive(Drop)]
pub(crate) struct GeneratedParts {
    piece: Piece,
    taken: usize,
    next: u32,
    count: u32,
}

/// The capture of a day, made piece by piece as it is read. It keeps one piece, and takes no memory.
#[derive(Drop)]
pub struct Generated {
    parts: GeneratedParts,
}

impl Model for Generated {
    ghost use Rattle.std.specs.Prelude.{List, ℕ};
    ghost use Rattle.gts_generate.specs.DayView.{bytes_left, IsSound};

    ghost Value = { List ℕ };

    ghost view = { λ g. bytes_left g.parts };

    ghost invariant = { λ g. IsSound g.parts };
}

impl Generated {
    /// The capture of a day of so many messages: for each a feed and a take, then a drain of each circuit, and the end.
    pub fn new(count: u32) -> Generated
        requires { count ≤ MOST_MESSAGES }
        ensures { result ≡ day.capture count }
    {
        Generated {
            parts: GeneratedParts {
                piece: Piece::new(),
                taken: 0,
                next: 0,
                count,
            },
        }
    }
}

/// The piece that comes next: of message `next`, or behind all messages. `None` behind that one.
fn next_piece(next: u32, count: u32) -> Option<Piece>
    requires { count ≤ MOST_MESSAGES }
    ensures some { IfSome result (λ piece.
        pieces_left next count ≡ piece ++ pieces_left (next + 1) count) }
    ensures bytes { IfSome result (λ piece. 0 < length piece) }
    ensures known { IsSome result → next ≤ count }
    ensures none { IsNone result → pieces_left next count ≡ [] }
{
    if next < count {
        Some(turn(next))
    } else if next == count {
        Some(ending())
    } else {
        None
    }
}

/// Makes the next piece, where the last one was taken whole.
fn fill(parts: &mut GeneratedParts)
    requires { IsSound parts.old }
    ensures sound { IsSound parts.new }
    ensures same { bytes_left parts.new ≡ bytes_left parts.old }
    ensures ready { parts.new.taken ≡ length parts.new.piece → bytes_left parts.new ≡ [] }
{
    if parts.taken < parts.piece.bytes().len() {
        return;
    }
    if let Some(piece) = next_piece(parts.next, parts.count) {
        parts.piece = piece;
        parts.taken = 0;
        parts.next += 1;
    }
}

/// Gives of the next piece what there is room for.
fn hand_on(parts: &mut GeneratedParts, into: &mut [u8]) -> usize
    requires { IsSound parts.old }
    ensures sound { IsSound parts.new }
    ensures bytes { bytes_left parts.old ≡ take result into.new ++ bytes_left parts.new }
    ensures end { result ≡ 0 → 0 < length into.new → bytes_left parts.old ≡ [] }
    ensures count { result ≤ length into.new }
{
    fill(parts);
    let left = &parts.piece.bytes()[parts.taken..];
    let count = left.len().min(into.len());
    into[..count].copy_from_slice(&left[..count]);
    parts.taken += count;
    count
}

/// Gives what comes next, piece by piece, as much as there is room for.
fn hand_all(parts: &mut GeneratedParts, into: &mut [u8]) -> usize
    requires { IsSound parts.old }
    ensures sound { IsSound parts.new }
    ensures bytes { bytes_left parts.old ≡ take result into.new ++ bytes_left parts.new }
    ensures end { result ≡ 0 → 0 < length into.new → bytes_left parts.old ≡ [] }
    ensures count { result ≤ length into.new }
{
    let mut count = 0;
    while count < into.len() {
        let more = hand_on(parts, &mut into[count..]);
        if more == 0 {
            return count;
        }
        count += more;
    }
    count
}

impl Source for Generated {
    ghost observed = { Unit {0} };

    ghost left = { λ g. g };

    ghost faults = { λ g. 0 };

    /// Never fails.
    fn read(&mut self, into: &mut [u8]) -> Result<usize, Failed>
        ensures bytes { Takes result self.old self.new into.new }
        ensures count { IfOk result (λ count. count ≤ length into.new) }
        ensures cause { HasCause result 0 0 }

        // Beside what the trait says.
        ensures never { IsOk result }
    {
        Ok(hand_all(&mut self.parts, into))
    }
}
