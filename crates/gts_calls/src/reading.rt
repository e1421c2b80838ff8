ghost use Rattle.std.specs.Prelude.{◌≡◌, ◌<◌, ◌≤◌, false, ℕ, List, length, take};
ghost use Rattle.gts_calls.specs.Cited.{HasMessage, Reads, held_in, is_event as shows_event};

use gts_frame::{Decoder, Step};

/// Whether a step of a decoder is an event: a message, or the loss of synchronisation.
pub fn is_event(step: Step) -> bool
    ensures { result ≡ shows_event step }
{
    match step {
        Step::Frame(_) | Step::Lost(_) => true,
        Step::More | Step::KeepAlive | Step::Dropped => false,
    }
}

/// Takes bytes up to the end of the next message, up to the loss of synchronisation, or all of them: answers how many, and the last
/// step of the decoder.
pub fn next_step(decoder: &mut Decoder, piece: &[u8]) -> (usize, Step)
    requires some { 0 < length piece.now }
    ensures most { result.0 ≤ length piece.now }
    ensures some { 0 < result.0 }
    ensures all { shows_event result.1 ≡ false → result.0 ≡ length piece.now }
    ensures message { HasMessage result.1 decoder.new.message }
    ensures reads { (before : List ℕ) → decoder.old.held ≡ held_in before
        → Reads before (take result.0 piece.now) result.1 decoder.new }
{
    let (mut taken, mut step) = decoder.take(piece);
    while taken < piece.len() && !is_event(step) {
        let (count, next) = decoder.take(&piece[taken..]);
        taken += count;
        step = next;
    }
    (taken, step)
}
