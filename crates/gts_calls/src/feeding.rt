ghost use Rattle.std.specs.Prelude.{◌≡◌, ◌<◌, ◌≤◌, ℕ, List, length, take};
ghost use Rattle.gts_calls.specs.Cited.{CountsFeed, FeedsBehind, GoesOver, HasMessage, IsShortAt, Reads, SettlesFed, Takes, answer_of, events_added, held_in};

use crate::dealing::deal;
use crate::reading::next_step;
use crate::{Fed, FeedEnd, Listens};
use gts_frame::{Decoder, Step};
use std::alloc::Global;

/// Feeds the next bytes of a connection on circuit `c`: the messages that they end are heard, one after another, and a loss is
/// entered. It stops behind a loss, and at the first fault. What it did may be gathered.
pub fn feed<W: Listens>(
    alloc: Global,
    switch: &mut W,
    c: u32,
    decoder: &mut Decoder,
    piece: &[u8],
) -> Fed
    requires circuit { c < length (W.meanings.directory switch.old).circuits }
    requires some { 0 < length piece.now }
    ensures most { result.taken ≤ length piece.now }
    ensures some { 0 < result.taken }
    ensures takes { (before : List ℕ) → decoder.old.held ≡ held_in before
        → Takes before piece.now result decoder.new }
    ensures goes { (before : List ℕ) → decoder.old.held ≡ held_in before
        → FeedsBehind W.meanings c (events_added c before (take result.taken piece.now))
        decoder.new.message result.end switch.old switch.new }
    ensures directory { W.meanings.directory switch.new ≡ W.meanings.directory switch.old }
    ensures cause { CountsFeed W.Listens (answer_of result.end) switch.old switch.new }
{
    let (taken, step) = next_step(decoder, piece);
    feed_behind(alloc, switch, c, decoder, piece, taken, step)
}

/// The same, where so many bytes of the piece were taken already, and came to this step, with which is not dealt yet.
pub fn feed_behind<W: Listens>(
    alloc: Global,
    switch: &mut W,
    c: u32,
    decoder: &mut Decoder,
    piece: &[u8],
    begun: usize,
    step: Step,
) -> Fed
    requires circuit { c < length (W.meanings.directory switch.old).circuits }
    requires within { begun ≤ length piece.now }
    requires message { HasMessage step decoder.old.message }
    ensures most { (begun ≤ result.taken) × (result.taken ≤ length piece.now) }
    ensures takes { (before : List ℕ) → Reads before (take begun piece.now) step decoder.old
        → Takes before piece.now result decoder.new }
    ensures goes { GoesOver W.meanings c (take begun piece.now) step decoder.old switch.old
        (take result.taken piece.now) decoder.new.message result.end switch.new }
    ensures short { IsShortAt result.end decoder.new.message }
    ensures directory { W.meanings.directory switch.new ≡ W.meanings.directory switch.old }
    ensures cause { CountsFeed W.Listens (answer_of result.end) switch.old switch.new }
{
    let mut taken = begun;
    let mut end = deal(alloc, switch, c, step, decoder.message());
    while taken < piece.len() && end.is_all() {
        let (count, next) = next_step(decoder, &piece[taken..]);
        taken += count;
        end = deal(alloc, switch, c, next, decoder.message());
    }
    Fed { taken, end }
}

/// Settles what a feed gathered that ended so. A failure of a device is its end then.
pub fn settle_behind<W: Listens>(switch: &mut W, fed: Fed) -> Fed
    ensures taken { result.taken ≡ fed.taken }
    ensures settles { SettlesFed W.meanings fed.end result.end switch.old switch.new }
    ensures directory { W.meanings.directory switch.new ≡ W.meanings.directory switch.old }
{
    if !fed.end.is_done() {
        return fed;
    }
    match switch.settle_all() {
        Ok(()) => fed,
        Err(fault) => Fed {
            taken: fed.taken,
            end: FeedEnd::Fault(fault),
        },
    }
}
