ghost use Rattle.std.specs.Prelude.{◌≡◌, ◌<◌, ◌≤◌, ◌++◌, ℕ, List, length, take, min, Err, IfOk, IsErr, OnOk};
ghost use Rattle.gts_replay.specs.Cited.{CountsCall, CountsStep, EndsInFeed, Entry, Feeds, Goes, HasSourceCause, IsSameCapture, IsSettled, Passed, SettlesFirst, Stands, StopsInFeed, all_done, events_added, held_in, readable_from};
ghost use Rattle.gts_replay.specs.declared.fault.StepFault.TheVariants as step;

use crate::fault::StepFault;
use crate::{CaptureFault, Steps};
use gts_calls::{Switch, feed as feed_on};
use gts_event::SwitchFault;
use gts_frame::Decoder;
use gts_traits::Source;
use std::alloc::Global;

/// Reads the source for the next bytes of a feed, of which nothing is held. It may wait, and so the switch has nothing gathered.
fn read_bytes<W: Switch, S: Source>(
    _switch: &W,
    capture: &mut S,
    steps: &mut Steps,
    into: &mut [u8],
) -> Result<usize, CaptureFault>
    requires settled { IsSettled W.meanings _switch.now }
    ensures told { S.observed → IfOk result (λ count. steps.old.ahead ++ S.left capture.old
        ≡ take count into.new ++ (steps.new.ahead ++ S.left capture.new)) }
    ensures most { IfOk result (λ count. count ≤ min (length into.old) steps.old.feed) }
    ensures left { IsErr result → 0 < steps.old.feed }
    ensures some { IfOk result (λ count. count ≡ 0 → min (length into.old) steps.old.feed ≡ 0) }
    ensures passed { IfOk result (λ count. Passed steps.old steps.new count) }
    ensures bad { S.observed → (at : ℕ) → result ≡ Err (CaptureFault.Bad at)
        → EndsInFeed steps.old
        (readable_from steps.old.at (steps.old.ahead ++ S.left capture.old)) at }
    ensures source_fault { S.observed → result ≡ Err CaptureFault.SourceFault
        → StopsInFeed steps.old steps.new (S.left capture.old) (S.left capture.new) }
    ensures same { IsSameCapture steps.old steps.new }
    ensures cause { HasSourceCause result (S.faults capture.old) (S.faults capture.new) }
{
    steps.bytes(capture, into)
}

/// Takes the next bytes of a feed to the front of `into`, and answers how many. Where nothing is held of it, what the switch gathered
/// is settled, and the source is read.
fn next_bytes<W: Switch, S: Source>(
    switch: &mut W,
    capture: &mut S,
    steps: &mut Steps,
    into: &mut [u8],
) -> Result<usize, StepFault>
    ensures told { S.observed → IfOk result (λ count. steps.old.ahead ++ S.left capture.old
        ≡ take count into.new ++ (steps.new.ahead ++ S.left capture.new)) }
    ensures most { IfOk result (λ count. count ≤ min (length into.old) steps.old.feed) }
    ensures left { IsErr result → 0 < steps.old.feed }
    ensures some { IfOk result (λ count. count ≡ 0 → min (length into.old) steps.old.feed ≡ 0) }
    ensures passed { IfOk result (λ count. Passed steps.old steps.new count) }
    ensures bad { S.observed → (at : ℕ) → result ≡ Err (step.Capture (CaptureFault.Bad at))
        → EndsInFeed steps.old
        (readable_from steps.old.at (steps.old.ahead ++ S.left capture.old)) at }
    ensures source_fault { S.observed → result ≡ Err (step.Capture CaptureFault.SourceFault)
        → StopsInFeed steps.old steps.new (S.left capture.old) (S.left capture.new) }
    ensures same { IsSameCapture steps.old steps.new }
    ensures settles { SettlesFirst W.meanings result switch.old switch.new }
    ensures directory { W.meanings.directory switch.new ≡ W.meanings.directory switch.old }
    ensures cause { CountsStep W.Switch S.Source result switch.old switch.new
        capture.old capture.new }
{
    if steps.has_bytes() {
        return Ok(steps.hand_on(into));
    }
    if let Err(fault) = switch.settle() {
        return Err(StepFault::Switch(fault));
    }
    match read_bytes(switch, capture, steps, into) {
        Ok(count) => Ok(count),
        Err(fault) => Err(StepFault::Capture(fault)),
    }
}

/// A feed: its bytes come on a circuit, piece by piece, until all came that its head announced. A piece is as long as
/// `piece` at most. What the pieces gather is settled before the capture is read on.
pub(crate) fn feed<W: Switch, S: Source>(
    alloc: Global,
    switch: &mut W,
    c: u32,
    decoder: &mut Decoder,
    steps: &mut Steps,
    capture: &mut S,
    piece: &mut [u8],
) -> Result<(), StepFault>
    requires circuit { c < length (W.meanings.directory switch.old).circuits }
    requires piece { 0 < length piece.old }
    ensures feeds { Feeds W.meanings S.observed c result steps.old steps.new (S.left capture.old)
        (S.left capture.new) decoder.old decoder.new switch.old switch.new }
    ensures directory { W.meanings.directory switch.new ≡ W.meanings.directory switch.old }
    ensures cause { CountsStep W.Switch S.Source result switch.old switch.new
        capture.old capture.new }
{
    loop {
        let count = next_bytes(switch, capture, steps, piece)?;
        if count == 0 {
            return Ok(());
        }
        feed_piece(alloc, switch, c, decoder, &piece[..count]).map_err(StepFault::Switch)?;
    }
}

/// The next bytes of a circuit's connection: the messages that they end are heard, and a loss is entered.
fn feed_piece<W: Switch>(
    alloc: Global,
    switch: &mut W,
    c: u32,
    decoder: &mut Decoder,
    piece: &[u8],
) -> Result<(), SwitchFault>
    requires circuit { c < length (W.meanings.directory switch.old).circuits }
    ensures goes { (before : List ℕ) (o : W.Origin) (first : ℕ) (h : List Entry)
        → decoder.old.held ≡ held_in before → Stands W.meanings o first h switch.old
        → Goes W.meanings o first h (all_done (events_added c before piece.now)) result switch.new }
    ensures held { (before : List ℕ) → decoder.old.held ≡ held_in before
        → OnOk result (decoder.new.held ≡ held_in (before ++ piece.now)) }
    ensures directory { W.meanings.directory switch.new ≡ W.meanings.directory switch.old }
    ensures cause { CountsCall W.Switch result switch.old switch.new }
{
    let mut rest = piece;
    while !rest.is_empty() {
        let fed = feed_on(alloc, switch, c, decoder, rest);
        fed.end.answer()?;
        rest = &rest[fed.taken..];
    }
    Ok(())
}
