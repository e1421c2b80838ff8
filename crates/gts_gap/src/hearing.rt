ghost use Rattle.std.specs.Prelude.{◌≡◌, ◌<◌, ◌++◌, ◌∷◌, [], ℕ, List, length};
ghost use Rattle.gts_gap.specs.Cited.{Adds, Feeds, HasMessage, HasSourceCause, Heard, Kind, events_added, events_of_signs, held_in, signs_of_step};
ghost use Rattle.gts_gap.specs.Counting.{numbers_of};

use crate::GapTable;
use gts_frame::{Decoder, Step};
use gts_message::Message;
use gts_replay::{CaptureFault, Steps};
use gts_traits::Source;

/// How many bytes of a feed are taken at once.
const PIECE: usize = 4_096;

/// A message came on a circuit: its number is noted, unless a field of it is faulty.
fn hear(table: &mut GapTable, c: u32, message: &[u8])
    requires { c < length table.old }
    ensures adds { (kind : Kind)
        → Adds table.old table.new (numbers_of (Heard c kind message.now ∷ [])) }
    ensures circuits { length table.new ≡ length table.old }
{
    if let Ok(parts) = Message::split(message) {
        table.note(c, parts.number, parts.digits);
    }
}

/// What a step of a circuit's decoder came to is dealt with: a message is heard.
fn deal(table: &mut GapTable, c: u32, step: Step, message: &[u8])
    requires { c < length table.old }
    ensures adds { Adds table.old table.new
        (numbers_of (events_of_signs c (signs_of_step step message.now))) }
    ensures circuits { length table.new ≡ length table.old }
{
    match step {
        Step::Frame(_) => hear(table, c, message),
        Step::More | Step::KeepAlive | Step::Lost(_) | Step::Dropped => {}
    }
}

/// The next bytes of a circuit's connection: the messages that they end are heard.
fn feed_piece(table: &mut GapTable, c: u32, decoder: &mut Decoder, piece: &[u8])
    requires { c < length table.old }
    ensures adds { (before : List ℕ) → decoder.old.held ≡ held_in before
        → Adds table.old table.new (numbers_of (events_added c before piece.now)) }
    ensures held { (before : List ℕ) → decoder.old.held ≡ held_in before
        → decoder.new.held ≡ held_in (before ++ piece.now) }
    ensures circuits { length table.new ≡ length table.old }
{
    let mut rest = piece;
    while !rest.is_empty() {
        let (count, step) = decoder.take(rest);
        deal(table, c, step, decoder.message());
        rest = &rest[count..];
    }
}

/// A feed: its bytes come on a circuit, piece by piece, until all came that its head announced.
pub(crate) fn feed<S: Source>(
    table: &mut GapTable,
    c: u32,
    decoder: &mut Decoder,
    steps: &mut Steps,
    capture: &mut S,
) -> Result<(), CaptureFault>
    requires { c < length table.old }
    ensures feeds { Feeds S.observed c result steps.old steps.new (S.left capture.old)
        (S.left capture.new) decoder.old decoder.new table.old table.new }
    ensures circuits { length table.new ≡ length table.old }
    ensures cause { HasSourceCause result (S.faults capture.old) (S.faults capture.new) }
{
    let mut piece = [0; PIECE];
    loop {
        let count = steps.bytes(capture, &mut piece)?;
        if count == 0 {
            return Ok(());
        }
        feed_piece(table, c, decoder, &piece[..count]);
    }
}
