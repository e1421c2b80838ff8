ghost use Rattle.std.specs.Prelude.{◌≡◌, ◌+◌, ◌≤◌, ◌++◌, ℕ, List, [], length};
ghost use Rattle.gts_accum.specs.Cited.{AsksOutput, Call, HasMessage, IsFramed, Tells, entries_text, entry_text, messages_of, on, signs_of_step, whole};
ghost use Rattle.gts_accum.specs.Packs as packs;

use crate::{ENTRY_HEAD, LONGEST_STREAM, PackEnd, entry_head};
use gts_frame::{Decoder, Step};
use gts_traits::{Channel, Failed, Source, Station, say};
use std::alloc::Global;

/// The most bytes of a stream that are read at once.
const PIECE: usize = 4_096;

/// Why a piece of a stream was not packed to its end.
#[derive(Clone, Copy, Debug, PartialEq, Eq)]
pub(crate) enum Stop {
    /// Synchronisation is lost at the byte in this place of the stream.
    Lost { at: u64 },
    /// Saying failed.
    Unsaid,
}

/// Says a message as a whole entry.
fn say_entry<P: Station>(message: &[u8], station: &mut P) -> Result<(), Failed>
    requires { IsFramed message.now }
    ensures told { P.observed → Tells result (on 0 (entry_text (whole message.now)))
        (P.calls station.old) (P.calls station.new) }
    ensures cause { AsksOutput P.Station result station.old station.new }
{
    let mut head = [0; ENTRY_HEAD];
    entry_head(message.len() as u32, &mut head);
    if let Err(Failed) = say(station, Channel::OPERATOR, &head) {
        return Err(Failed);
    }
    say(station, Channel::OPERATOR, message)
}

/// Says what a step of the decoder adds to the file: the entry of a frame.
fn say_step<P: Station>(step: Step, message: &[u8], station: &mut P) -> Result<(), Failed>
    requires { HasMessage step message.now }
    ensures told { P.observed
        → Tells result (on 0 (entries_text (messages_of (signs_of_step step message.now))))
        (P.calls station.old) (P.calls station.new) }
    ensures cause { AsksOutput P.Station result station.old station.new }
{
    match step {
        Step::Frame(_) => say_entry(message, station),
        Step::More | Step::KeepAlive | Step::Lost(_) | Step::Dropped => Ok(()),
    }
}

/// Takes a piece of a stream that stands at this place: the messages that it ends are said as entries.
fn take_piece<P: Station>(
    decoder: &mut Decoder,
    start: u64,
    piece: &[u8],
    station: &mut P,
) -> Result<(), Stop>
    requires { start + length piece.now ≤ LONGEST_STREAM }
    ensures ends { packs.TakesPiece P.observed start piece.now result (P.calls station.old)
        (P.calls station.new) decoder.old decoder.new }
    ensures cause { packs.SaysPiece P.Station result station.old station.new }
{
    let mut rest = piece;
    let mut at = start;
    while !rest.is_empty() {
        let (count, step) = decoder.take(rest);
        if let Step::Lost(_) = step {
            return Err(Stop::Lost {
                at: at + (count as u64 - 1),
            });
        }
        if let Err(Failed) = say_step(step, decoder.message(), station) {
            return Err(Stop::Unsaid);
        }
        rest = &rest[count..];
        at += count as u64;
    }
    Ok(())
}

/// The stream ends at this place, where so many bytes of a frame or keep-alive are held that isn't whole.
fn finish<P: Station>(at: u64, rest: u32, station: &mut P) -> PackEnd
    requires { at ≤ LONGEST_STREAM }
    ensures ends { (first : List Call) (stream held : List ℕ) → at ≡ length stream
        → packs.Holds P.observed first (P.calls station.old) stream held → rest ≡ length held
        → packs.Packs P.observed result stream [] first (P.calls station.new) }
    ensures read { (result ≡ PackEnd.SourceFault → ⊥) × (result ≡ PackEnd.NoMemory → ⊥) }
    ensures cause { packs.SaysEnd P.Station result station.old station.new }
{
    if rest > 0 {
        return PackEnd::Bad { at };
    }
    let mut head = [0; ENTRY_HEAD];
    entry_head(0, &mut head);
    match say(station, Channel::OPERATOR, &head) {
        Ok(()) => PackEnd::Done,
        Err(Failed) => PackEnd::SayFault,
    }
}

/// Says the file of a stream's messages, as the stream is read: a whole entry for each frame, and the end. Keep-alives are left
/// out. Beside the decoder's room it takes no memory.
pub fn pack<S: Source, P: Station>(alloc: Global, stream: &mut S, station: &mut P) -> PackEnd
    ensures packs { S.observed → packs.Packs P.observed result (S.left stream.old)
        (S.left stream.new)
        (P.calls station.old) (P.calls station.new) }
    ensures unmade { result ≡ PackEnd.NoMemory
        → (stream.new ≡ stream.old) × (station.new ≡ station.old) }
    ensures files { P.observed → packs.SameFiles (P.calls station.old) (P.calls station.new) }
    ensures cause { packs.CountsPack S.Source P.Station result stream.old stream.new
        station.old station.new }
{
    let Ok(mut decoder) = Decoder::new(alloc) else {
        return PackEnd::NoMemory;
    };
    let mut piece = [0; PIECE];
    let mut at: u64 = 0;
    loop {
        let count = match stream.read(&mut piece) {
            Ok(0) => return finish(at, decoder.rest(), station),
            Ok(count) => count,
            Err(Failed) => return PackEnd::SourceFault,
        };
        let room = (LONGEST_STREAM - at).min(count as u64) as usize;
        match take_piece(&mut decoder, at, &piece[..room], station) {
            Ok(()) => {}
            Err(Stop::Lost { at }) => return PackEnd::Bad { at },
            Err(Stop::Unsaid) => return PackEnd::SayFault,
        }
        if room < count {
            return PackEnd::Bad { at: LONGEST_STREAM };
        }
        at += count as u64;
    }
}
