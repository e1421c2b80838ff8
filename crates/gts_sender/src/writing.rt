ghost use Rattle.std.specs.Prelude.{◌≡◌, ℕ, List};
ghost use Rattle.gts_sender.specs.Cited.{HasCause, HasSendCause, SinkTook, Wrote, WroteFrames, frames_of};

use crate::SendEnd;
use gts_calls::Frames;
use gts_traits::{Failed, Sink};

/// Writes all of a piece, in as few calls as the sink takes. What was written of it is never written again.
pub(crate) fn write_all<K: Sink>(sink: &mut K, piece: &[u8]) -> Result<(), Failed>
    ensures written { (bytes : List ℕ) × Wrote result piece.now bytes
        × SinkTook K.Sink sink.old sink.new bytes }
    ensures cause { HasCause result (K.faults sink.old) (K.faults sink.new) }
{
    let mut rest = piece;
    while !rest.is_empty() {
        let count = sink.write(rest)?;
        rest = &rest[count..];
    }
    Ok(())
}

/// Writes frames, one after another. Where the line fails within one, those behind it are not written.
pub(crate) fn write_frames<K: Sink>(sink: &mut K, frames: &Frames) -> Result<(), SendEnd>
    ensures wrote { (bytes : List ℕ) × WroteFrames (frames_of frames.now) bytes result
        × SinkTook K.Sink sink.old sink.new bytes }
    ensures cause { HasSendCause K.Sink result sink.old sink.new }
{
    let mut at = 0;
    for i in 0..frames.count() {
        let (index, frame) = frames.frame(i, at);
        let Ok(()) = write_all(sink, frame) else {
            return Err(SendEnd::LineFault { index });
        };
        at += frame.len();
    }
    Ok(())
}
