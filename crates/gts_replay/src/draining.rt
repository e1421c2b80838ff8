ghost use Rattle.std.specs.Prelude.{◌≡◌, ◌<◌, ◌^◌, ◌↔◌, ℕ, List, length, IsTrue};
ghost use Rattle.gts_replay.specs.Cited.{CountsCall, Entry, Goes, StandsFor, all_done, state_at, takes_of_drain};

use gts_calls::Switch;
use gts_event::{Outcome, SwitchFault};
use gts_frame::FrameBuf;

/// Takes on a circuit, up to and with the first that gives nothing. No circuit has more to give than is counted here.
pub(crate) fn drain<W: Switch>(
    switch: &mut W,
    c: u32,
    out: &mut FrameBuf,
) -> Result<(), SwitchFault>
    requires circuit { c < length (W.meanings.directory switch.old).circuits }
    ensures goes { (o : W.Origin) (first : ℕ) (h : List Entry)
        → StandsFor W.meanings o first h switch.old → Goes W.meanings o first h
        (all_done (takes_of_drain (state_at W.meanings switch.old o h) c)) result switch.new }
    ensures directory { W.meanings.directory switch.new ≡ W.meanings.directory switch.old }
    ensures cause { CountsCall W.Switch result switch.old switch.new }
{
    for _ in 0..u128::MAX {
        let outcome = switch.take(c, out)?;
        if is_nothing(outcome) {
            return Ok(());
        }
    }
    Ok(())
}

/// Whether a take gave nothing. The index of a draw is counted in 64 bits.
fn is_nothing(outcome: Outcome) -> bool
    ensures nothing { IsTrue result ↔ (outcome ≡ Outcome.Nothing) }
    ensures few { (index : ℕ) → outcome ≡ Outcome.Draw index → index < 2 ^ 64 }
{
    match outcome {
        Outcome::Nothing => true,
        Outcome::Draw { index: _index } => false,
        _ => false,
    }
}
