//! Several takes on one circuit, one behind another in one turn.
ghost use Rattle.std.specs.Prelude.{◌≡◌, ◌<◌, ◌≤◌, ◌++◌, [], length, slice_index_or, map};
ghost use Rattle.gts_circuits.specs.Cited.{GoesOnTaking, HasRoom, TurnsTaken, count_of, frames_by, frames_of, gives};

use crate::hall::began::Began;
use crate::hall::housed::Housed;
use gts_calls::Given;
use gts_engine::SayMode;
use gts_event::{Outcome, SwitchFault};
use gts_traits::Station;

/// Takes on circuit `c`, one after another, as many as its row repeats at most, while there is room in `given` for a frame more. Those
/// behind the first are taken only where their records may go into the journal together with its own. All is settled then; where the disk
/// fails at that, nothing was given. Answers whether there may be more. Takes no memory.
pub(crate) fn take_some<P: Station, B: Began>(
    housed: &mut Housed<P, B>,
    c: u32,
    given: &mut Given,
) -> Result<bool, SwitchFault>
    requires circuit { c < length housed.old.engine.directory.circuits }
    ensures left { TurnsTaken P.Station B.beginning c (frames_of given.new.frames) result
        housed.old.engine housed.new.engine }
    ensures mode { housed.new.makes_room ≡ housed.old.makes_room }
{
    given.frames.clear();
    let most = housed.engine.directory().circuit(c).repeat as usize;
    let first = housed
        .engine
        .gather_take(c, &mut given.one, SayMode::Caller)?;
    let gave = keep(given, first);
    let more = take_behind(housed, c, most, gave, given);
    if let Err(fault) = housed.engine.settle() {
        given.frames.clear();
        return Err(fault);
    }
    Ok(more)
}

/// Keeps the frame of a take with this outcome. Answers whether it gave one.
fn keep(given: &mut Given, outcome: Outcome) -> bool
    requires room { HasRoom given.old.frames }
    ensures frames { frames_of given.new.frames
        ≡ frames_of given.old.frames ++ frames_by outcome given.old.one }
    ensures gave { result ≡ gives outcome }
{
    match outcome {
        Outcome::Resend { index } | Outcome::Draw { index } => {
            given.one.holds_a_frame_at_most();
            given.frames.add(index, given.one.bytes());
            true
        }
        _ => false,
    }
}

/// Goes on behind takes of which the last gave something or nothing, while something was given, up to so many in all. Answers whether
/// the last one gave something.
fn take_behind<P: Station, B: Began>(
    housed: &mut Housed<P, B>,
    c: u32,
    most: usize,
    gave: bool,
    given: &mut Given,
) -> bool
    requires circuit { c < length housed.old.engine.directory.circuits }
    requires few { count_of (frames_of given.old.frames) gave ≤ most }
    ensures taken { GoesOnTaking P.Station B.beginning c
        (frames_of given.old.frames) gave housed.old.engine
        (frames_of given.new.frames) result housed.new.engine }
    ensures few { count_of (frames_of given.new.frames) result ≤ most }
    ensures mode { housed.new.makes_room ≡ housed.old.makes_room }
{
    let mut gave = gave;
    while gave && given.frames.count() < most && given.frames.has_room() {
        let Some(outcome) = housed.engine.take_behind(c, &mut given.one) else {
            return true;
        };
        gave = keep(given, outcome);
    }
    gave
}
