ghost use Rattle.std.specs.Prelude.{◌≡◌, ◌<◌, ◌≤◌, length};
ghost use Rattle.gts_replay.specs.Cited.{CountsRun, CountsSettling, CountsStep, Decode, DoesStep, EndsRun, EndsUnsettled, IsHeadIn, SettlesBehind, at_start, bytes_announced, no_bytes};
ghost use Rattle.gts_replay.specs.Heads.{head_of};

use crate::decoders::reopen_all;
use crate::draining::drain;
use crate::end::{ReplayEnd, end_after};
use crate::fault::StepFault;
use crate::feeding::feed;
use crate::reading::next_head;
use crate::room::Room;
use crate::{Head, Steps};
use gts_calls::Switch;
use gts_connection::CaptureKind;
use gts_traits::Source;
use std::alloc::Global;

/// Runs a capture of this kind through a switch, up to its end or the first fault: bytes that come are heard frame by frame,
/// each circuit over a connection of its own; takes, drains, restarts and compactions are the switch's. What feeds, takes and
/// drains do may be gathered; it is settled before the source is read, which may wait, before the journal is opened again or
/// compacted, and at the end. Decoders, the room for a frame and that for a piece of a feed are made before the first step.
pub fn replay<W: Switch, S: Source>(
    alloc: Global,
    switch: &mut W,
    capture: &mut S,
    kind: CaptureKind,
) -> ReplayEnd
    ensures ends { EndsRun W.Switch S.Source kind result switch.old switch.new
        capture.old capture.new }
    ensures directory { W.meanings.directory switch.new ≡ W.meanings.directory switch.old }
    ensures cause { CountsRun W.Switch S.Source result switch.old switch.new
        capture.old capture.new }
{
    let circuits = switch.circuits();
    let Ok(mut room) = Room::new(alloc, circuits) else {
        return ReplayEnd::NoMemory;
    };
    let mut steps = Steps::new(circuits, kind);
    let end = run(alloc, switch, capture, &mut steps, &mut room);
    settle_behind(switch, end)
}

/// Settles what a run gathered that ended so, where the switch answered with no fault. After one nothing is gathered.
fn settle_behind<W: Switch>(switch: &mut W, end: ReplayEnd) -> ReplayEnd
    ensures settles { SettlesBehind W.meanings end result switch.old switch.new }
    ensures directory { W.meanings.directory switch.new ≡ W.meanings.directory switch.old }
    ensures cause { CountsSettling W.Switch end result switch.old switch.new }
{
    match end {
        ReplayEnd::Done | ReplayEnd::Capture { .. } | ReplayEnd::SourceFault => {
            match switch.settle() {
                Ok(()) => end,
                Err(fault) => ReplayEnd::Fault(fault),
            }
        }
        _ => end,
    }
}

/// Does the steps of a capture, one after another. Its end is said by what it is once it was settled.
fn run<W: Switch, S: Source>(
    alloc: Global,
    switch: &mut W,
    capture: &mut S,
    steps: &mut Steps,
    room: &mut Room,
) -> ReplayEnd
    requires begins { steps.old
        ≡ at_start (length (W.meanings.directory switch.old).circuits) steps.old.kind }
    requires few { length (W.meanings.directory switch.old).circuits ≤ 100 }
    requires decode { Decode room.old.decoders.items (no_bytes (W.meanings.directory switch.old)) }
    ensures ends { EndsUnsettled W.Switch S.Source steps.old.kind result switch.old switch.new
        capture.old capture.new }
    ensures directory { W.meanings.directory switch.new ≡ W.meanings.directory switch.old }
    ensures cause { CountsRun W.Switch S.Source result switch.old switch.new
        capture.old capture.new }
{
    for _ in 0..u64::MAX {
        let head = match next_head(switch, capture, steps) {
            Ok(Head::End) => return ReplayEnd::Done,
            Ok(head) => head,
            Err(fault) => return end_after(fault),
        };
        if let Err(fault) = do_step(alloc, switch, capture, steps, room, head) {
            return end_after(fault);
        }
    }
    // No capture that is told has so many steps.
    ReplayEnd::Capture { at: u64::MAX }
}

/// Does the step of a head that was read.
fn do_step<W: Switch, S: Source>(
    alloc: Global,
    switch: &mut W,
    capture: &mut S,
    steps: &mut Steps,
    room: &mut Room,
    head: Head,
) -> Result<(), StepFault>
    requires valid { let d = W.meanings.directory switch.old in
        IsHeadIn (length d.circuits) steps.old.kind (head_of head) }
    requires some { head ≡ Head.End → ⊥ }
    requires feed { steps.old.feed ≡ bytes_announced (head_of head) }
    requires decoders { length room.old.decoders.items
        ≡ length (W.meanings.directory switch.old).circuits }
    ensures does { DoesStep W.meanings W.observed S.observed
        (head_of head) result steps.old steps.new (S.left capture.old) (S.left capture.new)
        room.old.decoders.items room.new.decoders.items switch.old switch.new }
    ensures directory { W.meanings.directory switch.new ≡ W.meanings.directory switch.old }
    ensures cause { CountsStep W.Switch S.Source result switch.old switch.new
        capture.old capture.new }
{
    match head {
        Head::Feed { c, .. } => {
            let decoder = &mut room.decoders[c as usize];
            return feed(alloc, switch, c, decoder, steps, capture, &mut room.piece);
        }
        Head::Take { c } => {
            if let Err(fault) = switch.take(c, &mut room.frame) {
                return Err(StepFault::Switch(fault));
            }
        }
        Head::Drain { c } => {
            if let Err(fault) = drain(switch, c, &mut room.frame) {
                return Err(StepFault::Switch(fault));
            }
        }
        Head::Reopen { c } => room.decoders[c as usize].reopen(),
        Head::Restart => {
            if let Err(fault) = switch.settle() {
                return Err(StepFault::Switch(fault));
            }
            if let Err(fault) = switch.restart(alloc) {
                return Err(StepFault::Reopen(fault));
            }
            reopen_all(&mut room.decoders);
        }
        Head::Compact => {
            if let Err(fault) = switch.settle() {
                return Err(StepFault::Switch(fault));
            }
            if let Err(fault) = switch.compact(alloc) {
                return Err(StepFault::Compaction(fault));
            }
        }
        Head::End => {}
    }
    Ok(())
}
