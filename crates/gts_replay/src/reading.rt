ghost use Rattle.std.specs.Prelude.{◌≡◌, ◌++◌, ℕ, IfOk, Err};
ghost use Rattle.gts_replay.specs.Cited.{CountsStep, HasSourceCause, IsBadAt, IsSameCapture, IsSettled, ReadsHead, SettlesFirst, StopsInHead, readable_from};
ghost use Rattle.gts_replay.specs.Heads.{head_of};
ghost use Rattle.gts_replay.specs.declared.fault.StepFault.TheVariants as step;

use crate::fault::StepFault;
use crate::{CaptureFault, Head, Steps};
use gts_calls::Switch;
use gts_traits::Source;

/// Reads the source for the head that comes next. It may wait, and so the switch has nothing gathered.
fn read_head<W: Switch, S: Source>(
    _switch: &W,
    capture: &mut S,
    steps: &mut Steps,
) -> Result<Head, CaptureFault>
    requires settled { IsSettled W.meanings _switch.now }
    requires taken { steps.old.feed ≡ 0 }
    ensures reads { IfOk result (λ head. ReadsHead S.observed (head_of head)
        steps.old steps.new (S.left capture.old) (S.left capture.new)) }
    ensures bad { S.observed → (at : ℕ) → result ≡ Err (CaptureFault.Bad at)
        → IsBadAt steps.old
        (readable_from steps.old.at (steps.old.ahead ++ S.left capture.old)) at }
    ensures source_fault { S.observed → result ≡ Err CaptureFault.SourceFault
        → StopsInHead steps.old steps.new (S.left capture.old) (S.left capture.new) }
    ensures same { IsSameCapture steps.old steps.new }
    ensures cause { HasSourceCause result (S.faults capture.old) (S.faults capture.new) }
{
    steps.next(capture)
}

/// The head that comes next. Where what was read holds none, what the switch gathered is settled, and the source is read.
pub(crate) fn next_head<W: Switch, S: Source>(
    switch: &mut W,
    capture: &mut S,
    steps: &mut Steps,
) -> Result<Head, StepFault>
    requires { steps.old.feed ≡ 0 }
    ensures reads { IfOk result (λ head. ReadsHead S.observed (head_of head)
        steps.old steps.new (S.left capture.old) (S.left capture.new)) }
    ensures bad { S.observed → (at : ℕ) → result ≡ Err (step.Capture (CaptureFault.Bad at))
        → IsBadAt steps.old
        (readable_from steps.old.at (steps.old.ahead ++ S.left capture.old)) at }
    ensures source_fault { S.observed → result ≡ Err (step.Capture CaptureFault.SourceFault)
        → StopsInHead steps.old steps.new (S.left capture.old) (S.left capture.new) }
    ensures same { IsSameCapture steps.old steps.new }
    ensures settles { SettlesFirst W.meanings result switch.old switch.new }
    ensures directory { W.meanings.directory switch.new ≡ W.meanings.directory switch.old }
    ensures cause { CountsStep W.Switch S.Source result switch.old switch.new
        capture.old capture.new }
{
    if let Ok(head) = steps.held_head() {
        return Ok(head);
    }
    if let Err(fault) = switch.settle() {
        return Err(StepFault::Switch(fault));
    }
    match read_head(switch, capture, steps) {
        Ok(head) => Ok(head),
        Err(fault) => Err(StepFault::Capture(fault)),
    }
}
