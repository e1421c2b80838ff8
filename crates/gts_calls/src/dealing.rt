ghost use Rattle.std.specs.Prelude.{◌≡◌, ◌<◌, ℕ, List, length};
ghost use Rattle.gts_calls.specs.Cited.{CountsFeed, EndsStep, FeedsBehind, HasMessage, IsShortAt, answer_of, end_heard, end_lost, events_of_signs, signs_of_step};

use crate::{FeedEnd, Listens};
use gts_event::{Outcome, SwitchFault};
use gts_frame::{FrameField, Kind, Step};
use std::alloc::Global;

/// What a step of a circuit's decoder came to is dealt with: a message is heard, a loss is entered.
pub fn deal<W: Listens>(
    alloc: Global,
    switch: &mut W,
    c: u32,
    step: Step,
    message: &[u8],
) -> FeedEnd
    requires circuit { c < length (W.meanings.directory switch.old).circuits }
    requires message { HasMessage step message.now }
    ensures goes { FeedsBehind W.meanings c
        (events_of_signs c (signs_of_step step message.now)) message.now result
        switch.old switch.new }
    ensures ends { EndsStep step result }
    ensures short { IsShortAt result message.now }
    ensures directory { W.meanings.directory switch.new ≡ W.meanings.directory switch.old }
    ensures cause { CountsFeed W.Listens (answer_of result) switch.old switch.new }
{
    match step {
        Step::Frame(kind) => after_hearing(kind, switch.listen(alloc, c, kind, message)),
        Step::Lost(field) => after_loss(field, switch.note_loss(c, field)),
        Step::More | Step::KeepAlive | Step::Dropped => FeedEnd::All,
    }
}

/// How a feed goes on behind a message that was answered so.
fn after_hearing(kind: Kind, answer: Result<Outcome, SwitchFault>) -> FeedEnd
    ensures { result ≡ end_heard kind answer }
{
    match answer {
        Ok(_) => FeedEnd::All,
        Err(SwitchFault::DiskFault) => FeedEnd::Fault(SwitchFault::DiskFault),
        Err(SwitchFault::SayFault) => FeedEnd::Fault(SwitchFault::SayFault),
        Err(SwitchFault::Stopped { by }) => FeedEnd::Fault(SwitchFault::Stopped { by }),
        Err(SwitchFault::Spent) => FeedEnd::Fault(SwitchFault::Spent),
        Err(fault) => FeedEnd::Wanting { kind, fault },
    }
}

/// How a feed ends behind a loss of synchronisation that was answered so.
fn after_loss(field: FrameField, answer: Result<Outcome, SwitchFault>) -> FeedEnd
    ensures { result ≡ end_lost field answer }
{
    match answer {
        Ok(_) => FeedEnd::Lost { field },
        Err(fault) => FeedEnd::Fault(fault),
    }
}
