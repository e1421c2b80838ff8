ghost use Rattle.std.specs.Prelude.{◌≡◌, ◌-◌, ◌^◌, min, length, IfOk, IfErr, OnOk, IsTrue};
ghost use Rattle.gts_migrate.specs.Cited.{AnswersWaiting, GivesRoomFor, HasFewDue, Holds, IsBrought, IsPreparedFaultOf, IsRoomFaultOf, IsSaidFaultOf, IsSizeAt, IsStart, IsToSay, State, TakesOver, checkpoint_text, goes_on, keeps_one, left_behind, need as need_at, need_of, on, sayings, waits_on_closed};

use crate::bringing::bring_over;
use crate::dropping::receipts;
use crate::leaving::{check_waiting, count_waiting};
use crate::{MigrateFault, Waiting};
use gts_checkpoint::size;
use gts_core::{Core, a_core_has_the_waiting_draws_of_its_state};
use gts_directory::Directory;
use gts_engine::check_checkpoint;
use gts_event::Need;
use std::alloc::Global;

/// What is to be written, and what is to be said.
#[derive(Drop)]
pub(crate) struct Prepared {
    /// The need under the new directory.
    pub need: Need,
    /// The bytes of its checkpoint.
    pub size: u64,
    /// The receipts of what is dropped.
    pub receipts: Vec<u8>,
}

/// Whether a checkpoint of this size leaves room for all draws that are due, but for so many that are let go, under the limit of
/// the new directory.
fn check_room(
    core: &Core,
    old: &Directory,
    new: &Directory,
    size: u64,
    left: u64,
) -> Result<(), MigrateFault>
    requires takes { TakesOver new.now old.now }
    requires due { HasFewDue old.now core.now }
    requires left { (s : State) → Holds old.now core.now s
        → left ≡ left_behind new.now (need_at old.now s) }
    ensures room { (s : State) → Holds old.now core.now s
        → let t = goes_on new.now old.now (need_at old.now s) in
        IsSizeAt new.now t size → GivesRoomFor result new.now t }
    ensures kind { IfErr result IsRoomFaultOf }
{
    let _ = old;
    a_core_has_the_waiting_draws_of_its_state();
    check_checkpoint(new, size, core.waiting() - left)?;
    Ok(())
}

/// The receipts of what waits on closed circuits, where that is dropped. Where it is refused, none; and a fault where something
/// waits there.
fn said_of(
    alloc: Global,
    need: &Need,
    new: &Directory,
    waiting: Waiting,
) -> Result<Vec<u8>, MigrateFault>
    requires { IsStart (need_of need.now) }
    ensures text { IfOk result (λ text.
        on 0 text.items ≡ sayings waiting new.now (need_of need.now)) }
    ensures waiting { AnswersWaiting waiting result (waits_on_closed new.now (need_of need.now)) }
    ensures kind { IfErr result IsSaidFaultOf }
{
    match waiting {
        Waiting::Refused => {
            check_waiting(need, new)?;
            Ok(Vec::new(alloc))
        }
        Waiting::Dropped => Ok(receipts(alloc, need, new)?),
    }
}

/// The need that a core has under the new directory, with the size of its checkpoint, for which there is room, and the receipts
/// of what is dropped. Where nothing is to be dropped, refused where something waits on a circuit that is closed there.
pub(crate) fn prepare(
    alloc: Global,
    core: &Core,
    old: &Directory,
    new: &Directory,
    waiting: Waiting,
) -> Result<Prepared, MigrateFault>
    requires takes { TakesOver new.now old.now }
    requires due { HasFewDue old.now core.now }
    ensures brought { IfOk result (λ found.
        IsBrought old.now new.now core.now (need_of found.need)) }
    ensures keeps { OnOk result (IsTrue (keeps_one new.now)) }
    ensures size { IfOk result (λ found.
        found.size ≡ min (length (checkpoint_text (need_of found.need))) (2 ^ 64 - 1)) }
    ensures text { IfOk result (λ found.
        IsToSay waiting old.now new.now core.now (on 0 found.receipts.items)) }
    ensures waiting { (s : State) → Holds old.now core.now s
        → AnswersWaiting waiting result (waits_on_closed new.now (need_at old.now s)) }
    ensures room { (s : State) → Holds old.now core.now s
        → GivesRoomFor result new.now (goes_on new.now old.now (need_at old.now s)) }
    ensures kind { IfErr result IsPreparedFaultOf }
{
    let need = core.need(alloc)?;
    let receipts = said_of(alloc, &need, new, waiting)?;
    let left = count_waiting(&need, new);
    let brought = bring_over(alloc, need, old, new)?;
    let size = size(&brought);
    check_room(core, old, new, size, left)?;
    Ok(Prepared {
        need: brought,
        size,
        receipts,
    })
}
