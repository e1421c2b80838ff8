ghost use Rattle.std.specs.Prelude.{◌≡◌, ◌≤◌, ℕ, [], Err, IfOk, OnOk, replicate};
ghost use Rattle.gts_generate.specs.Cited.{BeginsDay, EndsDay, IsFullOn, calls_of, new_journal, said_by, seen};
ghost use Rattle.gts_generate.specs.History as day;
ghost use Rattle.gts_generate.specs.declared.day.DayFault.TheVariants as faults;

use crate::MOST_MESSAGES;
use crate::directory::generated_directory;
use crate::generated::Generated;
use crate::laws::the_capture_is_read_as_its_steps;
use crate::summing::summary;
use gts_connection::CaptureKind;
use gts_engine::{Engine, an_opened_engine_begins_with_what_the_files_open_to};
use gts_event::{
    SwitchFault, each_bulletin_is_routed_once, no_circuit_is_owed_more_than_may_be,
    states_are_ordered,
};
use gts_journal::Journal;
use gts_memory::MemStation;
use gts_replay::{ReplayEnd, replay};
use gts_report::ReportText;
use gts_traits::NoMemory;
use std::alloc::Global;

/// Why a day came to no summary.
#[derive(Clone, Copy, Debug, PartialEq, Eq)]
pub enum DayFault {
    /// The journal is full for a message of it: the bytes in use, those that it and all draws due then take, and the most
    /// that may be.
    Full { used: u64, need: u64, limit: u64 },
    /// There was no memory.
    NoMemory,
}

impl From<NoMemory> for DayFault {
    ghost from_gives = { λ _ e. e ≡ faults.NoMemory };

    fn from(_: NoMemory) -> DayFault {
        DayFault::NoMemory
    }
}

/// A station whose files are an empty journal of the directory with this mark. In memory, writing it fails only for want of
/// memory.
fn empty_journal(alloc: Global, mark: [u8; 32]) -> Result<MemStation, NoMemory>
    ensures journal { IfOk result (λ station.
        seen (calls_of station.past) 0 ≡ new_journal mark) }
    ensures selector { IfOk result (λ station. seen (calls_of station.past) 2 ≡ []) }
    ensures silent { IfOk result (λ station. said_by (calls_of station.past) ≡ []) }
{
    let mut station = MemStation::new(alloc, &[])?;
    Journal::init(&mut station, mark).map_err(|_| NoMemory)?;
    Ok(station)
}

/// The switch of the day's centre over an empty journal in memory.
fn begin(alloc: Global) -> Result<Engine<MemStation>, NoMemory>
    ensures { IfOk result (λ engine. BeginsDay engine) }
{
    // The laws that hold where a history begins.
    states_are_ordered();
    each_bulletin_is_routed_once();
    no_circuit_is_owed_more_than_may_be();
    an_opened_engine_begins_with_what_the_files_open_to::<MemStation>();
    let directory = generated_directory(alloc)?;
    let station = empty_journal(alloc, directory.mark())?;
    Engine::open(alloc, station, directory).map_err(|_| NoMemory)
}

/// Runs the capture of a day of so many messages. It is a whole capture, and is read without a fault; in memory, the disk and
/// saying fail only for want of memory.
fn run(alloc: Global, count: u32, engine: &mut Engine<MemStation>) -> Result<(), DayFault>
    requires few { count ≤ MOST_MESSAGES }
    requires begins { BeginsDay engine.old }
    ensures done { OnOk result (EndsDay count engine.new) }
    ensures full { (used need limit : ℕ) → result ≡ Err (DayFault.Full used need limit)
        → IsFullOn count used need limit }
{
    the_capture_is_read_as_its_steps();
    let mut capture = Generated::new(count);
    match replay(alloc, engine, &mut capture, CaptureKind::Journaled) {
        ReplayEnd::Done => Ok(()),
        ReplayEnd::Fault(SwitchFault::Full { used, need, limit }) => {
            Err(DayFault::Full { used, need, limit })
        }
        ReplayEnd::Capture { .. } | ReplayEnd::SourceFault => unreachable!(),
        ReplayEnd::Reopen(_)
        | ReplayEnd::Compaction(_)
        | ReplayEnd::Fault(_)
        | ReplayEnd::NoMemory => Err(DayFault::NoMemory),
    }
}

/// The summary of a day of so many messages that was done.
fn summarised(alloc: Global, count: u32, engine: Engine<MemStation>) -> Result<ReportText, NoMemory>
    requires few { count ≤ MOST_MESSAGES }
    requires ends { EndsDay count engine }
    ensures { IfOk result (λ text. text ≡ day.day_summary count) }
{
    let need = engine.need(alloc)?;
    let used = engine.used();
    let (station, _directory) = engine.into_parts();
    let mut text = ReportText::new();
    summary(alloc, count, &station, &need, used, &mut text)?;
    Ok(text)
}

/// Runs a day of so many messages over a switch in memory, which begins with nothing, and gives the summary of its history.
/// `Full` where the journal is full for a message of it.
pub fn day_summary(alloc: Global, count: u32) -> Result<ReportText, DayFault>
    requires { count ≤ MOST_MESSAGES }
    ensures text { IfOk result (λ text. text ≡ day.day_summary count) }
    ensures full { (used need limit : ℕ) → result ≡ Err (DayFault.Full used need limit)
        → IsFullOn count used need limit }
{
    let mut engine = begin(alloc)?;
    run(alloc, count, &mut engine)?;
    Ok(summarised(alloc, count, engine)?)
}
