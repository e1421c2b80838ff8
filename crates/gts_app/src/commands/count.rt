ghost use Rattle.std.specs.Prelude.{◌≡◌, IfOk, IfErr, IsTrue};
ghost use Rattle.gts_app.specs.Cited.{CountsEngine, CountsTraffic, EndsWithoutTable, Need as NeedOf, Needs, NoneFailed, ShowsTable, is_sound};

use crate::commands::replay::status_of;
use crate::commands::show::status_said;
use crate::laws::a_history_keeps_its_laws;
use crate::opening::open_engine;
use crate::world::Handed;
use crate::{Ended, Status, World};
use gts_calls::Switch;
use gts_connection::CaptureKind;
use gts_count::{Counted, counting_of};
use gts_engine::Engine;
use gts_event::a_start_is_its_own_need;
use gts_replay::ReplayEnd;
use gts_traits::{Channel, NoMemory, Source, Station};
use std::alloc::Global;

/// An engine that was just opened, with what is counted of its need beside it. Want of memory hands the engine back.
fn count_beside<P: Station>(
    alloc: Global,
    engine: Engine<P>,
) -> Result<Counted<Engine<P>>, Engine<P>>
    requires { (n : NeedOf) → Needs engine.core n → IsTrue (is_sound engine.directory n) }
    ensures switch { IfOk result (λ c. c.parts.switch ≡ engine) }
    ensures counts { IfOk result (λ c. CountsEngine c.parts) }
    ensures err { IfErr result (λ e. e ≡ engine) }
{
    let Ok(need) = engine.need(alloc) else {
        return Err(engine);
    };
    match counting_of(alloc, engine.directory(), &need) {
        Ok(counting) => Ok(Counted::beside(engine, counting)),
        Err(NoMemory) => Err(engine),
    }
}

/// The table behind a capture whose run ended so: where it was done. Else the status that the command has.
fn table_behind<T: Switch>(
    alloc: Global,
    end: ReplayEnd,
    counted: &Counted<T>,
) -> Result<Vec<u8>, Status>
    ensures table { IfOk result (λ text. (end ≡ ReplayEnd.Done)
        × ShowsTable T.meanings counted.now.parts text.items) }
    ensures none { IfErr result (EndsWithoutTable end) }
{
    if end != ReplayEnd::Done {
        return Err(status_of(end));
    }
    match counted.text(alloc) {
        Ok(text) => Ok(text),
        Err(NoMemory) => Err(Status::NoMemory),
    }
}

/// Does what `replay` does with a capture that has no `R` and no `C`, and once it is done says a table of the traffic behind it
/// on channel 0.
pub fn count<S: Source, P: Station>(alloc: Global, mut world: World<S, S, P>) -> Ended<S, P>
    ensures counts { CountsTraffic S.Source P.Station result.status world result.world }
    ensures sound { result.status ≡ Status.Done
        → NoneFailed S.Source P.Station world result.world }
{
    // The laws that hold of all that a history comes to; and what the engine's core holds is what the files open to.
    a_history_keeps_its_laws();
    a_start_is_its_own_need();
    let station = world.station;
    let engine = match open_engine(alloc, &mut world.directory, station) {
        Ok(engine) => engine,
        Err(Handed { status, station }) => {
            let world = World { station, ..world };
            return Ended { status, world };
        }
    };
    // A directory has few circuits, so a capture has one reading.
    let _few = Switch::circuits(&engine);
    let mut counted = match count_beside(alloc, engine) {
        Ok(counted) => counted,
        Err(engine) => {
            let (station, _directory) = engine.into_parts();
            let status = Status::NoMemory;
            let world = World { station, ..world };
            return Ended { status, world };
        }
    };
    let capture = &mut world.capture;
    let end = gts_replay::replay(alloc, &mut counted, capture, CaptureKind::Traffic);
    let table = table_behind(alloc, end, &counted);
    let engine = counted.into_inner();
    // The files open with as many bytes in use as the engine counts.
    let _used = engine.used();
    let (station, _directory) = engine.into_parts();
    let mut world = World { station, ..world };
    match table {
        Err(status) => Ended { status, world },
        Ok(table) => {
            let status = status_said(world.station.say(Channel::OPERATOR, table.as_slice()));
            Ended { status, world }
        }
    }
}
