ghost use Rattle.std.specs.Prelude.{◌≡◌};
ghost use Rattle.gts_app.specs.Gaps as gapping;
ghost use Rattle.gts_app.specs.Cited.{NamesGaps, NoneFailed};

use crate::directory::directory_of;
use crate::{Status, World};
use gts_gap::{GapsEnd, Moment};
use gts_traits::{Source, Station};
use std::alloc::Global;

/// The status of how the missing numbers were named.
fn status_of(end: GapsEnd) -> Status
    ensures { result ≡ gapping.status_named end }
{
    match end {
        GapsEnd::Done => Status::Done,
        GapsEnd::Capture { at } => Status::Capture { at },
        GapsEnd::SourceFault => Status::InputFault,
        GapsEnd::SayFault => Status::OutputFault,
        GapsEnd::NoMemory => Status::NoMemory,
    }
}

/// Reads the directory, and then a capture through its end, and says which numbers are missing on each circuit, and the requests
/// for them: lines on channel 0, the request of circuit c on channel c + 1. The files of the journal are not looked at.
#[tactic(auto, using(crate::proofs::SoundLemmas::unread))]
pub fn gaps<S: Source, P: Station>(
    alloc: Global,
    world: &mut World<S, S, P>,
    moment: Moment,
) -> Status
    ensures names { NamesGaps S.Source P.Station moment result world.old world.new }
    ensures sound { result ≡ Status.Done → NoneFailed S.Source P.Station world.old world.new }
{
    let directory = match directory_of(alloc, &mut world.directory) {
        Ok(directory) => directory,
        Err(status) => return status,
    };
    status_of(gts_gap::gaps(
        alloc,
        &directory,
        moment,
        &mut world.capture,
        &mut world.station,
    ))
}
