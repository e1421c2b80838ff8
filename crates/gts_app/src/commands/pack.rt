ghost use Rattle.std.specs.Prelude.{◌≡◌};
ghost use Rattle.gts_app.specs.Pack as packing;
ghost use Rattle.gts_app.specs.Cited.{NoneFailed, PacksStream};

use crate::directory::directory_of;
use crate::{Status, World};
use gts_accum::PackEnd;
use gts_traits::{Source, Station};
use std::alloc::Global;

/// The status of how packing a stream ended.
fn status_of(end: PackEnd) -> Status
    ensures { result ≡ packing.status_packed end }
{
    match end {
        PackEnd::Done => Status::Done,
        PackEnd::Bad { at } => Status::File { at },
        PackEnd::SourceFault => Status::InputFault,
        PackEnd::SayFault => Status::OutputFault,
        PackEnd::NoMemory => Status::NoMemory,
    }
}

/// Reads the directory, and then a stream of frames, and says the file of its messages on channel 0. The files of the journal
/// are not looked at.
#[tactic(auto, using(crate::proofs::SoundLemmas::unread))]
pub fn pack<S: Source, P: Station>(alloc: Global, world: &mut World<S, S, P>) -> Status
    ensures packs { PacksStream S.Source P.Station result world.old world.new }
    ensures sound { result ≡ Status.Done → NoneFailed S.Source P.Station world.old world.new }
{
    // Nothing is asked of the directory here: it has to be accepted.
    let _accepted = match directory_of(alloc, &mut world.directory) {
        Ok(accepted) => accepted,
        Err(status) => return status,
    };
    let packed = gts_accum::pack(alloc, &mut world.capture, &mut world.station);
    status_of(packed)
}
