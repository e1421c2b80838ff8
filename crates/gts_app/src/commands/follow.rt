ghost use Rattle.std.specs.Prelude.{◌≡◌};
ghost use Rattle.gts_app.specs.Follow as following;
ghost use Rattle.gts_app.specs.Cited.{FollowsFeed, NoneFailed};

use crate::directory::directory_of;
use crate::opening::refusal;
use crate::{Ended, Status, World};
use gts_standby::FollowEnd;
use gts_traits::{Source, Station};
use std::alloc::Global;

/// The status of how a feed was taken.
fn status_of(end: FollowEnd) -> Status
    ensures { result ≡ following.status_followed end }
{
    match end {
        FollowEnd::Done => Status::Done,
        FollowEnd::Open(fault) => refusal(fault),
        FollowEnd::Feed { at } => Status::Feed { at },
        FollowEnd::Diverged { index, own, fed } => Status::OtherFeed { index, own, fed },
        FollowEnd::SourceFault => Status::InputFault,
        FollowEnd::DiskFault => Status::DiskFault,
        FollowEnd::NoMemory => Status::NoMemory,
    }
}

/// Reads the directory, opens the journal, and takes the feed of another station's journal into it: what both have is compared,
/// and what the own one doesn't have is checked and appended. Nothing is said.
#[tactic(auto, using(crate::proofs::SoundLemmas::unread))]
pub fn follow<S: Source, P: Station>(alloc: Global, mut world: World<S, S, P>) -> Ended<S, P>
    ensures follows { FollowsFeed S.Source P.Station result.status world result.world }
    ensures sound { result.status ≡ Status.Done
        → NoneFailed S.Source P.Station world result.world }
{
    let accepted = match directory_of(alloc, &mut world.directory) {
        Ok(accepted) => accepted,
        Err(status) => return Ended { status, world },
    };
    let station = world.station;
    let feed = &mut world.capture;
    let (station, end) = gts_standby::follow(alloc, station, &accepted, feed);
    let status = status_of(end);
    let world = World { station, ..world };
    Ended { status, world }
}
