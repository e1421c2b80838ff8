ghost use Rattle.std.specs.Prelude.{◌≡◌};
ghost use Rattle.gts_app.specs.Ship as shipping;
ghost use Rattle.gts_app.specs.Ship.{ShipsFeed};
ghost use Rattle.gts_app.specs.Sound.{NoneFailed};

use crate::directory::directory_of;
use crate::opening::refusal;
use crate::{Status, World};
use gts_standby::{ShipFault, Since};
use gts_traits::{Source, Station};
use std::alloc::Global;

/// The status of how the feed was said.
fn status_of(shipped: Result<(), ShipFault>) -> Status
    ensures { result ≡ shipping.status_shipped shipped }
{
    match shipped {
        Ok(()) => Status::Done,
        Err(ShipFault::Open(fault)) => refusal(fault),
        Err(ShipFault::DiskFault) => Status::DiskFault,
        Err(ShipFault::SayFault) => Status::OutputFault,
        Err(ShipFault::NoMemory) => Status::NoMemory,
    }
}

/// Reads the directory, opens the journal, and says its feed on channel 0, for a standby station: all of it, or what is behind
/// what that station has. The files are synced, and not changed.
#[tactic(auto, using(crate::proofs::SoundLemmas::unread))]
pub fn ship<S: Source, P: Station>(
    alloc: Global,
    world: &mut World<S, S, P>,
    since: Option<Since>,
) -> Status
    ensures capture { world.new.capture ≡ world.old.capture }
    ensures ships { ShipsFeed since S.Source P.Station result
        world.old.directory world.old.station world.new.directory world.new.station }
    ensures sound { result ≡ Status.Done → NoneFailed S.Source P.Station world.old world.new }
{
    let accepted = match directory_of(alloc, &mut world.directory) {
        Ok(accepted) => accepted,
        Err(status) => return status,
    };
    match since {
        None => status_of(gts_standby::ship(alloc, &mut world.station, &accepted)),
        Some(since) => {
            let station = &mut world.station;
            status_of(gts_standby::ship_since(alloc, station, &accepted, &since))
        }
    }
}
