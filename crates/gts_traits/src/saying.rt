ghost use Rattle.std.specs.Prelude.{◌≡◌};
ghost use Rattle.gts_traits.specs.Cited.{AsksOutput, Tells, on};

use crate::{Channel, Failed, Station};

/// Says a piece on a channel. The files stay as they are; after `Failed` a front of the piece was said.
pub fn say<P: Station>(station: &mut P, channel: Channel, piece: &[u8]) -> Result<(), Failed>
    ensures told { P.observed → Tells result (on channel piece.now)
        (P.calls station.old) (P.calls station.new) }
    ensures cause { AsksOutput P.Station result station.old station.new }
{
    station.say(channel, piece)
}
