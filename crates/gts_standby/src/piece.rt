ghost use Rattle.std.specs.Prelude.{◌≡◌, ◌≤◌, ◌<◌, ◌-◌, ◌^◌, length, take, drop, IfErr};
ghost use Rattle.gts_standby.specs.Cited.{AsksOutput, AsksToShip, IsNamed, IsQuiet, Speaks, seen};

use crate::ShipFault;
use gts_journal::OpenFault;
use gts_traits::{Channel, Failed, JournalFile, Station};

/// How many bytes of a file are read and said at once.
const PIECE: usize = 4096;

/// Says a piece on the operator's channel.
fn say_piece<P: Station>(station: &mut P, piece: &[u8]) -> Result<(), ShipFault>
    ensures told { P.observed → Speaks result (P.calls station.old)
        (P.calls station.new) piece.now }
    ensures kind { IfErr result (λ e. e ≡ ShipFault.SayFault) }
    ensures cause { AsksOutput P.Station result station.old station.new }
{
    match station.say(Channel::OPERATOR, piece) {
        Ok(()) => Ok(()),
        Err(Failed) => Err(ShipFault::SayFault),
    }
}

/// Says the bytes of a file from one place to another, in pieces. Bytes that aren't there are damage, at the first place of a
/// piece that isn't whole.
pub(crate) fn say_part<P: Station>(
    station: &mut P,
    file: JournalFile,
    from: u64,
    to: u64,
) -> Result<(), ShipFault>
    requires order { from ≤ to }
    requires room { to ≤ 2 ^ 41 }
    requires there { P.observed → to ≤ length (seen (P.calls station.old) file) }
    ensures told { P.observed → Speaks result (P.calls station.old) (P.calls station.new)
        (take (to - from) (drop from (seen (P.calls station.old) file))) }
    ensures kind { P.observed → IfErr result IsQuiet }
    ensures named { IfErr result IsNamed }
    ensures cause { AsksToShip P.Station result station.old station.new }
{
    let mut piece = [0u8; PIECE];
    let mut at = from;
    while at < to {
        let count = (to - at).min(PIECE as u64) as usize;
        let part = &mut piece[..count];
        let found = station.read(file, at, part)?;
        if found < count {
            return Err(ShipFault::Open(OpenFault::Damaged {
                file: file.number(),
                at,
            }));
        }
        say_piece(station, part)?;
        at += count as u64;
    }
    Ok(())
}
