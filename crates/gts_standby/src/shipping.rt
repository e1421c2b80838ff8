ghost use Rattle.std.specs.Prelude.{◌≡◌, ◌<◌, ◌^◌, ℕ, false, List, IfOk, IfErr, OnOk};
ghost use Rattle.gts_standby.specs.Cited.{AsksToShip, HasOpened, IsAtFirst, IsNamed, IsShipFault, OnlySyncsUnopened, SaysOne, SaysRest, ShipsOnly, StandsOn, behind_header, feed, feed_of, file_of, since_of};

use crate::ShipFault;
use crate::piece::say_part;
use crate::records::say_records;
use crate::since::{Since, look_for};
use gts_checkpoint::read;
use gts_directory::Directory;
use gts_journal::Journal;
use gts_record::HEADER;
use gts_recovery::open_core;
use gts_traits::Station;
use std::alloc::Global;

/// Says the checkpoint with its seal, if the journal begins with one, and goes on behind it. The records come to a closed gate at
/// a place.
fn say_checkpoint<P: Station>(
    alloc: Global,
    station: &mut P,
    directory: &Directory,
    journal: &mut Journal,
    end: u64,
) -> Result<(), ShipFault>
    requires going { journal.old.ended ≡ false }
    requires stands { P.observed → StandsOn (P.calls station.old) journal.old }
    requires first { P.observed
        → IsAtFirst directory.now (P.calls station.old) journal.old end }
    ensures said { P.observed → SaysOne result directory.now (P.calls station.old)
        (P.calls station.new) journal.new end
        (behind_header directory.now (P.calls station.old) journal.old) }
    ensures going { OnOk result (journal.new.ended ≡ false) }
    ensures stands { P.observed → OnOk result (StandsOn (P.calls station.new) journal.new) }
    ensures named { IfErr result IsNamed }
    ensures cause { AsksToShip P.Station result station.old station.new }
{
    let _ = end;
    if !journal.at_checkpoint() {
        return Ok(());
    }
    // A limit is low enough for the place of the gate.
    directory.bounds_hold();
    let file = journal.file();
    let found = read(alloc, station, journal.version(), file, directory)?;
    say_part(station, file, HEADER as u64 + 1, found.1)?;
    journal.pass(found.1, found.2);
    Ok(())
}

/// Says the feed of a journal that stands at its first gate, whose records come to a closed gate at a place.
fn say_feed<P: Station>(
    alloc: Global,
    station: &mut P,
    directory: &Directory,
    journal: Journal,
    end: u64,
) -> Result<(), ShipFault>
    requires going { journal.ended ≡ false }
    requires room { end < 2 ^ 40 }
    requires stands { P.observed → StandsOn (P.calls station.old) journal }
    requires first { P.observed → IsAtFirst directory.now (P.calls station.old) journal end }
    ensures said { P.observed → SaysRest result (P.calls station.old) (P.calls station.new)
        (feed journal.version directory.now.mark (file_of (P.calls station.old) journal)) }
    ensures named { IfErr result IsNamed }
    ensures cause { AsksToShip P.Station result station.old station.new }
{
    let mut journal = journal;
    say_part(station, journal.file(), 0, HEADER as u64)?;
    say_checkpoint(alloc, station, directory, &mut journal, end)?;
    say_records(station, &mut journal, end)
}

/// Opens a journal, and starts it again at its first gate. Answers it, and the place of the closed gate behind its records.
fn open_first<P: Station>(
    alloc: Global,
    station: &mut P,
    directory: &Directory,
) -> Result<(Journal, u64), ShipFault>
    ensures opened { P.observed → IfOk result (λ found. HasOpened directory.now
        (P.calls station.old) (P.calls station.new) found.0 found.1) }
    ensures going { IfOk result (λ found. found.0.ended ≡ false) }
    ensures room { IfOk result (λ found. found.1 < 2 ^ 40) }
    ensures fault { P.observed → IfErr result (λ e. (bytes : List ℕ) →
        IsShipFault e directory.now (P.calls station.old) (P.calls station.new) bytes) }
    ensures unopened { P.observed → IfErr result (λ _.
        OnlySyncsUnopened directory.now (P.calls station.old) (P.calls station.new)) }
    ensures named { IfErr result IsNamed }
    ensures cause { AsksToShip P.Station result station.old station.new }
{
    // A limit is low enough for the places of gates.
    directory.bounds_hold();
    let end = open_core(alloc, station, directory)?.1.used() - 1;
    let journal = Journal::start(alloc, station, directory.mark())?;
    Ok((journal, end))
}

/// Says the feed of the selected file on channel 0, in pieces: the header, and each record behind an open gate with its seal. The
/// journal is opened first. Files are only read and synced. It takes memory for what the journal opens to.
pub fn ship<P: Station>(
    alloc: Global,
    station: &mut P,
    directory: &Directory,
) -> Result<(), ShipFault>
    // The journal opens. The files were synced, and then its feed was said on channel 0, and nothing else.
    ensures said { P.observed → OnOk result
        (ShipsOnly directory.now (P.calls station.old) (P.calls station.new)
        (feed_of directory.now (P.calls station.old))) }

    // A fault of the files is answered exactly where they open to it. Else at most a front of the feed was said, behind a sync.
    ensures fault { P.observed → IfErr result (λ e.
        IsShipFault e directory.now (P.calls station.old) (P.calls station.new)
        (feed_of directory.now (P.calls station.old))) }

    // Nothing is said where the files don't open, whatever is answered.
    ensures unopened { P.observed
        → OnlySyncsUnopened directory.now (P.calls station.old) (P.calls station.new) }
    ensures named { IfErr result IsNamed }
    ensures cause { AsksToShip P.Station result station.old station.new }
{
    let (journal, end) = open_first(alloc, station, directory)?;
    say_feed(alloc, station, directory, journal, end)
}

/// Says what of the feed is behind what a standby station has, as `ship` says all of it: the records with their seals, without the
/// header. Where the journal has no gate there with that station's seal before it, the whole feed is said; that begins with the
/// magic, as no record does.
pub fn ship_since<P: Station>(
    alloc: Global,
    station: &mut P,
    directory: &Directory,
    since: &Since,
) -> Result<(), ShipFault>
    // The journal opens. The files were synced, and then what is behind the standby's was said on channel 0, or else all, and nothing
    // else.
    ensures said { P.observed → OnOk result
        (ShipsOnly directory.now (P.calls station.old) (P.calls station.new)
        (since_of directory.now (P.calls station.old) since.now)) }

    // A fault of the files is answered exactly where they open to it. Else at most a front of that was said, behind a sync.
    ensures fault { P.observed → IfErr result (λ e.
        IsShipFault e directory.now (P.calls station.old) (P.calls station.new)
        (since_of directory.now (P.calls station.old) since.now)) }

    // Nothing is said where the files don't open, whatever is answered.
    ensures unopened { P.observed
        → OnlySyncsUnopened directory.now (P.calls station.old) (P.calls station.new) }
    ensures named { IfErr result IsNamed }
    ensures cause { AsksToShip P.Station result station.old station.new }
{
    let (mut journal, closed) = open_first(alloc, station, directory)?;
    if look_for(alloc, station, directory, &mut journal, closed, since)? {
        return say_records(station, &mut journal, closed);
    }
    let whole = Journal::start(alloc, station, directory.mark())?;
    say_feed(alloc, station, directory, whole, closed)
}
