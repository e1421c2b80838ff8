use gts_directory::Directory;
use gts_memory::{MemSource, MemStation, Touched};
use gts_parts_tests::{is_same, two_circuits};
use gts_standby::{FollowEnd, ShipFault, follow, ship};
use gts_traits::{Channel, JournalFile, Station};
use std::alloc::Global;
use std::process::Abort;
use std::test::Fail;

/// A journal with an accepted bulletin, and its draw on circuit 1.
const BOTH: &[u8] =
    b"GTSJ0002the mark of this small directoryOA\0A\0\0\0\0\0\0\0\0\0\0\0\0\x1dSMVG01 TVSV 280000\r\r\
\nNIL=\r\r\n\x03R\xb1\xd8\xad\xe4\x7f\xb4\xb4\xb9\xedZ\x10n=(\xb6\xd8\x7fp\xa5Il\xa1\xeawNy]\xaf\
\xa1\x02\xf2OD\x01\0\0\0\0\0\0\0\0\0\0\0\0\0\0\0\0\0\0\0\0\0T\xe3\xb2\xd7\xba\x9a0{\xbf\xaf\xf9{\
\xb7\x05[\x13\xcdp\xe3`C\xee\xdb\xceO\x1b\xda{\x90x~\x1dC";

/// A journal that has nothing: the header of that one, and a closed gate.
const EMPTY: &[u8] = b"GTSJ0002the mark of this small directoryC";

/// A journal with another bulletin.
const OTHER: &[u8] =
    b"GTSJ0002the mark of this small directoryOA\0A\0\0\0\0\0\0\0\0\0\0\0\0\x1dSMVG01 TVSV 280000\r\r\
\nNIM=\r\r\n\x03\xf53\xbb7g)\xaf,\x07\x17bR5\xdf\xf1j9\xd4\x839s\x14\xf9\x9d~8\xe3\xc3]_\xd0\
\x8bC";

/// The journal that has the checkpoint of the first one.
const COMPACTED: &[u8] =
    b"GTSJ0002the mark of this small directoryOC\0\0\0\0\0\0\x02\0\0\0\0\0\0\0\x01\0\0\0\x01\0\0\0\0\
\0\0\0\0\0A\0\0\0\0\0\x1dSMVG01 TVSV 280000\r\r\nNIL=\r\r\n\x03\0\0\0\0\0\0\0\0\0\0\0\0\0\0\0\
\0\0\0\0\0\0\0\0\x01\0\0\0\0\0\0\0\x01\0\0\0\0\0\0\0\0Y!M\xa29\xd3\x89\xd7\xd2\0\x07&;.K\xe9\
\x1b@\x08\xf48\xf5\xcf\x91\x95ML~\x8e\xd8\x17DC";

/// The feed of the journal that has the checkpoint of the first one before its draw.
const BEFORE: &[u8] =
    b"GTSJ0002the mark of this small directoryC\0\0\0\0\0\0\x02\0\0\0\0\0\0\0\x01\0\0\0\x01\0\0\0\
\0\0\0\0\0\0A\0\0\0\0\0\x1dSMVG01 TVSV 280000\r\r\nNIL=\r\r\n\x03\0\0\0\0\0\0\0\0\0\0\0\0\0\0\0\0\
\0\0\0\0\0\0\0\0\0\0\0\x01\0\0\0\0\0\0\0\0\0\0\0\0z\xbc\xb07\x1e\xaf\xa7uz1\x04\x22\x1a\x818\xfe\
\x03\xeb\xad\xf0h^-8\x194[u\x95\xa0$D";

/// What a crash may leave in each place that was touched.
const CHOICES: [Touched; 5] = [
    Touched::Old,
    Touched::New,
    Touched::Fill(0),
    Touched::Fill(0x4f),
    Touched::Fill(0xff),
];

/// The bytes from one place up to another, or none.
fn piece(bytes: &[u8], from: usize, to: usize) -> &[u8] {
    bytes.get(from..to).unwrap_or(&[])
}

/// The feed of the first journal.
fn feed_of_both(alloc: Global) -> Result<Vec<u8>, Fail> {
    let pieces = [
        piece(BOTH, 0, 40),
        piece(BOTH, 41, 118),
        piece(BOTH, 119, 174),
    ];
    Ok(pieces.concat(alloc)?)
}

/// Writes a journal into a station that has none.
fn write<P: Station>(station: &mut P, journal: &[u8]) -> Result<(), Fail> {
    if journal.len() > 1000 {
        return Err(Fail::from("too long"));
    }
    station.write_at(JournalFile::FIRST, 0, journal)?;
    Ok(())
}

/// A station whose journal has these bytes.
fn station_of(alloc: Global, journal: &[u8]) -> Result<MemStation, Fail> {
    let mut station = MemStation::new(alloc, &[])?;
    write(&mut station, journal)?;
    Ok(station)
}

/// How shipping ends in a station.
fn shipped(alloc: Global, station: &mut MemStation) -> Result<Result<(), ShipFault>, Fail> {
    let directory = two_circuits(alloc)?;
    Ok(ship(alloc, station, &directory))
}

#[test]
fn the_header_and_each_record_with_its_seal_are_shipped(rt: HostRuntime) -> Result<(), Fail> {
    let mut station = station_of(rt.alloc(), BOTH)?;
    assert!(rt; shipped(rt.alloc(), &mut station)? == Ok(()));
    let feed = feed_of_both(rt.alloc())?;
    assert!(rt; feed.len() == 172 && is_same(station.said(Channel::OPERATOR), &feed));
    Ok(())
}

/// A standby whose journal has these bytes, which are on the disk.
fn standby(alloc: Global, journal: &[u8]) -> Result<MemStation, Fail> {
    let mut station = station_of(alloc, journal)?;
    station.sync()?;
    Ok(station)
}

/// How a feed ends in a station.
fn followed(
    alloc: Global,
    station: MemStation,
    directory: &Directory,
    feed: &[u8],
) -> Result<(MemStation, FollowEnd), Fail> {
    let mut source = MemSource::new(alloc, feed, &[])?;
    Ok(follow(alloc, station, directory, &mut source))
}

/// How the feed of the first journal ends in a station.
fn follows_both(alloc: Global, station: MemStation) -> Result<(MemStation, FollowEnd), Fail> {
    let directory = two_circuits(alloc)?;
    let feed = feed_of_both(alloc)?;
    followed(alloc, station, &directory, &feed)
}

#[test]
fn a_feed_is_taken_into_an_empty_journal(rt: HostRuntime) -> Result<(), Fail> {
    let station = standby(rt.alloc(), EMPTY)?;
    let (station, end) = follows_both(rt.alloc(), station)?;
    assert!(rt; end == FollowEnd::Done && is_same(station.file(JournalFile::FIRST), BOTH));
    let (station, end) = follows_both(rt.alloc(), station)?;
    assert!(rt; end == FollowEnd::Done && is_same(station.file(JournalFile::FIRST), BOTH));
    Ok(())
}

/// Whether the first record is found to be another one, with the seals of both.
fn tells_both_seals(end: FollowEnd) -> bool {
    let FollowEnd::Diverged { index, own, fed } = end else {
        return false;
    };
    index == 0 && is_same(&own, piece(OTHER, 86, 118)) && is_same(&fed, piece(BOTH, 86, 118))
}

#[test]
fn the_seals_of_records_that_differ_are_told(rt: HostRuntime) -> Result<(), Fail> {
    let station = standby(rt.alloc(), OTHER)?;
    let (station, end) = follows_both(rt.alloc(), station)?;
    assert!(rt; tells_both_seals(end));
    assert!(rt; is_same(station.file(JournalFile::FIRST), OTHER));
    Ok(())
}

/// How many calls a standby has had before a feed is followed.
const OPENED: u64 = 2;

/// The journal of a standby, a feed, and the files of the standby that has taken it.
#[derive(Clone, Copy)]
struct Fed<'a> {
    begun: &'a [u8],
    feed: &'a [u8],
    first: &'a [u8],
    second: &'a [u8],
}

/// Whether a standby that follows the feed has those files then.
fn is_taken(
    alloc: Global,
    directory: &Directory,
    fed: Fed<'_>,
    standby: MemStation,
) -> Result<bool, Fail> {
    let (standby, end) = followed(alloc, standby, directory, fed.feed)?;
    Ok(
        end == FollowEnd::Done
            && is_same(standby.file(JournalFile::FIRST), fed.first)
            && is_same(standby.file(JournalFile::SECOND), fed.second),
    )
}

/// What a stop in a call leaves of a standby, with this in each place that was touched.
fn left_by(standby: &MemStation, call: u64, choice: Touched) -> Result<MemStation, Fail> {
    if call >= standby.calls() {
        return Err(Fail::from("no such call"));
    }
    Ok(standby.crashed(call, choice)?)
}

/// A standby that a stop in this call left follows the feed once more, whatever the stop left.
fn is_taken_after<R: AllocGlobal + Abort>(
    rt: &R,
    directory: &Directory,
    fed: Fed<'_>,
    standby: &MemStation,
    call: u64,
) -> Result<(), Fail> {
    for choice in CHOICES {
        let left = left_by(standby, call, choice)?;
        assert!(rt; is_taken(rt.alloc(), directory, fed, left)?, "call {call}");
    }
    Ok(())
}

/// A standby that has followed a feed.
fn following(alloc: Global, directory: &Directory, fed: Fed<'_>) -> Result<MemStation, Fail> {
    let begun = standby(alloc, fed.begun)?;
    let (standby, _) = followed(alloc, begun, directory, fed.feed)?;
    Ok(standby)
}

/// So does one that a stop left in any call in which it followed the feed.
fn is_taken_after_each<R: AllocGlobal + Abort>(rt: &R, fed: Fed<'_>) -> Result<(), Fail> {
    let directory = two_circuits(rt.alloc())?;
    let standby = following(rt.alloc(), &directory, fed)?;
    for call in OPENED..standby.calls() {
        is_taken_after(rt, &directory, fed, &standby, call)?;
    }
    Ok(())
}

#[test]
fn a_feed_is_taken_whenever_the_machine_stops(rt: HostRuntime) -> Result<(), Fail> {
    let feed = feed_of_both(rt.alloc())?;
    let fed = Fed {
        begun: EMPTY,
        feed: feed.as_slice(),
        first: BOTH,
        second: b"",
    };
    is_taken_after_each(&rt, fed)
}

/// A standby that a stop in this call left has no record of the feed, or all of them, whatever the stop left.
fn has_none_or_all<R: AllocGlobal + Abort>(
    rt: &R,
    standby: &MemStation,
    feed: &[u8],
    call: u64,
) -> Result<(), Fail> {
    for choice in CHOICES {
        let mut left = left_by(standby, call, choice)?;
        assert!(rt; shipped(rt.alloc(), &mut left)? == Ok(()));
        let size = left.said(Channel::OPERATOR).len();
        assert!(rt; size == 40 || size == feed.len(), "call {call}");
    }
    Ok(())
}

#[test]
fn the_records_of_a_feed_go_behind_one_gate(rt: HostRuntime) -> Result<(), Fail> {
    let directory = two_circuits(rt.alloc())?;
    let feed = feed_of_both(rt.alloc())?;
    let fed = Fed {
        begun: EMPTY,
        feed: feed.as_slice(),
        first: BOTH,
        second: b"",
    };
    let standby = following(rt.alloc(), &directory, fed)?;
    for call in OPENED..standby.calls() {
        has_none_or_all(&rt, &standby, fed.feed, call)?;
    }
    Ok(())
}

/// The feed of the journal that has the checkpoint.
fn feed_of_compacted(alloc: Global) -> Result<Vec<u8>, Fail> {
    let pieces = [piece(COMPACTED, 0, 40), piece(COMPACTED, 41, 178)];
    Ok(pieces.concat(alloc)?)
}

/// The first journal before the draw.
fn before_the_draw(alloc: Global) -> Result<Vec<u8>, Fail> {
    Ok([piece(BOTH, 0, 118), b"C"].concat(alloc)?)
}

#[test]
fn a_standby_goes_on_behind_a_compaction_whenever_the_machine_stops(
    rt: HostRuntime,
) -> Result<(), Fail> {
    let begun = before_the_draw(rt.alloc())?;
    let feed = feed_of_compacted(rt.alloc())?;
    let fed = Fed {
        begun: begun.as_slice(),
        feed: feed.as_slice(),
        first: begun.as_slice(),
        second: COMPACTED,
    };
    is_taken_after_each(&rt, fed)
}

#[test]
fn a_checkpoint_that_is_behind_is_of_another_history(rt: HostRuntime) -> Result<(), Fail> {
    let directory = two_circuits(rt.alloc())?;
    let station = standby(rt.alloc(), BOTH)?;
    let (station, end) = followed(rt.alloc(), station, &directory, BEFORE)?;
    let is_other = matches!(end, FollowEnd::Diverged { index: 0, .. });
    assert!(rt; is_other);
    assert!(rt;
        is_same(station.file(JournalFile::FIRST), BOTH)
            && station.file(JournalFile::SECOND).is_empty()
    );
    Ok(())
}

#[test]
fn a_checkpoint_is_taken_whenever_the_machine_stops(rt: HostRuntime) -> Result<(), Fail> {
    let feed = feed_of_compacted(rt.alloc())?;
    let fed = Fed {
        begun: EMPTY,
        feed: feed.as_slice(),
        first: EMPTY,
        second: COMPACTED,
    };
    is_taken_after_each(&rt, fed)
}
