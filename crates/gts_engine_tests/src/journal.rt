ghost use Rattle.std.specs.Prelude.{◌≡◌, ◌≤◌, ◌^◌, true, length, IfOk};
ghost use Rattle.gts_journal.specs.Cited.{IsCurrent, StandsOn};

use gts_frame::Kind;
use gts_journal::{InitFault, Journal, OpenFault, Record, Version};
use gts_memory::{MemStation, Touched};
use gts_parts_tests::is_same;
use gts_traits::{JournalFile, Station};
use std::alloc::Global;
use std::test::Fail;

const MARK: [u8; 32] = [7; 32];

const BODY: &[u8] = b"SMVG01 TVSV 280000\r\r\nNIL=\r\r\n\x03";

/// The journal of the two records, as another program wrote it.
const SEALED: &[u8] =
    b"GTSJ0002\x07\x07\x07\x07\x07\x07\x07\x07\x07\x07\x07\x07\x07\x07\x07\x07\x07\x07\x07\x07\x07\x07\
\x07\x07\x07\x07\x07\x07\x07\x07\x07\x07OA\0A\0\0\0\0\0\0\0\0\0\0\0\0\x1dSMVG01 TVSV 280000\r\r\
\nNIL=\r\r\n\x03h\xa0\xd4\xa7,\xf9b\x0e\xb3\x88\x01\x8dH\x891x\x8d?\xf6\xe6Vb\x19\xf5\xd7qd&\xaf\
\xb9\xcf\xc7OD\x01\0\0\0\0\0\0\0\0\0\0\0\0\0\0\0\0\0\0\0\0\0\x05\xbaDD-\xb1\xcc\x14t\x1bMG\xcc\
\xd7\nF2\xd7\x94sG8X\xc3\xfdZC\x95\xa5\xcd$\x03C";

/// The same records in version 1.
const UNSEALED: &[u8] =
    b"GTSJ0001\x07\x07\x07\x07\x07\x07\x07\x07\x07\x07\x07\x07\x07\x07\x07\x07\x07\x07\x07\x07\x07\x07\
\x07\x07\x07\x07\x07\x07\x07\x07\x07\x07OA\0A\0\0\0\0\0\0\0\0\0\0\0\0\x1dSMVG01 TVSV 280000\r\r\
\nNIL=\r\r\n\x03OD\x01\0\0\0\0\0\0\0\0\0\0\0\0\0\0\0\0\0\0\0\0\0C";

/// A journal at its end, and how many records were read of it.
fn read_to_end<P: Station>(alloc: Global, station: &mut P) -> Result<(Journal, u64), OpenFault>
    ensures current { IfOk result (λ x. IsCurrent x.0) }
    ensures end { IfOk result (λ x. x.0.ended ≡ true) }
    ensures stands { P.observed → IfOk result (λ x. StandsOn (P.calls station.new) x.0) }
{
    let mut journal = Journal::start(alloc, station, MARK)?;
    let mut count: u64 = 0;
    while journal.used() < 1 << 40 {
        if journal.next(station)?.is_none() {
            return Ok((journal, count));
        }
        count = count.saturating_add(1);
    }
    Err(OpenFault::Damaged {
        file: journal.file().number(),
        at: journal.used(),
    })
}

/// Makes a journal, adds an accepted bulletin and its draw, and answers `used` before, between and behind them.
fn two_records<P: Station>(alloc: Global, station: &mut P) -> Option<[u64; 3]> {
    if Journal::init(station, MARK).is_err() {
        return None;
    }
    let Ok((mut journal, _)) = read_to_end(alloc, station) else {
        return None;
    };
    let before = journal.used();
    if before != 41 {
        return None;
    }
    let accept = Record::Accept {
        from: 0,
        kind: Kind::An,
        position: 0,
        body: BODY,
    };
    if journal.append(station, &accept).is_err() {
        return None;
    }
    let between = journal.used();
    let draw = Record::Draw {
        circuit: 1,
        position: 0,
        index: 0,
    };
    if journal.append(station, &draw).is_err() {
        return None;
    }
    Some([before, between, journal.used()])
}

/// Why the journal can't be opened.
fn fault_of<P: Station>(alloc: Global, station: &mut P) -> Option<OpenFault> {
    read_to_end(alloc, station).err()
}

/// The size of a journal that is there already.
fn size_that_exists<P: Station>(station: &mut P) -> Option<u64> {
    match Journal::init(station, MARK) {
        Err(InitFault::Exists { size }) => Some(size),
        _ => None,
    }
}

/// How many records are read.
fn read<P: Station>(alloc: Global, station: &mut P) -> Result<u64, OpenFault> {
    let (_, count) = read_to_end(alloc, station)?;
    Ok(count)
}

/// The places of the two records.
const PLACES: Option<[u64; 3]> = Some([41, 119, 175]);

#[test]
fn a_journal_of_two_records_has_these_bytes(rt: HostRuntime) -> Result<(), Fail> {
    let alloc = rt.alloc();
    let mut station = MemStation::new(alloc, &[])?;
    assert!(rt; fault_of(alloc, &mut station) == Some(OpenFault::NoJournal));
    assert!(rt; two_records(alloc, &mut station) == PLACES);
    assert!(rt; is_same(station.file(JournalFile::FIRST), SEALED));
    assert!(rt; read(alloc, &mut station) == Ok(2));
    assert!(rt; size_that_exists(&mut station) == Some(175));
    Ok(())
}

/// How many calls are made until the listed one fails, none where no call does.
fn calls_until(alloc: Global, call: u64) -> Result<Option<u64>, Fail> {
    let mut station = MemStation::new(alloc, &[call])?;
    let records = two_records(alloc, &mut station);
    let calls = station.calls();
    drop(station);
    match records {
        Some(_) => Ok(None),
        None => Ok(Some(calls)),
    }
}

#[test]
fn a_call_that_fails_ends_what_is_done(rt: HostRuntime) -> Result<(), Fail> {
    // Eight calls make the journal, four open it, and four are made for each record.
    for call in 0..20 {
        assert!(rt;
            calls_until(rt.alloc(), call)? == Some(call + 1),
            "call {call}"
        );
    }
    Ok(())
}

/// What a crash may leave in each place that was touched.
const CHOICES: [Touched; 5] = [
    Touched::Old,
    Touched::New,
    Touched::Fill(0),
    Touched::Fill(0x4f),
    Touched::Fill(0xff),
];

/// What a crash in a call leaves, with this in each place that was touched.
pub(crate) fn crashed(
    station: &MemStation,
    call: u64,
    choice: Touched,
) -> Result<MemStation, Fail> {
    if call >= station.calls() {
        return Err(Fail::from("no such call"));
    }
    Ok(station.crashed(call, choice)?)
}

/// Whether a crash in a call of an append leaves the records that were there before or one more, whatever stands in the places
/// that were touched.
fn leaves_either(
    alloc: Global,
    station: &MemStation,
    call: u64,
    before: u64,
) -> Result<bool, Fail> {
    for choice in CHOICES {
        let mut left = crashed(station, call, choice)?;
        let found = read(alloc, &mut left);
        drop(left);
        if found != Ok(before) && found != Ok(before.saturating_add(1)) {
            return Ok(false);
        }
    }
    Ok(true)
}

#[test]
fn a_crash_in_an_append_leaves_the_records_before_or_one_more(rt: HostRuntime) -> Result<(), Fail> {
    let mut station = MemStation::new(rt.alloc(), &[])?;
    assert!(rt; two_records(rt.alloc(), &mut station) == PLACES);
    // The calls before these make the journal and open it; each append has four.
    for call in 12..20 {
        assert!(rt;
            leaves_either(rt.alloc(), &station, call, (call - 12) / 4)?,
            "call {call}"
        );
    }
    Ok(())
}

/// A station with these bytes as its journal.
fn station_of(alloc: Global, file: &[u8]) -> Result<MemStation, Fail>
    requires { length file.now ≤ 2 ^ 20 }
{
    let mut station = MemStation::new(alloc, &[])?;
    station.write_at(JournalFile::FIRST, 0, file)?;
    Ok(station)
}

/// The version of a journal that is taken, whichever it has.
fn version_of<P: Station>(alloc: Global, station: &mut P) -> Option<Version> {
    match Journal::start_any(alloc, station, MARK) {
        Ok(journal) => Some(journal.version()),
        Err(_) => None,
    }
}

#[test]
fn a_journal_of_an_older_version_is_told_or_taken(rt: HostRuntime) -> Result<(), Fail> {
    let mut station = station_of(rt.alloc(), UNSEALED)?;
    assert!(rt; fault_of(rt.alloc(), &mut station) == Some(OpenFault::OldVersion));
    assert!(rt; version_of(rt.alloc(), &mut station) == Some(Version::One));
    Ok(())
}
