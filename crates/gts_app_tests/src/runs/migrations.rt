//! A journal of the older version is taken over under a directory with a circuit more, also where the machine stops in a call.

use super::stops::{Then, holds_after};
use super::*;
use gts_traits::{Channel, JournalFile, Station};

/// The same directory with a circuit more, which the rule names too.
const LONGER: &[u8] = b"centre = \"TVSV\"\n\
    [[circuit]]\nname = \"A\"\npeer = \"AAAA\"\n\
    [[circuit]]\nname = \"B\"\npeer = \"BBBB\"\n\
    [[circuit]]\nname = \"C\"\npeer = \"CCCC\"\n\
    [[rule]]\nheading = \"****** ****\"\nto = [\"A\", \"B\", \"C\"]\n";

/// The gates and the records of the bulletin and its draw, as the older version has them.
const RECORDS: &[u8] = b"OA\0A\0\0\0\0\0\0\0\0\0\0\0\0\x1dSMVG01 TVSV 280000\r\r\nNIL=\r\r\n\x03\
OD\x01\0\0\0\0\0\0\0\0\0\0\0\0\0\0\0\0\0\0\0\0\0C";

/// What is taken on each circuit then, and the other bulletin comes.
const REST: &[u8] = b"T 01\nT 02\nF 00 000049\n\
    00000039AN\x01\r\r\n002\r\r\nSMVG01 TVSV 280000\r\r\nNIM=\r\r\n\x03T 02\nE\n";

/// The first frame of the added circuit.
const ADDED: &[u8] = b"00000039AN\x01\r\r\n001\r\r\nSMVG01 TVSV 280000\r\r\nNIM=\r\r\n\x03";

/// How many calls the station has had before the journal is taken over.
const OPENED: u64 = 2;

/// A station with this journal.
fn station_of(alloc: Global, file: &[u8]) -> Result<MemStation, Fail> {
    if file.len() > 1000 {
        return Err(Fail::from("too long"));
    }
    let mut station = MemStation::new(alloc, &[])?;
    station.write_at(JournalFile::FIRST, 0, file)?;
    station.sync()?;
    Ok(station)
}

/// A station with a journal of the older version, in which the bulletin was drawn.
fn with_older<R: AllocGlobal + Threads + Wait + Sync>(rt: &R) -> Result<MemStation, Fail> {
    let made = with_journal(rt, &[])?;
    let mark = made.file(JournalFile::FIRST).get(8..40).unwrap_or(&[]);
    let file = [b"GTSJ0001".as_slice(), mark, RECORDS].concat(rt.alloc())?;
    station_of(rt.alloc(), &file)
}

/// Takes a journal over.
fn migrated<R: AllocGlobal + Threads + Wait + Sync>(
    rt: &R,
    station: MemStation,
) -> Result<Left, Fail> {
    run_under(rt, "migrate", LONGER, DIRECTORY, station)
}

/// Goes on under the longer directory: how it ends, and what was sent.
fn went_on<R: AllocGlobal + Threads + Wait + Sync>(
    rt: &R,
    station: MemStation,
) -> Result<Left, Fail> {
    run_under(rt, "replay", LONGER, REST, station)
}

/// The bulletin was repeated under its number, and the added circuit began with 001.
fn is_sent<R: Abort>(rt: &R, call: u64, station: &MemStation) {
    assert!(rt;
        station.said(Channel::of_circuit(1)) == FRAME,
        "call {call}"
    );
    assert!(rt;
        station.said(Channel::of_circuit(2)) == ADDED,
        "call {call}"
    );
}

#[test]
fn an_older_journal_is_taken_over(rt: HostRuntime) -> Result<(), Fail> {
    let Left { status, station } = migrated(&rt, with_older(&rt)?)?;
    assert!(rt; status == Status::Done);
    assert!(rt; station.file(JournalFile::SECOND).len() == 195);
    let Left { status, station } = went_on(&rt, station)?;
    assert!(rt; status == Status::Done);
    is_sent(&rt, station.calls(), &station);
    Ok(())
}

/// A journal that a stop left opens under the longer directory, or it is still the older one, which is taken over then.
pub fn opens<R: AllocGlobal + Threads + Wait + Sync + Abort>(
    rt: &R,
    call: u64,
    left: MemStation,
) -> Result<(), Fail> {
    let Left {
        status,
        mut station,
    } = went_on(rt, left)?;
    if status == Status::OldVersion {
        let taken = migrated(rt, station)?;
        assert!(rt; taken.status == Status::Done, "call {call}");
        station = went_on(rt, taken.station)?.station;
    } else {
        assert!(rt; status == Status::Done, "call {call}");
    }
    is_sent(rt, call, &station);
    Ok(())
}

#[test]
fn it_opens_under_one_of_the_two_whenever_the_machine_stops(rt: HostRuntime) -> Result<(), Fail> {
    let Left { station, .. } = migrated(&rt, with_older(&rt)?)?;
    for call in OPENED..station.calls() {
        holds_after(&rt, Then::OneOfTwoOpens, &station, call)?;
    }
    Ok(())
}
