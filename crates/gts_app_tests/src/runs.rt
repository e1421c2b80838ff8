//! What the program can't show of `run`: calls that fail, stops in mid-call, and lines in memory. Rows of words and files are
//! cases (`cases/`).
mod devices;
mod migrations;
mod serves;
mod stops;
mod waits;

use crate::left::Left;
use gts_app::{Status, World, run};
use gts_memory::{MemLines, MemSource, MemStation, Touched};
use gts_traits::{Channel, FreeGate, WordList};
use std::alloc::Global;
use std::process::Abort;
use std::sync::Wait;
use std::test::Fail;
use std::thread::Threads;

/// Two circuits, A and B, and a rule for every bulletin.
const DIRECTORY: &[u8] = b"centre = \"TVSV\"\n\
    [[circuit]]\nname = \"A\"\npeer = \"AAAA\"\n\
    [[circuit]]\nname = \"B\"\npeer = \"BBBB\"\n\
    [[rule]]\nheading = \"****** ****\"\nto = [\"A\", \"B\"]\n";

/// The frame of a bulletin.
const FRAME: &[u8] = b"00000039AN\x01\r\r\n001\r\r\nSMVG01 TVSV 280000\r\r\nNIL=\r\r\n\x03";

/// The frame of another one.
const NEXT_FRAME: &[u8] = b"00000039AN\x01\r\r\n002\r\r\nSMVG01 TVSV 280000\r\r\nNIM=\r\r\n\x03";

/// A capture in which the bulletin comes, and is drawn.
const DRAWN: &[u8] = b"F 00 000049\n\
    00000039AN\x01\r\r\n001\r\r\nSMVG01 TVSV 280000\r\r\nNIL=\r\r\n\x03T 01\nE\n";

const ACCEPTED: &[u8] = b"ACC 0 0 1 SMVG01 TVSV 280000\n";

/// The number of the first call behind `init`.
const FIRST: u64 = 8;

/// How many bytes each of the two frames has.
const SIZE: usize = 49;

/// The bulletin comes and is drawn, the journal is compacted, and the other one comes and is drawn.
const COMPACTED: &[u8] = b"F 00 000049\n\
    00000039AN\x01\r\r\n001\r\r\nSMVG01 TVSV 280000\r\r\nNIL=\r\r\n\x03T 01\nC\nT 01\nF 00 000049\n\
    00000039AN\x01\r\r\n002\r\r\nSMVG01 TVSV 280000\r\r\nNIM=\r\r\n\x03T 01\nE\n";

/// Both come once more, and all that waits is drawn.
const AGAIN: &[u8] = b"F 00 000098\n\
    00000039AN\x01\r\r\n001\r\r\nSMVG01 TVSV 280000\r\r\nNIL=\r\r\n\x03\
    00000039AN\x01\r\r\n002\r\r\nSMVG01 TVSV 280000\r\r\nNIM=\r\r\n\x03D 01\nE\n";

/// What the switch stands at when both were accepted and drawn once.
const REPORT: &[u8] = b"accepted 2\n\
    circuit 00 A draws 0 waiting 0 last -\ncircuit 01 B draws 2 waiting 0 last 002\n";

/// Runs words over a directory, a capture, a station and lines.
fn run_on<R: AllocGlobal + Threads + Wait + Sync>(
    rt: &R,
    words: &WordList,
    directory: MemSource,
    capture: MemSource,
    station: MemStation,
    lines: &mut MemLines,
) -> Left {
    let alloc = rt.alloc();
    let world = World {
        directory,
        capture,
        station,
    };
    let ended = run(rt, alloc, words, world, lines, &FreeGate);
    Left {
        status: ended.status,
        station: ended.world.station,
    }
}

/// A list of one word.
fn word(alloc: Global, word: &str) -> Result<WordList, Fail> {
    let mut words = WordList::new();
    words.push(alloc, word)?;
    Ok(words)
}

/// Runs a word over a directory, a capture and a station, with no lines.
fn run_under<R: AllocGlobal + Threads + Wait + Sync>(
    rt: &R,
    text: &str,
    directory: &[u8],
    capture: &[u8],
    station: MemStation,
) -> Result<Left, Fail> {
    let alloc = rt.alloc();
    let words = word(alloc, text)?;
    let directory = MemSource::new(alloc, directory, &[])?;
    let capture = MemSource::new(alloc, capture, &[])?;
    let mut lines = MemLines::new(alloc, &[])?;
    Ok(run_on(rt, &words, directory, capture, station, &mut lines))
}

/// The same over the directory of two circuits.
fn run_word<R: AllocGlobal + Threads + Wait + Sync>(
    rt: &R,
    text: &str,
    capture: &[u8],
    station: MemStation,
) -> Result<Left, Fail> {
    run_under(rt, text, DIRECTORY, capture, station)
}

/// A station on which a journal was made. Its calls with the listed numbers, from 0, are to fail.
fn with_journal<R: AllocGlobal + Threads + Wait + Sync>(
    rt: &R,
    calls: &[u64],
) -> Result<MemStation, Fail> {
    let station = MemStation::new(rt.alloc(), calls)?;
    let Left { status, station } = run_word(rt, "init", b"", station)?;
    if status != Status::Done {
        return Err(Fail::from("no journal was made"));
    }
    Ok(station)
}

/// Replays a capture over a new journal, on a station whose listed calls fail.
fn replayed<R: AllocGlobal + Threads + Wait + Sync>(
    rt: &R,
    capture: &[u8],
    calls: &[u64],
) -> Result<Left, Fail> {
    let station = with_journal(rt, calls)?;
    run_word(rt, "replay", capture, station)
}

/// Whether the frames are those of the two bulletins, and both are there.
fn are_numbered(frames: &[u8]) -> bool {
    frames
        .chunks(SIZE)
        .all(|frame| frame == FRAME || frame == NEXT_FRAME)
        && frames.chunks(SIZE).any(|frame| frame == FRAME)
        && frames.chunks(SIZE).any(|frame| frame == NEXT_FRAME)
}

/// The bulletins come once more to a station that a run left behind this call: each goes out under its number, and each was
/// accepted and drawn once.
fn goes_on<R: AllocGlobal + Threads + Wait + Sync + Abort>(
    rt: &R,
    behind: u64,
    left: MemStation,
) -> Result<(), Fail> {
    let Left { status, station } = run_word(rt, "replay", AGAIN, left)?;
    assert!(rt; status == Status::Done, "call {behind}");
    assert!(rt;
        are_numbered(station.said(Channel::of_circuit(1))),
        "call {behind}"
    );
    let before = station.said(Channel::OPERATOR).len();
    let Left { station, .. } = run_word(rt, "show", b"", station)?;
    let Some(report) = station.said(Channel::OPERATOR).get(before..) else {
        return Err(Fail::from("no report"));
    };
    assert!(rt; report.starts_with(REPORT), "call {behind}");
    Ok(())
}

/// What a crash leaves in a call, with this in each place that was touched.
fn crashed(station: &MemStation, call: u64, choice: Touched) -> Result<MemStation, Fail> {
    if call >= station.calls() {
        return Err(Fail::from("no such call"));
    }
    Ok(station.crashed(call, choice)?)
}
