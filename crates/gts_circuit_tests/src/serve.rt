//! A run of two circuits over lines in memory.
ghost use Rattle.std.specs.Prelude.{◌≡◌, ◌≤◌, []};
ghost use Rattle.gts_receiver.specs.Service as service;
ghost use Rattle.gts_circuits.specs.Housed.{Stands};

use gts_circuits::{Began, ServeEnd, Served, an_opened_engine_stands_for_no_entry, serve};
use gts_directory::Directory;
use gts_engine::{Engine, an_opened_engine_begins_with_what_the_files_open_to};
use gts_journal::Journal;
use gts_memory::{MemLines, MemStation};
use gts_parts_tests::two_circuits;
use gts_sender::SendEnd;
use gts_traits::{Channel, FreeGate, Station};
use std::alloc::Global;
use std::marker::Brand;
use std::sync::Wait;
use std::test::Fail;
use std::thread::Threads;

/// A frame, in which the digits at 16, 24 and 37 are to be set.
const FRAME: [u8; 49] = *b"00000039AN\x01\r\r\n000\r\r\nSMVG01 TVSV 280000\r\r\nNIL=\r\r\n\x03";

/// The frame of a number of the bulletin of a circuit. Both are below 10.
fn frame_of(number: u8, circuit: u8) -> [u8; 49] {
    let mut frame = FRAME;
    frame[16] = b'0'.wrapping_add(number);
    frame[24] = b'0'.wrapping_add(circuit);
    frame
}

/// The same, of the bulletin of this minute, which is below 10.
fn frame_at(number: u8, circuit: u8, minute: u8) -> [u8; 49] {
    let mut frame = frame_of(number, circuit);
    frame[37] = b'0'.wrapping_add(minute);
    frame
}

/// Serves the circuits of an engine, from a beginning that its caller picks.
fn run<R, P, B>(
    rt: &R,
    alloc: Global,
    engine: Engine<P>,
    lines: &mut MemLines,
    connections: u64,
) -> (P, ServeEnd, bool)
where
    R: Threads + Wait + Sync,
    P: Station + Send + Drop,
    B: Began + Send,
    requires some { 1 ≤ connections }
    requires mode { B.beginning.makes_room ≡ service.goes_on connections }
    requires stands { Stands P.Station B.beginning [] engine }
    requires observed { P.observed }
{
    let served: Served<P, B> = serve(rt, alloc, engine, lines, connections, &FreeGate);
    let Served { engine, end, pass } = served;
    let (station, _) = engine.into_parts();
    (station, end, pass.is_some())
}

/// Opens the journal of a station that is observed, and serves its circuits.
fn open_and_run<R, P>(
    rt: &R,
    alloc: Global,
    station: P,
    directory: Directory,
    lines: &mut MemLines,
    connections: u64,
) -> Option<(P, ServeEnd, bool)>
where
    R: Threads + Wait + Sync,
    P: Station + Send + Drop,
    requires observed { P.observed }
    requires some { 1 ≤ connections }
{
    // What its history begins with.
    an_opened_engine_begins_with_what_the_files_open_to::<P>();
    an_opened_engine_stands_for_no_entry::<P>();
    match Engine::open(alloc, station, directory) {
        Ok(engine) => Some(run::<R, P, Brand>(rt, alloc, engine, lines, connections)),
        Err(_) => None,
    }
}

/// Lines over which the neighbour on each circuit sends one bulletin. The calls with the listed numbers are to fail: of `open`,
/// and on the sink of circuit 1.
fn fed(alloc: Global, opens: &[u64], writes: &[u64]) -> Result<MemLines, Fail> {
    let mut lines = MemLines::new(alloc, opens)?;
    for circuit in 0..2u8 {
        lines.feed(u32::from(circuit), frame_of(0, circuit).as_slice())?;
    }
    lines.sink_fails(1, writes)?;
    Ok(lines)
}

/// A run over a new journal and these lines: what was said, how it ended, and whether there is a pass.
fn ran<R: Threads + Wait + Sync>(
    rt: &R,
    alloc: Global,
    lines: &mut MemLines,
) -> Result<(MemStation, ServeEnd, bool), Fail> {
    let directory = two_circuits(alloc)?;
    let mut station = MemStation::new(alloc, &[])?;
    Journal::init(&mut station, directory.mark()).map_err(|_| "init")?;
    Ok(open_and_run(rt, alloc, station, directory, lines, 1).ok_or("open")?)
}

#[test]
fn each_circuit_gets_the_bulletin_of_the_other(rt: HostRuntime) -> Result<(), Fail> {
    let mut lines = fed(rt.alloc(), &[], &[])?;
    let (_, end, has_pass) = ran(&rt, rt.alloc(), &mut lines)?;
    assert!(rt; end == ServeEnd::Done);
    assert!(rt; has_pass);
    assert!(rt; lines.sent(0) == frame_of(1, 1).as_slice());
    assert!(rt; lines.sent(1) == frame_of(1, 0).as_slice());
    Ok(())
}

/// Lines over which the neighbour on circuit 0 sends three bulletins at once.
fn fed_three(alloc: Global) -> Result<MemLines, Fail> {
    let mut lines = MemLines::new(alloc, &[])?;
    for minute in 0..3u8 {
        lines.feed(0, frame_at(0, 0, minute).as_slice())?;
    }
    Ok(lines)
}

#[test]
fn messages_that_come_at_once_go_on_in_their_order(rt: HostRuntime) -> Result<(), Fail> {
    let mut lines = fed_three(rt.alloc())?;
    let (_, end, _) = ran(&rt, rt.alloc(), &mut lines)?;
    assert!(rt; end == ServeEnd::Done);
    assert!(rt; lines.sent(1).len() == 3 * 49);
    assert!(rt; lines.sent(1).starts_with(frame_at(1, 0, 0).as_slice()));
    assert!(rt; lines.sent(1).ends_with(frame_at(3, 0, 2).as_slice()));
    Ok(())
}

#[test]
fn what_came_whole_before_a_loss_is_heard(rt: HostRuntime) -> Result<(), Fail> {
    let mut lines = fed_three(rt.alloc())?;
    lines.feed(0, b"0000039 AN".as_slice())?;
    let (_, end, _) = ran(&rt, rt.alloc(), &mut lines)?;
    assert!(rt; end == ServeEnd::Done);
    assert!(rt; lines.sent(1).len() == 3 * 49);
    Ok(())
}

#[test]
fn a_sink_that_fails_is_the_end_and_the_other_circuit_is_served(
    rt: HostRuntime,
) -> Result<(), Fail> {
    let mut lines = fed(rt.alloc(), &[], &[0])?;
    let (_, end, _) = ran(&rt, rt.alloc(), &mut lines)?;
    let fault = SendEnd::LineFault { index: 0 };
    assert!(rt; end == ServeEnd::Sender { c: 1, end: fault });
    assert!(rt; lines.sent(0) == frame_of(1, 1).as_slice());
    assert!(rt; lines.sent(1) == b"".as_slice());
    Ok(())
}

#[test]
fn a_first_line_that_fails_to_open_is_the_end_before_anything_is_done(
    rt: HostRuntime,
) -> Result<(), Fail> {
    let mut lines = fed(rt.alloc(), &[0], &[])?;
    let (station, end, has_pass) = ran(&rt, rt.alloc(), &mut lines)?;
    assert!(rt; end == ServeEnd::NotOpened { c: 0 });
    assert!(rt; !has_pass);
    assert!(rt; station.said(Channel::OPERATOR) == b"".as_slice());
    Ok(())
}
