//! Events that are gathered: what they do is settled behind one gate, and what is said of them comes behind it, in order.

use crate::engine::{numbered, small, small_engine, station_in};
use crate::journal::crashed;
use gts_directory::Directory;
use gts_engine::{Engine, SayMode};
use gts_event::{Device, SwitchFault};
use gts_frame::{FrameBuf, FrameField, Kind};
use gts_memory::{MemStation, Touched};
use gts_parts_tests::is_same;
use gts_traits::{Channel, JournalFile};
use std::alloc::Global;
use std::test::Fail;

/// How many calls make and open a journal.
const OPENING: u64 = 12;

/// How many calls bring what was gathered into the journal: its bytes and their sync, the gate and its sync.
const GATE: u64 = 4;

/// The bytes of a journal with no record.
const EMPTY: u64 = 41;

/// One event.
#[derive(Clone, Copy)]
enum Event {
    /// The message of this number comes on circuit 0.
    Hear(u32),
    /// Circuit 1 takes.
    Take,
    /// A frame is lost on circuit 0.
    Lose,
}

/// Two bulletins come and are drawn, and a frame is lost between: four records, and five pieces to be said.
const EVENTS: [Event; 5] = [
    Event::Hear(1),
    Event::Hear(2),
    Event::Take,
    Event::Lose,
    Event::Take,
];

/// How many pieces are said of them.
const PIECES: u64 = 5;

/// Gathers an event.
fn gather(
    alloc: Global,
    engine: &mut Engine<MemStation>,
    out: &mut FrameBuf,
    event: Event,
) -> Result<(), SwitchFault> {
    if engine.directory().circuits() < 2 {
        return Ok(());
    }
    match event {
        Event::Hear(number) => {
            engine.gather_hear(alloc, 0, Kind::An, &numbered(number))?;
        }
        Event::Take => {
            engine.gather_take(1, out, SayMode::Station)?;
        }
        Event::Lose => {
            engine.gather_lost(0, FrameField::Kind)?;
        }
    }
    Ok(())
}

/// Does an event behind a gate of its own.
fn act(
    alloc: Global,
    engine: &mut Engine<MemStation>,
    out: &mut FrameBuf,
    event: Event,
) -> Result<(), SwitchFault> {
    gather(alloc, engine, out, event)?;
    engine.settle()
}

/// Gathers events, up to the first fault.
fn gather_all(
    alloc: Global,
    engine: &mut Engine<MemStation>,
    out: &mut FrameBuf,
    events: &[Event],
) -> Result<(), SwitchFault> {
    for event in events {
        gather(alloc, engine, out, *event)?;
    }
    Ok(())
}

/// An engine that gathered these events, and what came of them.
fn gathered(
    alloc: Global,
    repeat: u32,
    failing: &[u64],
    events: &[Event],
) -> Result<(Engine<MemStation>, Result<(), SwitchFault>), Fail> {
    let mut out = FrameBuf::new(alloc)?;
    let mut engine = small_engine(alloc, repeat, failing)?;
    let result = gather_all(alloc, &mut engine, &mut out, events);
    Ok((engine, result))
}

/// The same settled: what came of that.
fn settled(
    alloc: Global,
    repeat: u32,
    failing: &[u64],
    events: &[Event],
) -> Result<(Engine<MemStation>, Result<(), SwitchFault>), Fail> {
    let (mut engine, _) = gathered(alloc, repeat, failing, events)?;
    let result = engine.settle();
    Ok((engine, result))
}

/// How many calls were made of the station of an engine that is done.
fn calls_in(engine: Engine<MemStation>) -> u64 {
    let station = station_in(engine);
    let calls = station.calls();
    drop(station);
    calls
}

/// The station of an engine that did each of the events alone.
fn alone(alloc: Global) -> Result<MemStation, Fail> {
    let mut out = FrameBuf::new(alloc)?;
    let mut engine = small_engine(alloc, 2, &[])?;
    for event in EVENTS {
        let _ = act(alloc, &mut engine, &mut out, event);
    }
    Ok(station_in(engine))
}

#[test]
fn nothing_is_done_or_said_before_it_is_settled(rt: HostRuntime) -> Result<(), Fail> {
    let (engine, result) = gathered(rt.alloc(), 2, &[], &EVENTS)?;
    assert!(rt; result == Ok(()));
    assert!(rt; engine.used() == EMPTY + 2 * (79 + 56));
    let station = station_in(engine);
    assert!(rt; station.calls() == OPENING);
    assert!(rt; station.said(Channel::OPERATOR).is_empty());
    assert!(rt; station.said(Channel::of_circuit(1)).is_empty());
    drop(station);
    Ok(())
}

/// Whether two stations have the same journal, and the same was said by both.
fn are_same(one: &MemStation, other: &MemStation) -> bool {
    is_same(one.file(JournalFile::FIRST), other.file(JournalFile::FIRST))
        && is_same(one.said(Channel::OPERATOR), other.said(Channel::OPERATOR))
        && is_same(
            one.said(Channel::of_circuit(1)),
            other.said(Channel::of_circuit(1)),
        )
}

#[test]
fn several_events_share_one_gate(rt: HostRuntime) -> Result<(), Fail> {
    let alone = alone(rt.alloc())?;
    let (engine, result) = settled(rt.alloc(), 2, &[], &EVENTS)?;
    let station = station_in(engine);
    assert!(rt; result == Ok(()));
    assert!(rt; station.calls() == OPENING + GATE + PIECES);
    assert!(rt; alone.calls() == OPENING + 4 * GATE + PIECES);
    assert!(rt; are_same(&station, &alone));
    drop(station);
    drop(alone);
    Ok(())
}

/// How many bytes are in use by the files of a station, once they are opened.
fn used_under(alloc: Global, station: MemStation, directory: Directory) -> Option<u64> {
    match Engine::open(alloc, station, directory) {
        Ok(engine) => {
            let used = engine.used();
            drop(engine);
            Some(used)
        }
        Err((station, _)) => {
            drop(station);
            None
        }
    }
}

/// The same under the small directory.
fn used_by(alloc: Global, station: MemStation) -> Result<Option<u64>, Fail> {
    Ok(used_under(alloc, station, small(alloc, 2)?))
}

/// How many pieces of the events a station said, one behind the other.
fn pieces_said(station: &MemStation) -> u64 {
    for piece in 0..PIECES {
        if station.saying(piece).is_none() {
            return piece;
        }
    }
    PIECES
}

/// The pieces that were said where the listed call was to fail, and the bytes in use behind that.
fn said_until(alloc: Global, call: u64) -> Result<(u64, Option<u64>), Fail> {
    let (engine, _) = settled(alloc, 2, &[call], &EVENTS)?;
    let station = station_in(engine);
    let pieces = pieces_said(&station);
    Ok((pieces, used_by(alloc, station)?))
}

/// Gathers a loss.
fn lose(engine: &mut Engine<MemStation>) -> Result<(), SwitchFault> {
    if engine.directory().circuits() == 0 {
        return Ok(());
    }
    engine.gather_lost(0, FrameField::Kind)?;
    Ok(())
}

/// What stops an engine that settles while the listed call fails, what that comes to, and what comes of an event then.
fn stopped_at(
    alloc: Global,
    call: u64,
) -> Result<
    (
        Option<Device>,
        Result<(), SwitchFault>,
        Result<(), SwitchFault>,
    ),
    Fail,
> {
    let (mut engine, first) = settled(alloc, 2, &[call], &EVENTS)?;
    let second = lose(&mut engine);
    let stopped = engine.stopped();
    drop(engine);
    Ok((stopped, first, second))
}

#[test]
fn a_say_that_fails_leaves_the_pieces_before_it(rt: HostRuntime) -> Result<(), Fail> {
    let alloc = rt.alloc();
    let whole = Some(EMPTY + 2 * (79 + 56));
    for piece in 0..PIECES {
        let call = OPENING + GATE + piece;
        let (stopped, first, second) = stopped_at(alloc, call)?;
        assert!(rt; stopped == Some(Device::Say));
        assert!(rt; first == Err(SwitchFault::SayFault));
        assert!(rt; second == Err(SwitchFault::Stopped { by: Device::Say }));
        assert!(rt; said_until(alloc, call)? == (piece, whole));
    }
    Ok(())
}

#[test]
fn a_disk_that_fails_leaves_all_or_none(rt: HostRuntime) -> Result<(), Fail> {
    let alloc = rt.alloc();
    let whole = EMPTY + 2 * (79 + 56);
    for (call, used) in [(0, EMPTY), (1, EMPTY), (2, EMPTY), (3, whole)] {
        let call = OPENING + call;
        let (stopped, first, second) = stopped_at(alloc, call)?;
        assert!(rt; stopped == Some(Device::Disk));
        assert!(rt; first == Err(SwitchFault::DiskFault));
        assert!(rt; second == Err(SwitchFault::Stopped { by: Device::Disk }));
        assert!(rt; said_until(alloc, call)? == (0, Some(used)));
    }
    Ok(())
}

/// What a crash may leave in each place that was touched.
const CHOICES: [Touched; 3] = [Touched::Old, Touched::New, Touched::Fill(0x4f)];

/// The bytes in use behind a crash in this call.
fn used_behind(
    alloc: Global,
    station: &MemStation,
    call: u64,
    choice: Touched,
) -> Result<Option<u64>, Fail> {
    used_by(alloc, crashed(station, call, choice)?)
}

#[test]
fn a_crash_leaves_all_or_none(rt: HostRuntime) -> Result<(), Fail> {
    let alloc = rt.alloc();
    let (engine, _) = settled(alloc, 2, &[], &EVENTS)?;
    let station = station_in(engine);
    for call in OPENING..OPENING + GATE + 1 {
        for choice in CHOICES {
            let used = used_behind(alloc, &station, call, choice)?;
            let none = used == Some(EMPTY) && call < OPENING + GATE;
            let all = used == Some(EMPTY + 2 * (79 + 56)) && call >= OPENING + 2;
            assert!(rt; none || all, "call {call}");
        }
    }
    Ok(())
}

/// Gathers bulletins until one is not taken, and answers how many were.
fn fill(alloc: Global, engine: &mut Engine<MemStation>, out: &mut FrameBuf) -> (u32, bool) {
    for number in 0..600 {
        match gather(alloc, engine, out, Event::Hear(number)) {
            Ok(()) => {}
            Err(SwitchFault::Full { .. }) => return (number, true),
            Err(_) => return (number, false),
        }
    }
    (600, false)
}

/// What an engine comes to that was filled: how many bulletins it took, and whether it was full then; what stopped it, and how
/// many calls were made.
type Filled = (u32, bool, Option<Device>, u64);

/// Fills a new engine.
fn filled(alloc: Global) -> Result<Filled, Fail> {
    let mut out = FrameBuf::new(alloc)?;
    let mut engine = small_engine(alloc, 1, &[])?;
    let (accepted, full) = fill(alloc, &mut engine, &mut out);
    let stopped = engine.stopped();
    Ok((accepted, full, stopped, calls_in(engine)))
}

#[test]
fn what_was_gathered_is_settled_where_the_journal_is_full(rt: HostRuntime) -> Result<(), Fail> {
    let (accepted, full, stopped, calls) = filled(rt.alloc())?;
    assert!(rt; full && accepted > 100 && accepted < 256);
    assert!(rt; stopped.is_none());
    assert!(rt; calls == OPENING + GATE + u64::from(accepted));
    Ok(())
}

/// What comes of gathering these events, and how many calls were made then.
fn calls_of(
    alloc: Global,
    repeat: u32,
    events: &[Event],
) -> Result<(Result<(), SwitchFault>, u64), Fail> {
    let (engine, result) = gathered(alloc, repeat, &[], events)?;
    Ok((result, calls_in(engine)))
}

#[test]
fn as_many_draws_are_gathered_as_are_repeated(rt: HostRuntime) -> Result<(), Fail> {
    let events = [
        Event::Hear(1),
        Event::Hear(2),
        Event::Hear(3),
        Event::Take,
        Event::Take,
        Event::Take,
    ];
    assert!(rt; calls_of(rt.alloc(), 2, &events)? == (Ok(()), OPENING + GATE + 5));
    assert!(rt; calls_of(rt.alloc(), 3, &events)? == (Ok(()), OPENING));
    Ok(())
}

#[test]
fn the_event_of_a_call_whose_disk_fails_has_not_come(rt: HostRuntime) -> Result<(), Fail> {
    let alloc = rt.alloc();
    let events = [Event::Hear(1), Event::Hear(2), Event::Take, Event::Take];
    let (engine, result) = gathered(alloc, 1, &[OPENING], &events)?;
    assert!(rt; result == Err(SwitchFault::DiskFault));
    assert!(rt; engine.stopped() == Some(Device::Disk));
    let station = station_in(engine);
    assert!(rt; station.said(Channel::OPERATOR).is_empty());
    assert!(rt; used_by(alloc, station)? == Some(EMPTY));
    Ok(())
}

/// How many calls an engine makes that gathered a bulletin and so many losses behind it.
fn calls_with_losses(alloc: Global, losses: u32) -> Result<u64, Fail> {
    let mut out = FrameBuf::new(alloc)?;
    let mut engine = small_engine(alloc, 1, &[])?;
    let _ = gather(alloc, &mut engine, &mut out, Event::Hear(1));
    for _ in 0..losses {
        let _ = gather(alloc, &mut engine, &mut out, Event::Lose);
    }
    Ok(calls_in(engine))
}

#[test]
fn so_many_pieces_are_held_and_no_more(rt: HostRuntime) -> Result<(), Fail> {
    let alloc = rt.alloc();
    assert!(rt; calls_with_losses(alloc, 255)? == OPENING);
    assert!(rt; calls_with_losses(alloc, 256)? == OPENING + GATE + 257);
    Ok(())
}
