ghost use Rattle.std.specs.Prelude.{◌≡◌, []};

use crate::ports::between;
use gts_memory::{MemLines, MemSink, MemSource, MemStation, Touched};
use gts_traits::{
    Channel, Failed, FreeGate, Gate, JournalFile, Line, Lines, NoMemory, Point, Sink, Source,
    Station, cut_synced, write_synced,
};
use std::test::Fail;

#[test]
fn a_source_gives_its_bytes_in_order(rt: HostRuntime) -> Result<(), Fail> {
    let mut source = MemSource::new(rt.alloc(), b"hello", &[1])?;
    let mut into = [0; 3];
    assert!(rt; source.read(&mut into) == Ok(3));
    assert!(rt; into == [104, 101, 108]);
    assert!(rt; source.read(&mut into) == Err(Failed));
    assert!(rt; source.read(&mut into) == Ok(2));
    assert!(rt; into == [108, 111, 108]);
    assert!(rt; source.read(&mut into) == Ok(0));
    Ok(())
}

/// How many bytes a read of the next connection gives.
fn read_next(source: &mut MemSource) -> Result<usize, Failed> {
    source.again()?;
    source.read(&mut [0; 2])
}

#[test]
fn a_source_begins_its_connections_one_after_another(rt: HostRuntime) -> Result<(), Fail> {
    let mut source = MemSource::new(rt.alloc(), b"abc", &[])?;
    source.add(b"d")?;
    assert!(rt; read_next(&mut source) == Ok(1));
    assert!(rt; read_next(&mut source) == Ok(0));
    Ok(())
}

#[test]
fn a_sink_keeps_what_is_written(rt: HostRuntime) -> Result<(), Fail> {
    let mut sink = MemSink::new(rt.alloc(), &[1])?;
    assert!(rt; sink.write(b"ab") == Ok(2));
    assert!(rt; sink.write(b"lost") == Err(Failed));
    assert!(rt; sink.write(b"c") == Ok(1));
    assert!(rt; sink.bytes() == b"abc".as_slice());
    assert!(rt; sink.starved() == 0);
    Ok(())
}

/// Says pieces on two channels.
fn say_pieces(station: &mut MemStation) -> [Result<(), Failed>; 4] {
    [
        station.say(Channel::OPERATOR, b"started"),
        station.say(Channel::of_circuit(63), b"lost"),
        station.say(Channel::of_circuit(63), b"ab"),
        station.say(Channel::of_circuit(63), b"c"),
    ]
}

#[test]
fn a_station_keeps_each_channel_apart(rt: HostRuntime) -> Result<(), Fail> {
    let mut station = MemStation::new(rt.alloc(), &[1])?;
    let answers = say_pieces(&mut station);
    assert!(rt; answers == [Ok(()), Err(Failed), Ok(()), Ok(())]);
    assert!(rt; station.said(Channel::OPERATOR) == b"started".as_slice());
    assert!(rt; station.said(Channel::of_circuit(63)) == b"abc".as_slice());
    assert!(rt; station.said(Channel::of_circuit(0)) == b"".as_slice());
    assert!(rt; station.calls() == 4);
    Ok(())
}

#[test]
fn a_station_tells_what_each_call_says(rt: HostRuntime) -> Result<(), Fail> {
    let mut station = MemStation::new(rt.alloc(), &[1])?;
    let _ = say_pieces(&mut station);
    assert!(rt; station.saying(1) == Some((Channel::of_circuit(63), b"ab".as_slice())));
    assert!(rt; station.saying(3).is_none());
    assert!(rt; station.starved() == 0);
    Ok(())
}

/// Writes, writes over and past that, and cuts.
fn keep<S: Station>(station: &mut S, into: &mut [u8]) -> Result<usize, Failed>
    requires { S.observed → S.calls station.old ≡ [] }
{
    write_synced(station, JournalFile::SECOND, 0, b"abc")?;
    station.write_at(JournalFile::SECOND, 1, b"xyz")?;
    cut_synced(station, JournalFile::SECOND, 3)?;
    station.read(JournalFile::SECOND, 1, into)
}

#[test]
fn a_station_keeps_its_files(rt: HostRuntime) -> Result<(), Fail> {
    let mut station = MemStation::new(rt.alloc(), &[])?;
    let mut into = [0; 4];
    assert!(rt; keep(&mut station, &mut into) == Ok(2));
    assert!(rt; into == [120, 121, 0, 0]);
    assert!(rt; station.size(JournalFile::SECOND) == Ok(3));
    assert!(rt; station.file(JournalFile::SECOND) == b"axy".as_slice());
    assert!(rt; station.file(JournalFile::FIRST) == b"".as_slice());
    assert!(rt; station.calls() == 7);
    Ok(())
}

/// Opens a circuit, reads from its line and from the next connection, writes, and hands the line back.
fn visit<L: Lines>(lines: &mut L, into: &mut [u8]) -> Result<usize, Failed> {
    let (mut input, mut output) = lines.open(5, &between(4001, 4002))?;
    let first = input.read(into);
    let second = input.again().and(input.read(into));
    let written = output.write(b"frame");
    lines.close(5, input, output);
    Ok(first?.max(second?).max(written?))
}

#[test]
fn a_circuit_is_opened_and_closed(rt: HostRuntime) -> Result<(), Fail> {
    let mut lines = MemLines::new(rt.alloc(), &[1])?;
    lines.feed(5, b"in")?;
    lines.add(5, b"then")?;
    lines.sink_fails(5, &[1])?;
    let mut into = [0; 4];
    assert!(rt; visit(&mut lines, &mut into) == Ok(5));
    assert!(rt; into == *b"then");
    assert!(rt; lines.sent(5) == b"frame".as_slice());
    assert!(rt; visit(&mut lines, &mut into) == Err(Failed));
    Ok(())
}

fn pass_on<I: Source, O: Sink, G: Gate>(
    input: &mut I,
    output: &mut O,
    gate: &G,
) -> Result<usize, Failed> {
    let mut piece = [0; 4];
    let count = input.read(&mut piece)?;
    gate.at(Point::Sent { c: 3 });
    output.write(&piece[..count])
}

#[test]
fn each_object_is_used_by_its_trait(rt: HostRuntime) -> Result<(), Fail> {
    let mut source = MemSource::new(rt.alloc(), b"frames", &[])?;
    let mut sink = MemSink::new(rt.alloc(), &[])?;
    assert!(rt; pass_on(&mut source, &mut sink, &FreeGate) == Ok(4));
    assert!(rt; pass_on(&mut source, &mut sink, &FreeGate) == Ok(2));
    assert!(rt; sink.bytes() == b"frames".as_slice());
    Ok(())
}

/// Says, writes and syncs, writes over that, and says again.
fn write_over<S: Station>(station: &mut S) -> Result<(), Failed>
    requires { S.observed → S.calls station.old ≡ [] }
{
    station.say(Channel::OPERATOR, b"one")?;
    write_synced(station, JournalFile::FIRST, 0, b"abc")?;
    station.write_at(JournalFile::FIRST, 1, b"xyz")?;
    station.say(Channel::OPERATOR, b"two")
}

/// Whether a crash in a call, with a choice for what was touched, leaves these bytes in the first file, and all that was said
/// before.
fn is_left(
    station: &MemStation,
    call: u64,
    choice: Touched,
    file: &[u8],
) -> Result<bool, NoMemory> {
    if call >= station.calls() {
        return Ok(false);
    }
    let crashed = station.crashed(call, choice)?;
    Ok(
        crashed.file(JournalFile::FIRST) == file
            && crashed.said(Channel::OPERATOR) == b"one".as_slice()
            && crashed.calls() == 0,
    )
}

/// A call in which the machine stops, a choice for what was touched, and what the first file has then.
const LEFT: [(u64, Touched, &[u8]); 7] = [
    (1, Touched::Old, b""),
    (1, Touched::New, b"abc"),
    (2, Touched::Fill(48), b"000"),
    (3, Touched::Old, b"abc"),
    (3, Touched::New, b"axyz"),
    (3, Touched::Fill(48), b"a000"),
    (4, Touched::New, b"axyz"),
];

#[test]
fn a_crash_leaves_the_synced_bytes_or_others_where_a_write_was(
    rt: HostRuntime,
) -> Result<(), Fail> {
    let mut station = MemStation::new(rt.alloc(), &[])?;
    assert!(rt; write_over(&mut station) == Ok(()));
    for (call, choice, file) in LEFT {
        assert!(rt; is_left(&station, call, choice, file)?, "{call}");
    }
    Ok(())
}
