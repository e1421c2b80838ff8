//! The switch between two neighbours over loopback: what one of them sends comes to the other.

use crate::left::Left;
use gts_app::{Status, World, run};
use gts_memory::{MemSink, MemSource, MemStation};
use gts_peer::talk;
use gts_tcp::{TcpLines, dial, listen};
use gts_traits::{Channel, Failed, FreeGate, JournalFile, NoMemory, WordList};
use std::alloc::Global;
use std::net::{Net, TcpListener, TcpStream};
use std::process::Abort;
use std::sync::Wait;
use std::test::Fail;
use std::thread::Threads;
use std::time::Clock;
use std::{io, thread};

/// More tries than a thread needs to begin.
const TRIES: u32 = 100_000;

const TOP: &str = "centre = \"TVSV\"\n";

const A: &str = "[[circuit]]\nname = \"A\"\npeer = \"AAAA\"\n";

const B: &str = "[[circuit]]\nname = \"B\"\npeer = \"BBBB\"\n";

const RULE: &str = "[[rule]]\nheading = \"****** ****\"\nto = [\"A\", \"B\"]\n";

/// Two bulletins in their frames, numbered 001 and 002.
const FRAMES: &[u8] = b"00000039AN\x01\r\r\n001\r\r\nSMVG01 TVSV 280000\r\r\nNIL=\r\r\n\x03\
00000039AN\x01\r\r\n002\r\r\nSMVG01 TVSV 280000\r\r\nNIM=\r\r\n\x03";

/// The receipts of the two bulletins.
const RECEIPTS: &[u8] = b"ACC 0 0 1 SMVG01 TVSV 280000\nACC 0 1 1 SMVG01 TVSV 280000\n";

/// How many bytes the journal has with the two bulletins, each accepted and drawn once.
const JOURNAL_BYTES: usize = 309;

/// The ports of a circuit.
#[derive(Clone, Copy, Drop)]
struct Ports {
    input: u16,
    output: u16,
}

/// The ports of the circuits A and B.
#[derive(Clone, Copy, Drop)]
struct Circuits {
    a: Ports,
    b: Ports,
}

/// How the run of the switch ended, and what each neighbour got.
#[derive(Drop)]
struct Ends {
    switch: Result<Left, NoMemory>,
    at_a: Result<MemSink, Failed>,
    at_b: Result<MemSink, Failed>,
}

/// The port of a listener.
fn port_of(listener: &TcpListener) -> io::Result<u16> {
    Ok(listener.local_addr()?.port())
}

/// Ports on which nobody listens.
fn free_ports<R: Net<Listener = TcpListener, Stream = TcpStream>>(rt: &R) -> io::Result<Circuits> {
    let one = listen(rt, 0)?;
    let two = listen(rt, 0)?;
    let three = listen(rt, 0)?;
    let four = listen(rt, 0)?;
    Ok(Circuits {
        a: Ports {
            input: port_of(&one)?,
            output: port_of(&two)?,
        },
        b: Ports {
            input: port_of(&three)?,
            output: port_of(&four)?,
        },
    })
}

/// The lines of a circuit's ports in the directory.
fn port_lines(alloc: Global, ports: Ports) -> Result<String, Fail> {
    let Ports { input, output } = ports;
    Ok(format!(in alloc; "input = {input}\noutput = {output}\n")?)
}

/// The directory in which each of the two circuits gets what comes on the other one.
fn directory_of(alloc: Global, circuits: Circuits) -> Result<String, Fail> {
    let at_a = port_lines(alloc, circuits.a)?;
    let at_b = port_lines(alloc, circuits.b)?;
    Ok(format!(in alloc; "{TOP}{A}{at_a}{B}{at_b}{RULE}")?)
}

/// Runs a command over lines on loopback.
fn run_word<R>(rt: &R, word: &str, text: &[u8], station: MemStation) -> Result<Left, NoMemory>
where
    R: AllocGlobal
        + Threads
        + Wait
        + Sync
        + Clock
        + Eprint
        + Net<Listener = TcpListener, Stream = TcpStream>,
{
    let alloc = rt.alloc();
    let mut words = WordList::new();
    words.push(alloc, word)?;
    let world = World {
        directory: MemSource::new(alloc, text, &[])?,
        capture: MemSource::new(alloc, b"", &[])?,
        station,
    };
    let mut lines = TcpLines::new(rt, Some(TRIES));
    let ended = run(rt, alloc, &words, world, &mut lines, &FreeGate);
    Ok(Left {
        status: ended.status,
        station: ended.world.station,
    })
}

/// A station on which a journal of this directory was made.
fn with_journal<R>(rt: &R, text: &[u8]) -> Result<MemStation, Fail>
where
    R: AllocGlobal
        + Threads
        + Wait
        + Sync
        + Clock
        + Eprint
        + Net<Listener = TcpListener, Stream = TcpStream>,
{
    let station = MemStation::new(rt.alloc(), &[])?;
    let Left { status, station } = run_word(rt, "init", text, station)?;
    if status != Status::Done {
        return Err(Fail::from("no journal was made"));
    }
    Ok(station)
}

/// Serves the circuits. A neighbour that waits for a switch which has stopped is let go.
fn serve<R>(rt: &R, circuits: Circuits, text: &[u8], station: MemStation) -> Result<Left, NoMemory>
where
    R: AllocGlobal
        + Threads
        + Wait
        + Sync
        + Clock
        + Eprint
        + Net<Listener = TcpListener, Stream = TcpStream>,
{
    let end = run_word(rt, "serve", text, station);
    for output in [circuits.a.output, circuits.b.output] {
        // This fails where the neighbour doesn't wait.
        let _ = dial(rt, output, 1);
    }
    end
}

/// What a neighbour that sends these bytes gets until the switch ends its stream.
fn got_by<R>(rt: &R, ports: Ports, bytes: &[u8]) -> Result<MemSink, Failed>
where
    R: AllocGlobal + Clock + Net<Listener = TcpListener, Stream = TcpStream>,
{
    let mut got = MemSink::new(rt.alloc(), &[]).map_err(|_| Failed)?;
    talk(rt, ports.input, ports.output, bytes, &mut got, TRIES)?;
    Ok(got)
}

/// Runs the switch and both neighbours at once. The one on circuit A sends the two bulletins, the one on B nothing.
fn run_all<R>(rt: &R, circuits: Circuits, text: &[u8], station: MemStation) -> Ends
where
    R: AllocGlobal
        + Threads
        + Wait
        + Sync
        + Clock
        + Eprint
        + Net<Listener = TcpListener, Stream = TcpStream>,
{
    let (switch, (at_a, at_b)) = thread::join(
        rt,
        move || serve(rt, circuits, text, station),
        || {
            thread::join(
                rt,
                || got_by(rt, circuits.a, FRAMES),
                || got_by(rt, circuits.b, b""),
            )
        },
    );
    Ends { switch, at_a, at_b }
}

/// The run was done, and the station has the receipts and the journal of two bulletins.
fn is_served<R: Abort>(rt: &R, status: Status, station: &MemStation) {
    assert!(rt; status == Status::Done);
    assert!(rt; station.said(Channel::OPERATOR) == RECEIPTS);
    assert!(rt; station.file(JournalFile::FIRST).len() == JOURNAL_BYTES);
}

#[test]
fn what_one_neighbour_sends_comes_to_the_other(rt: HostRuntime) -> Result<(), Fail> {
    let circuits = free_ports(&rt)?;
    let text = directory_of(rt.alloc(), circuits)?;
    let station = with_journal(&rt, text.as_bytes())?;
    let Ends { switch, at_a, at_b } = run_all(&rt, circuits, text.as_bytes(), station);
    let Left { status, station } = switch?;
    is_served(&rt, status, &station);
    assert!(rt; at_a?.bytes() == b"".as_slice());
    assert!(rt; at_b?.bytes() == FRAMES);
    Ok(())
}
