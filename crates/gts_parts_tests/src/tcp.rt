use crate::ports::{TRIES, between, free_ports};
use gts_tcp::{LineCall, TcpLines, dial, listen};
use gts_traits::{Failed, Line, Lines, Sink, Source};
use std::io::{Read, Write};
use std::net::{Net, Shutdown, TcpListener, TcpStream};
use std::test::Fail;
use std::time::Clock;
use std::{io, thread};

// Sends bytes on a connection, and ends its stream.
fn send(to: &mut TcpStream, bytes: &[u8]) -> io::Result<()> {
    to.write_all(bytes)?;
    to.shutdown(Shutdown::Write)
}

// Two bytes that come on a connection, and how many more.
fn bytes_to_end(from: &mut TcpStream) -> io::Result<([u8; 4], usize)> {
    let mut got = [0u8; 4];
    from.read_exact(&mut got[..2])?;
    let more = from.read(&mut got[2..])?;
    Ok((got, more))
}

// The neighbour: it sends three bytes, ends its stream, sends one more on a second connection, and reads to the end.
fn neighbour<R>(rt: &R, input: u16, listener: &TcpListener) -> io::Result<([u8; 4], usize)>
where
    R: Net<Listener = TcpListener, Stream = TcpStream> + Clock,
{
    let mut to = dial(rt, input, TRIES)?;
    let (mut from, _) = listener.accept()?;
    send(&mut to, b"abc")?;
    let mut again = dial(rt, input, TRIES)?;
    send(&mut again, b"d")?;
    bytes_to_end(&mut from)
}

// What two connections of a line give, and where the first one ends.
fn read_both<I: Line>(from: &mut I) -> Result<([u8; 4], usize, usize), Failed> {
    let mut got = [0u8; 4];
    let count = from.read(&mut got)?;
    let end = from.read(&mut got[count..])?;
    from.again()?;
    let more = from.read(&mut got[count..])?;
    Ok((got, end, more))
}

// What comes in, and how many of two bytes are written.
type Switched = (
    Result<([u8; 4], usize, usize), Failed>,
    Result<usize, Failed>,
);

// The switch: it reads to the end of two connections, writes two bytes, and hands the sockets back.
fn switch<R>(rt: &R, input: u16, output: u16) -> Result<Switched, Failed>
where
    R: Net<Listener = TcpListener, Stream = TcpStream> + Clock + Eprint + Sync,
{
    let mut lines = TcpLines::new(rt, Some(TRIES));
    let (mut from, mut to) = lines.open(5, &between(input, output))?;
    let got = read_both(&mut from);
    let written = to.write(b"xy");
    lines.close(5, from, to);
    Ok((got, written))
}

#[test]
fn a_circuit_is_opened_used_and_handed_back(rt: HostRuntime) -> Result<(), Fail> {
    let (input, output) = free_ports(&rt)?;
    let listener = listen(&rt, output)?;
    let runtime = &rt;
    let waiting = &listener;
    let (there, here) = thread::join(
        &rt,
        || neighbour(runtime, input, waiting).ok(),
        || switch(runtime, input, output),
    );
    assert!(rt; here == Ok((Ok((*b"abcd", 0, 1)), Ok(2))));
    assert!(rt; there == Some((*b"xy\0\0", 0)));
    Ok(())
}

#[test]
fn a_port_that_cannot_be_had_is_a_fault(rt: HostRuntime) -> Result<(), Fail> {
    let (input, output) = free_ports(&rt)?;
    let mut lines = TcpLines::new(&rt, Some(3));
    assert!(rt; lines.open(0, &between(0, output)).err() == Some(Failed));
    assert!(rt; lines.open(0, &between(input, 0)).err() == Some(Failed));
    let taken = listen(&rt, input)?;
    assert!(rt; lines.open(0, &between(input, output)).err() == Some(Failed));
    drop(taken);
    let Some(cause) = lines.cause(0) else {
        return Err(Fail::from("no cause was kept"));
    };
    assert!(rt; cause.call == LineCall::Bind);
    assert!(rt; cause.port == input);
    Ok(())
}

#[test]
fn a_neighbour_that_is_not_there_is_a_fault_of_the_first_frame(
    rt: HostRuntime,
) -> Result<(), Fail> {
    let (input, output) = free_ports(&rt)?;
    let mut lines = TcpLines::new(&rt, Some(2));
    let Ok((from, mut to)) = lines.open(0, &between(input, output)) else {
        return Err(Fail::from("the circuit wasn't opened"));
    };
    assert!(rt; to.write(b"x") == Err(Failed));
    lines.close(0, from, to);
    assert!(rt; lines.cause(0).map(|cause| cause.call) == Some(LineCall::Connect));
    Ok(())
}

/// More bytes than the system holds for a neighbour who doesn't read them.
const MANY: usize = 33_554_432;

/// How many bytes are read at a time.
const PIECE: usize = 65_536;

// How many bytes come on a connection until it ends.
fn bytes_of(from: &mut TcpStream) -> io::Result<usize> {
    let mut piece = [0u8; PIECE];
    let mut sum: usize = 0;
    for _ in 0..u64::MAX {
        match from.read(&mut piece)? {
            0 => break,
            count => sum = sum.saturating_add(count),
        }
    }
    Ok(sum)
}

// The neighbour breaks the first connection after one byte, and reads the second to its end.
fn breaking<R>(rt: &R, input: u16, listener: &TcpListener) -> io::Result<usize>
where
    R: Net<Listener = TcpListener, Stream = TcpStream> + Clock,
{
    let _to = dial(rt, input, TRIES)?;
    let (mut broken, _) = listener.accept()?;
    broken.read_exact(&mut [0u8; 1])?;
    drop(broken);
    let (mut from, _) = listener.accept()?;
    bytes_of(&mut from)
}

// The switch writes one long piece: how many bytes were taken, where the line didn't fail.
fn writing<R>(rt: &R, input: u16, output: u16) -> Result<Option<usize>, Fail>
where
    R: Net<Listener = TcpListener, Stream = TcpStream> + Clock + Eprint + Sync + AllocGlobal,
{
    let piece = vec![in rt.alloc(); 0u8; MANY]?;
    let mut lines = TcpLines::new(rt, Some(3));
    let Ok((from, mut to)) = lines.open(0, &between(input, output)) else {
        return Err(Fail::from("the circuit wasn't opened"));
    };
    let written = to.write(&piece);
    lines.close(0, from, to);
    Ok(written.ok())
}

#[test]
fn a_piece_in_which_the_line_breaks_comes_whole(rt: HostRuntime) -> Result<(), Fail> {
    let (input, output) = free_ports(&rt)?;
    let listener = listen(&rt, output)?;
    let runtime = &rt;
    let waiting = &listener;
    let (there, here) = thread::join(
        &rt,
        || breaking(runtime, input, waiting).ok(),
        || writing(runtime, input, output),
    );
    assert!(rt; here? == Some(MANY));
    assert!(rt; there == Some(MANY));
    Ok(())
}

// The neighbour breaks the only connection after one byte, and listens no more.
fn leaving<R>(rt: &R, input: u16, listener: TcpListener) -> io::Result<()>
where
    R: Net<Listener = TcpListener, Stream = TcpStream> + Clock,
{
    let _to = dial(rt, input, TRIES)?;
    let (mut broken, _) = listener.accept()?;
    drop(listener);
    broken.read_exact(&mut [0u8; 1])
}

#[test]
fn a_line_that_does_not_come_back_is_a_fault(rt: HostRuntime) -> Result<(), Fail> {
    let (input, output) = free_ports(&rt)?;
    let listener = listen(&rt, output)?;
    let runtime = &rt;
    let (there, here) = thread::join(
        &rt,
        move || leaving(runtime, input, listener).ok(),
        || writing(runtime, input, output),
    );
    assert!(rt; here?.is_none());
    assert!(rt; there == Some(()));
    Ok(())
}
