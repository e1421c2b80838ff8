use crate::ports::{TRIES, between, free_ports};
use gts_memory::MemSink;
use gts_peer::talk;
use gts_tcp::TcpLines;
use gts_traits::{Failed, Lines, Sink, Source};
use std::net::{Net, TcpListener, TcpStream};
use std::test::Fail;
use std::thread;
use std::time::Clock;

// A switch of one circuit that writes what it reads.
fn echo<R>(rt: &R, input: u16, output: u16) -> Result<(), Failed>
where
    R: Net<Listener = TcpListener, Stream = TcpStream> + Clock + Eprint + Sync,
{
    let mut lines = TcpLines::new(rt, Some(TRIES));
    let (mut from, mut to) = lines.open(0, &between(input, output))?;
    let mut piece = [0u8; 4];
    for _ in 0..100u32 {
        let count = from.read(&mut piece)?;
        if count == 0 {
            break;
        }
        to.write(&piece[..count])?;
    }
    lines.close(0, from, to);
    Ok(())
}

// Whether the neighbour gets back what it sends, behind what it had.
fn is_echoed<R>(rt: &R, input: u16, output: u16) -> Result<bool, Failed>
where
    R: Net<Listener = TcpListener, Stream = TcpStream> + Clock + AllocGlobal,
{
    let mut got = MemSink::new(rt.alloc(), &[]).map_err(|_| Failed)?;
    got.write(b"<")?;
    talk(rt, input, output, b"abcdefg", &mut got, TRIES)?;
    Ok(got.bytes() == b"<abcdefg".as_slice())
}

#[test]
fn a_neighbour_keeps_what_it_gets_back(rt: HostRuntime) -> Result<(), Fail> {
    let (input, output) = free_ports(&rt)?;
    let runtime = &rt;
    let (here, there) = thread::join(
        &rt,
        || echo(runtime, input, output),
        || is_echoed(runtime, input, output),
    );
    assert!(rt; here == Ok(()));
    assert!(rt; there == Ok(true));
    Ok(())
}

#[test]
fn a_switch_that_is_not_there_is_a_failure(rt: HostRuntime) -> Result<(), Fail> {
    let (input, output) = free_ports(&rt)?;
    let mut got = MemSink::new(rt.alloc(), &[])?;
    assert!(rt; talk(&rt, input, output, b"abc", &mut got, 3) == Err(Failed));
    Ok(())
}
