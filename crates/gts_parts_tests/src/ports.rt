//! Ports for the tests over loopback.
use gts_tcp::listen;
use gts_traits::Place;
use std::io;
use std::net::{Net, TcpListener, TcpStream};

/// More tries than a thread needs to begin.
pub const TRIES: u32 = 100_000;

/// Two ports on which nobody listens.
pub fn free_ports<R>(rt: &R) -> io::Result<(u16, u16)>
where
    R: Net<Listener = TcpListener, Stream = TcpStream>,
{
    let one = listen(rt, 0)?;
    let other = listen(rt, 0)?;
    Ok((one.local_addr()?.port(), other.local_addr()?.port()))
}

/// Lines between these two ports of the machine itself.
pub fn between(input: u16, output: u16) -> Place {
    Place {
        input,
        output,
        ..Place::nowhere()
    }
}
