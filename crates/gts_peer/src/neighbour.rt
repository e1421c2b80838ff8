ghost use Rattle.std.specs.Prelude.{◌≡◌, OnOk};
ghost use Rattle.gts_traits.specs.Cited.{IsFront};

use gts_memory::MemSink;
use gts_tcp::{dial, listen};
use gts_traits::{Failed, Sink};
use std::io;
use std::io::{Read, Write};
use std::net::{Net, Shutdown, TcpListener, TcpStream};
use std::time::Clock;

/// How many bytes of the switch are taken at a time.
const PIECE: usize = 16_384;

/// The two connections with the switch.
#[derive(Drop)]
struct Connections {
    to_switch: TcpStream,
    from_switch: TcpStream,
}

/// Listens on the port `output`, reaches the switch at its port `input`, and waits for it.
fn meet<R: Net<Listener = TcpListener, Stream = TcpStream> + Clock>(
    rt: &R,
    input: u16,
    output: u16,
    tries: u32,
) -> io::Result<Connections> {
    let listener = listen(rt, output)?;
    let to_switch = dial(rt, input, tries)?;
    let (from_switch, _) = listener.accept()?;
    Ok(Connections {
        to_switch,
        from_switch,
    })
}

/// Sends the bytes, and ends the stream.
fn send_all(to_switch: &mut TcpStream, bytes: &[u8]) -> io::Result<()> {
    to_switch.write_all(bytes)?;
    to_switch.shutdown(Shutdown::Write)
}

/// Puts a piece behind what is kept.
#[tactic(auto, using(crate::proofs::FrontLemmas::unchanged))]
fn keep(got: &mut MemSink, piece: &[u8]) -> Result<(), Failed>
    ensures kept { IsFront got.old.written got.new.written }
    ensures sound { OnOk result (got.new.faults ≡ got.old.faults) }
{
    got.write(piece)?;
    Ok(())
}

/// Keeps what the switch sends, until it ends its stream.
#[tactic(auto, using(crate::proofs::FrontLemmas::unchanged, crate::proofs::FrontLemmas::chains))]
fn hear_out(from_switch: &mut TcpStream, got: &mut MemSink) -> Result<(), Failed>
    ensures kept { IsFront got.old.written got.new.written }
    ensures sound { OnOk result (got.new.faults ≡ got.old.faults) }
{
    let mut piece = [0u8; PIECE];
    for _ in 0..u64::MAX {
        match from_switch.read(&mut piece) {
            Ok(0) => return Ok(()),
            Ok(count) => keep(got, &piece[..count])?,
            Err(_) => return Err(Failed),
        }
    }
    Err(Failed)
}

/// A neighbour's whole talk with the switch, on the machine itself: it listens on the port `output`, connects to the port
/// `input` with at most so many tries, sends the bytes, ends its stream, and keeps in `got` what the switch sends until
/// that ends its own. `Failed` where a port couldn't be had, a connection broke, or `got` failed; what came before is
/// kept. It waits for the switch as long as that takes.
#[tactic(auto, using(crate::proofs::FrontLemmas::unchanged))]
pub fn talk<R: Net<Listener = TcpListener, Stream = TcpStream> + Clock>(
    rt: &R,
    input: u16,
    output: u16,
    bytes: &[u8],
    got: &mut MemSink,
    tries: u32,
) -> Result<(), Failed>
    ensures kept { IsFront got.old.written got.new.written }
    ensures sound { OnOk result (got.new.faults ≡ got.old.faults) }
{
    let Ok(mut both) = meet(rt, input, output, tries) else {
        return Err(Failed);
    };
    let sent = send_all(&mut both.to_switch, bytes);
    let heard = hear_out(&mut both.from_switch, got);
    if sent.is_err() {
        return Err(Failed);
    }
    heard
}
